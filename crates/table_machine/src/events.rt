//! The machine over tables and device words simulates the event machine.

ghost use Rattle.std.specs.Prelude.{ℕ, ◌≡◌, ◌≤◌, List, length};
ghost use Rattle.kernel_model.specs.Replay.{max_id};
ghost use Rattle.kernel_model.specs.Runs.{TaskMachine};
ghost use Rattle.kernel_model.specs.Events.{Event, Power, opened};
ghost use Rattle.kernel_model.specs.Fit.{IsMachine};
ghost use Rattle.set_model.specs.Sets.{TaskSet};
ghost use Rattle.set_model.specs.Limits.{IsTaskSet};
ghost use Rattle.set_model.specs.Numbers.{sizes_of};
ghost use Rattle.device_model.specs.Words.{Words, made};
ghost use Rattle.device_model.specs.Layouts.{IsKindOf, Kind, layout_of};
ghost use Rattle.device_model.specs.IndexWords.{base_of};
ghost use Rattle.device_model.specs.Decoding.{Held, Stored, decode, durable_of};
ghost use Rattle.device_model.specs.Keeping.{KeepsIn};
ghost use Rattle.table_machine.specs.Tables.{Setting, Tables, sizes_in};
ghost use Rattle.table_machine.specs.Events.{table_step};
ghost use Rattle.table_machine.specs.Represents.{Represents};
ghost use Rattle.table_machine.specs.Simulates.{HasRoom, IsCourse, IsSetting, IsWrite, SimulatesEvent, opened_tables};
ghost use Rattle.table_machine.specs.Configurations.{Configuration, HasIdsBy, HasIdsFor, Holds, IsRepresented, SimulatesAt, durable_in};

/// Tables and words that stand for a state lead by each event to tables and words that stand for the next one, with the same line and as many writes.
pub fn event_simulates<M>()
    ensures { (c : Configuration M) (e : Event) → IsRepresented c → HasIdsBy c e → SimulatesAt c e }
{}

/// Seen from outside, where the tables have room: whatever state they stood for, what a step makes of them stands for its next state.
pub fn step_simulates<M>()
    ensures { (x : Setting M) (t : Tables M) (words : Words) (e : Event) → IsSetting x → HasRoom t
        → (let a = table_step x words t e in
        SimulatesEvent x t words e a.tables (made a.writes words) a.line (length a.writes)) }
{}

/// Room in the tables is room for the next state.
pub fn room_suffices<M>()
    ensures { (c : Configuration M) (e : Event) → IsRepresented c → HasRoom c.tables
        → HasIdsBy c e }
{}

/// So they do by any events: the same lines, as many writes, and what stands for the state after them.
pub fn events_simulate<M>()
    ensures { (c : Configuration M) (events : List Event) → IsRepresented c → HasIdsFor c events
        → IsCourse c.setting c.base c.last c.tables c.words c.state events }
{}

/// Words that keep a state stand for it before the first event, with the tables that are read from them, or in a boot with none.
pub fn opened_tables_represent<M>()
    ensures { (x : Setting M) (h : Held) (words : Words) (cores : ℕ) (power : Power) → IsSetting x
        → IsMachine x.steps (sizes_in x)
        → KeepsIn x.set x.layout h words → h.index.next ≤ max_id
        → Represents x (base_of h.index h.objects) h.index.last
        (opened_tables x h cores power) words (opened cores power h.boots) }
{}

/// Words that stand for a state keep what is durable in it, and decode to it.
pub fn words_hold_durable<M>()
    ensures keep { (c : Configuration M) → IsRepresented c → Holds c c.words c.state }
    ensures decode { (kind : Kind) (c : Configuration M) → IsRepresented c
        → c.setting.layout ≡ layout_of kind c.setting.set → IsKindOf c.setting.set.format kind
        → (h : Held) × (decode c.setting.set c.words ≡ Stored.Holds kind h)
        × (durable_of h ≡ durable_in c c.state) }
{}

/// A write to the device changes no table, but how many writes are left.
pub fn write_changes_no_table<M>()
    ensures { (x : Setting M) (words : Words) (t : Tables M) (n : ℕ) → t.power ≡ Power.On
        → length (table_step x words t (Event.CoreStep n)).writes ≡ 1 → IsWrite x words t n }
{}

/// A device of each kind is laid out for its set; with one of format 1 the numbers are those of the set.
pub fn device_is_setting<M>()
    ensures setting { (steps : TaskMachine M) (kind : Kind) (set : TaskSet) → IsTaskSet set
        → IsSetting (record { steps = steps; set = set; layout = layout_of kind set }) }
    ensures sizes { (steps : TaskMachine M) (set : TaskSet)
        → sizes_in {M = M} (record { steps = steps; set = set; layout = layout_of Kind.Plain set })
        ≡ sizes_of set }
{}
