//! What is asked of a verdict is what the table machine looks at, and its plan is that of the table machine.

ghost use Rattle.std.specs.Prelude.{ℕ, ◌≡◌, ◌<◌, List, if◌then◌else◌, is_some, length, slice_index};
ghost use Rattle.rv_core.specs.State.{MachineState};
ghost use Rattle.kernel_model.specs.Sizes.{Sizes};
ghost use Rattle.kernel_model.specs.Effects.{Run, Write, written};
ghost use Rattle.kernel_model.specs.Items.{FinishRecord};
ghost use Rattle.slot_model.specs.Tabled.{table_verdict};
ghost use Rattle.set_model.specs.Sets.{TaskSet};
ghost use Rattle.shadow_index.specs.declared.plan.Plan.{Plan};
ghost use Rattle.device_model.specs.Layouts.{Layout};
ghost use Rattle.device_model.specs.IndexWords.{Index};
ghost use Rattle.device_model.specs.Counting.{sizes_on};
ghost use Rattle.table_machine.specs.Tables.{Seat, Try};
ghost use Rattle.table_machine.specs.Places.{index_after, plan_in, slots_after, verdict_in, views_in};
ghost use Rattle.ver_table.specs.Tabled.{all_tabled};
ghost use Rattle.vol_copy.specs.declared.attempt.Attempt.{Attempt};
ghost use Rattle.validate.specs.Answers.{AreForOne, AreSizes, IsPlanOf, IsSeenIn, Seen, tables_in};

/// The table machine's verdict on a try beside these seats is the one that is asked for.
pub fn verdict_is_that_of_tables()
    ensures { (s : Seen) (x : Index) (seats : List (Seat MachineState)) (sizes : Sizes)
        → (t : Try MachineState) (run : Run) → IsSeenIn s x seats
        → verdict_in sizes x (all_tabled s.chains) seats t run
        ≡ table_verdict sizes (tables_in s) s.others t.task t.interval run }
{}

/// The index after a finish is the same by its plan as by the table machine's.
pub fn index_takes_plan()
    ensures { (s : Seen) (x : Index) (seats : List (Seat MachineState)) (sizes : Sizes)
        → (plan : Plan) (i : FinishRecord) → views_in seats ≡ s.others → IsPlanOf s sizes plan i
        → index_after (plan_in sizes seats (all_tabled s.chains)) x i
        ≡ index_after (slice_index plan.slots) x i }
{}

/// It names the plan's slot of each object that is written, and else the slot that was named.
pub fn index_names_slots()
    ensures { (plan : ℕ → ℕ) (ws : List Write) (slots : List ℕ) (o : ℕ) → o < length slots
        → slice_index (slots_after plan ws 0 slots) o
        ≡ (if is_some (written ws o) then plan o else slice_index slots o) }
{}

/// The numbers of a set on a device are those of a table and a queue for this set.
pub fn sizes_are_those_of_set()
    ensures { (s : Seen) (set : TaskSet) (l : Layout) (a : Attempt) → AreForOne set s.chains a
        → s.queue.records ≡ set.records → AreSizes s (sizes_on l set) }
{}
