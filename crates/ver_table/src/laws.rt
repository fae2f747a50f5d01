//! What the table answers is what the kernel's model says, for each history that it stands for.

ghost use Rattle.std.specs.Prelude.{ℕ, ◌≡◌, ◌≤◌, ◌<◌, ◌∷◌, [], List, Option, Some, None, Bool, false, get_or, length, set};
ghost use Rattle.std.specs.List.{AllByRecursion};
ghost use Rattle.interval.specs.declared.version.Pin.{Pin};
ghost use Rattle.interval.specs.Ranges.{cut_to, raised_to};
ghost use Rattle.kernel_model.specs.Effects.{Run, written};
ghost use Rattle.kernel_model.specs.Items.{FinishRecord};
ghost use Rattle.kernel_model.specs.Replay.{DeviceState, clock_of};
ghost use Rattle.kernel_model.specs.Worlds.{World};
ghost use Rattle.kernel_model.specs.Versions.{Read, Version, chosen, versions};
ghost use Rattle.kernel_model.specs.Intervals.{Interval, finish_interval, is_empty, read_interval, within};
ghost use Rattle.kernel_model.specs.Cores.{Attempt, Core, all_but};
ghost use Rattle.kernel_model.specs.Room.{has_room, interval_of, is_needed as needed_in};
ghost use Rattle.kernel_model.specs.Events.{Event, State, event_step};
ghost use Rattle.kernel_model.specs.History.{IsNumbered};
ghost use Rattle.kernel_model.specs.Sound.{IsSound};
ghost use Rattle.kernel_model.specs.Bounds.{bound_of, raised_by};
ghost use Rattle.kernel_model.specs.Chain.{IsFloor, floored, joining};
ghost use Rattle.ver_table.specs.Chains.{Chain, chain_at, holds_newest, one_version};
ghost use Rattle.ver_table.specs.Places.{IsLeastFree, has_place, is_needed};
ghost use Rattle.ver_table.specs.Slots.{IsLaid};
ghost use Rattle.ver_table.specs.StandsFor.{AreOthers, ArePins, Held, IsHeldAs, IsPinOf, IsPlanned, IsSpare, StandsFor, StandsIn, after_joining, first_held, held_joining, intervals_of, stored_of};

/// An attempt finds in the table the version that it finds in the history, and the slot that holds it.
pub fn chosen_version_is_held<M>()
    ensures { (base : DeviceState) (floor o k : ℕ) (history : List FinishRecord)
        → (cores : List (Core M))
        → (i : Interval) (c : Chain) (held : List Held) (v : Version)
        → interval_of base history (get_or cores k Core.Idle) ≡ Some i → is_empty i ≡ false
        → floor ≤ i.lo → StandsFor floor (needed_in base history o cores) base o history c held
        → chosen i.hi (versions base o history) ≡ Some v
        → (h : Held) × IsHeldAs floor i.hi c held v h }
{}

/// Its begin and its end, as the table tells them, make the interval of reads that the version makes.
pub fn held_version_cuts()
    ensures { (floor : ℕ) (v : Version) (h : Held) (i : Interval) → floor ≤ i.lo
        → h.version ≡ floored floor v
        → within (Some v) i ≡ cut_to (stored_of h).end (raised_to (stored_of h).begin i) }
{}

/// The bounds of what a finish writes give its interval.
pub fn bounds_give_interval()
    ensures { (base : DeviceState) (history : List FinishRecord) (floor start : ℕ)
        → (reads : List Read) (run : Run)
        → (chains : List Chain) → floor ≤ start
        → AllByRecursion (λ w. (chain_at chains w.object).bound ≡ bound_of floor w.object history)
        run.writes
        → (let before = read_interval base history start reads in
        raised_by (λ o. (chain_at chains o).bound) run.writes before
        ≡ finish_interval base history start reads run) }
{}

/// Intervals and pins of cores are what the table is to be asked with.
pub fn pins_name_copies<M>()
    ensures { (base : DeviceState) (floor o : ℕ) (history : List FinishRecord)
        → (needed : Version → Bool)
        → (c : Chain) (held : List Held) (cores : List (Core M)) (pins : List Pin)
        → IsNumbered base history → IsLaid c
        → StandsFor floor needed base o history c held → ArePins o held cores pins
        → AreOthers base history o held cores (intervals_of base history cores) pins }
{}

/// A pin of the version that was chosen names its slot.
pub fn chosen_version_is_pinned()
    ensures { (base : DeviceState) (floor o : ℕ) (history : List FinishRecord)
        → (needed : Version → Bool)
        → (hi : Option ℕ) (c : Chain) (held : List Held) (v : Version) (h : Held) (p : Pin)
        → IsLaid c → StandsFor floor needed base o history c held
        → IsHeldAs floor hi c held v h → p.object.0 ≡ o → p.slot ≡ h.slot
        → IsPinOf o held (record { object = o; writer = v.writer }) p }
{}

/// It goes on to name it when a finish joins, while a core copies the version.
pub fn pin_stays<M>()
    ensures { (base : DeviceState) (o k copied : ℕ) (history : List FinishRecord)
        → (cores : List (Core M))
        → (plan : ℕ → ℕ) (j : Option FinishRecord) (c : Chain) (held : List Held) (a : Attempt M)
        → (r : Read)
        → (reads : List Read) (p : Pin)
        → IsPlanned (needed_in base history o cores) plan j o c held
        → get_or cores k Core.Idle ≡ Core.Copying a copied → a.reads ≡ r ∷ reads
        → IsPinOf o held r p → IsPinOf o (held_joining plan j o held) r p }
{}

/// An object has a place in the table exactly where it has room.
pub fn place_is_room<M>()
    ensures { (world : World M) (s : State M) (floor o n : ℕ) (c : Chain) (held : List Held)
        → (others : List Interval) (pins : List Pin)
        → IsSound world s → IsFloor world.base floor s → StandsIn floor world.base s o c held
        → AreOthers world.base s.history o held (all_but n s.cores) others pins
        → c.slots ≡ world.sizes.slots o
        → has_place (is_needed o others pins) c
        ≡ has_room world.sizes world.base s.history (all_but n s.cores) o }
{}

/// A free slot does not hold the newest version, and the others need nothing that it holds.
pub fn free_slot_is_spare<M>()
    ensures { (base : DeviceState) (floor o k : ℕ) (history : List FinishRecord)
        → (needed : Version → Bool)
        → (c : Chain) (held : List Held) (cores : List (Core M)) (others : List Interval)
        → (pins : List Pin)
        → StandsFor floor needed base o history c held
        → AreOthers base history o held cores others pins
        → IsLeastFree (is_needed o others pins) c k
        → (holds_newest k c.stored ≡ false) × IsSpare base history o cores k held }
{}

/// Once a core commits nobody needs what the others do not need.
pub fn spare_when_committing<M>()
    ensures { (base : DeviceState) (history : List FinishRecord) (o n k : ℕ) (cores : List (Core M))
        → (i : FinishRecord)
        → (left : ℕ) (held : List Held) → n < length cores
        → IsSpare base history o (all_but n cores) k held
        → IsSpare base history o (set cores n (Core.Committing i left)) k held }
{}

/// A spare slot stays spare through an event.
pub fn spare_slot_stays<M>()
    ensures { (world : World M) (s : State M) (floor o k : ℕ) (e : Event) (c : Chain)
        → (held : List Held) → IsSound world s → IsFloor world.base floor s
        → StandsIn floor world.base s o c held → holds_newest k c.stored ≡ false
        → IsSpare world.base s.history o s.cores k held
        → (let t = (event_step world s e).0 in IsSpare world.base t.history o t.cores k held) }
{}

/// A table that was opened at the base's clock stands for the base.
pub fn opened_table_stands()
    ensures { (base : DeviceState) (o slots k : ℕ) (needed : Version → Bool)
        → StandsFor base.clock needed base o [] (one_version slots k base.clock)
        (first_held base o k ∷ []) }
{}

/// A finish that joins stands at or after the bound of each object that it wrote.
pub fn finish_is_above_bound<M>()
    ensures { (world : World M) (s : State M) (floor o : ℕ) (e : Event) (i : FinishRecord)
        → (words : List ℕ)
        → (c : Chain) (held : List Held) → IsSound world s → IsFloor world.base floor s
        → StandsIn floor world.base s o c held → joining s e ≡ Some i
        → written i.run.writes o ≡ Some words → c.bound ≤ i.point }
{}

/// With each event the table goes on, where the plan has a free slot for what a finish that joins writes.
pub fn table_goes_on<M>()
    ensures { (world : World M) (s : State M) (floor o : ℕ) (e : Event) (plan : ℕ → ℕ) (c : Chain)
        → (held : List Held) → IsSound world s → IsFloor world.base floor s
        → StandsIn floor world.base s o c held
        → IsPlanned (needed_in world.base s.history o s.cores) plan (joining s e) o c held
        → StandsIn floor world.base (event_step world s e).0 o
        (after_joining plan (joining s e) o c) (held_joining plan (joining s e) o held) }
{}

/// While all cores are idle, one version of each object, begun at the clock, stands for the history, with the clock as the floor.
pub fn boot_is_reopened<M>()
    ensures { (base : DeviceState) (s : State M) (o slots k : ℕ) (v : Version)
        → ((n : ℕ) → get_or s.cores n Core.Idle ≡ Core.Idle)
        → chosen None (versions base o s.history) ≡ Some v
        → (let clock = clock_of base s.history in
        StandsIn clock base s o (one_version slots k clock)
        (record { slot = k; version = record v { begin = clock } } ∷ [])) }
{}
