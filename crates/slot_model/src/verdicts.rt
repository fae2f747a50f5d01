//! What tables give in place of a history: choices, intervals, room and verdicts.

ghost use Rattle.std.specs.List.{AllByRecursion};
ghost use Rattle.std.specs.Prelude.{ℕ, ◌≡◌, ◌<◌, ◌∷◌, List, Option, Some, get_or, set, length, false};
ghost use Rattle.kernel_model.specs.Chain.{cut, joining};
ghost use Rattle.kernel_model.specs.Cores.{Attempt, Core, run_of};
ghost use Rattle.kernel_model.specs.Effects.{Outcome};
ghost use Rattle.kernel_model.specs.Events.{Event};
ghost use Rattle.kernel_model.specs.History.{AreFound};
ghost use Rattle.kernel_model.specs.Intervals.{is_empty, read_interval};
ghost use Rattle.kernel_model.specs.Items.{FinishRecord};
ghost use Rattle.kernel_model.specs.Replay.{DeviceState};
ghost use Rattle.kernel_model.specs.Room.{is_needed};
ghost use Rattle.kernel_model.specs.Sizes.{Sizes};
ghost use Rattle.kernel_model.specs.Verdicts.{verdict};
ghost use Rattle.kernel_model.specs.Versions.{Read, Version, chosen};
ghost use Rattle.slot_model.specs.Changes.{with_finished};
ghost use Rattle.slot_model.specs.Kept.{Held, chosen_held, slot_in};
ghost use Rattle.slot_model.specs.Slots.{Image};
ghost use Rattle.slot_model.specs.Tabled.{Pin, AreTables, Place, Tables, View, chosen_place, free_place, is_needed_at, is_written_read, place_of, places_of, table_verdict, tables_with, views_of, with_place, IsRead, tables_joined, cut_view, reads_of, view_of, others_views};
ghost use Rattle.slot_model.specs.Moments.{Moment, AreTablesIn, IsLawfulIn, IsStanding, after_event, all_versions, core_in, free_in, interval_in, others_in, reads_in, view_in, views_in};

/// An outside read chooses by the table the slot of the version that the model chooses, and its interval changes by that place alone.
pub fn read_by_tables<M>()
    ensures { (m : Moment M) (t : Tables) (n o start : ℕ) (reads : List Read) (v : Version)
        → IsStanding m → AreTablesIn m t → interval_in m n ≡ Some (reads_in m start reads)
        → is_empty (reads_in m start reads) ≡ false → o < m.world.sizes.objects
        → chosen (reads_in m start reads).hi (all_versions m o) ≡ Some v
        → IsRead m.world.sizes m.world.base m.state.history start reads o (t.places o) m.image v }
{}

/// The place that a table chooses is that of the version that is chosen of those held.
pub fn chosen_place_is_held()
    ensures { (hi : Option ℕ) (chain : List Held) (p : Place)
        → chosen_place hi (places_of chain) ≡ Some p → slot_in (chosen_held hi chain) ≡ p.slot }
{}

/// The version at a place is needed by others just where what is kept of them says so.
pub fn needed_by_tables<M>()
    ensures { (m : Moment M) (n o : ℕ) → IsStanding m → o < m.world.sizes.objects
        → (let needed = is_needed m.world.base m.state.history o (others_in m n) in
        AllByRecursion (λ h. needed h.version ≡ is_needed_at o (views_in m n) (place_of h))
        (m.kept.chains o)) }
{}

/// The tables give the free slot.
pub fn free_slot_by_tables<M>()
    ensures { (m : Moment M) (t : Tables) (n o : ℕ)
        → IsStanding m → AreTablesIn m t → o < m.world.sizes.objects
        → free_place (m.world.sizes.slots o) o (views_in m n) (t.places o) ≡ free_in m n o }
{}

/// The tables give the verdict, with its cause and its point.
pub fn verdict_by_tables<M>()
    ensures { (m : Moment M) (t : Tables) (n : ℕ) (a : Attempt M) (outcome : Outcome)
        → IsStanding m → AreTablesIn m t → core_in m n ≡ Core.Ready a outcome
        → AllByRecursion (λ w. w.object < m.world.sizes.objects) (run_of a outcome).writes
        → (let run = run_of a outcome in
        table_verdict m.world.sizes t (views_in m n) a.task (reads_in m a.start a.reads) run
        ≡ verdict m.world.sizes m.world.base m.state.history (others_in m n) a run) }
{}

/// An attempt that has opened a read has the interval that the place gives, and copies from there.
pub fn read_view_by_table<M>()
    ensures { (sizes : Sizes) (base : DeviceState) (history : List FinishRecord)
        → (start o copied : ℕ)
        → (reads : List Read) (places : List Place) (image : Image) (v : Version) (b : Attempt M)
        → b.start ≡ start → b.reads ≡ record { object = o; writer = v.writer } ∷ reads
        → (r : IsRead sizes base history start reads o places image v)
        → (let interval = with_place r.place (read_interval base history start reads) in
        let pin : Pin = record { object = o; slot = r.place.slot } in
        view_of base history r.place.slot (Core.Copying b copied)
        ≡ Some (record { interval = interval; copying = Some pin })) }
{}

/// A finish that joins cuts the intervals of those that read an object that it writes, and leaves the others.
pub fn finish_cuts_readers<M>()
    ensures { (m : Moment M) (n left start : ℕ) (i : FinishRecord) (reads : List Read)
        → IsLawfulIn m → core_in m n ≡ Core.Committing i left
        → AreFound m.world.base m.state.history reads
        → read_interval m.world.base (i ∷ m.state.history) start reads
        ≡ cut i.point (is_written_read i reads) (reads_in m start reads) }
{}

/// A finish that joins changes the tables by its point, its writes, its reads and its spawns.
pub fn finish_changes_tables<M>()
    ensures { (m : Moment M) (t : Tables) (n left : ℕ) (i : FinishRecord)
        → IsLawfulIn m → core_in m n ≡ Core.Committing i left → AreTablesIn m t
        → AreTables m.world.sizes m.world.base m.floor (i ∷ m.state.history)
        (with_finished (Some i) m.kept)
        (tables_with i m.kept.plan t) }
{}

/// A running core whose interval is not empty finds a version at its outside read, and the table has its place.
pub fn read_finds_place<M>()
    ensures { (m : Moment M) (t : Tables) (n o : ℕ) (a : Attempt M)
        → IsStanding m → AreTablesIn m t → core_in m n ≡ Core.Running a
        → is_empty (reads_in m a.start a.reads) ≡ false → o < m.world.sizes.objects
        → (v : Version) × (chosen (reads_in m a.start a.reads).hi (all_versions m o) ≡ Some v)
        × IsRead m.world.sizes m.world.base m.state.history a.start a.reads o
        (t.places o) m.image v }
{}

/// The tables change at a step of a core by the finish that joins, if one does.
pub fn tables_go_on<M>()
    ensures { (m : Moment M) (t : Tables) (n : ℕ) → IsLawfulIn m → AreTablesIn m t
        → AreTablesIn (after_event m (Event.CoreStep n))
        (tables_joined (joining m.state (Event.CoreStep n)) m.kept.plan t) }
{}

/// What is kept of the other attempts changes at a step of a core by the finish that joins, if one does: it cuts those that read what it writes.
pub fn other_views_go_on<M>()
    ensures { (m : Moment M) (n k : ℕ) → IsLawfulIn m → (k ≡ n → ⊥)
        → view_in (after_event m (Event.CoreStep n)) k
        ≡ cut_view (joining m.state (Event.CoreStep n)) (reads_of (core_in m k)) (view_in m k) }
{}

/// What is kept of each core's attempt gives what is kept of the others of a core.
pub fn views_of_others<M>()
    ensures { (base : DeviceState) (history : List FinishRecord) (pins : ℕ → ℕ)
        → (views : ℕ → Option View)
        → (cores : List (Core M)) (n : ℕ)
        → ((k : ℕ) → views k ≡ view_of base history (pins k) (get_or cores k Core.Idle))
        → others_views views n 0 (length cores)
        ≡ views_of base history pins 0 (set cores n Core.Idle) }
{}
