//! What stands in slots goes on through each event.

ghost use Rattle.std.specs.Prelude.{ℕ, ◌≡◌, ◌≤◌, ◌∷◌, Some, true, suc};
ghost use Rattle.kernel_model.specs.Cores.{Attempt, Core};
ghost use Rattle.kernel_model.specs.Effects.{Outcome};
ghost use Rattle.kernel_model.specs.Events.{Event, event_step, Power, durable_commit, with_finish};
ghost use Rattle.kernel_model.specs.Items.{FinishRecord};
ghost use Rattle.kernel_model.specs.Replay.{clock_of};
ghost use Rattle.kernel_model.specs.Versions.{Read, chosen};
ghost use Rattle.slot_model.specs.Changes.{afresh, is_calm, put_at, with_finished};
ghost use Rattle.slot_model.specs.Kept.{chosen_held, slot_in};
ghost use Rattle.slot_model.specs.Moments.{Moment, IsStanding, StandsIn, after_event, begun_afresh, core_in, late_in, next_core, planned_in, reads_in, stepped, written_in};

/// Each event leads from what stands to what stands.
pub fn event_keeps<M>()
    ensures { (m : Moment M) (e : Event) → IsStanding m → StandsIn (after_event m e) }
{}

/// A start, a private step, a trap, a copied word, the end of a copy, a stale read, a refusal and a wait change nothing.
pub fn calm_turn_keeps<M>()
    ensures { (m : Moment M) (n : ℕ) (c d : Core M) → IsStanding m → m.state.power ≡ Power.On
        → core_in m n ≡ c → next_core m n c ≡ d → is_calm c d ≡ true → StandsIn (stepped m n) }
{}

/// An outside read pins the slot of the version that is chosen.
pub fn read_keeps<M>()
    ensures { (m : Moment M) (n copied : ℕ) (a b : Attempt M) (r : Read)
        → IsStanding m → m.state.power ≡ Power.On → core_in m n ≡ Core.Running a
        → next_core m n (Core.Running a) ≡ Core.Copying b copied → b.reads ≡ r ∷ a.reads
        → (let chosen = chosen_held (reads_in m a.start a.reads).hi (m.kept.chains r.object) in
        let pins = put_at n (slot_in chosen) m.kept.pins in
        StandsIn (record (stepped m n) { kept = record m.kept { pins = pins } })) }
{}

/// A grant chooses the least free slot for each version, and remembers them until the commit ends.
pub fn grant_keeps<M>()
    ensures { (m : Moment M) (n left : ℕ) (a : Attempt M) (outcome : Outcome) (i : FinishRecord)
        → IsStanding m → m.state.power ≡ Power.On → core_in m n ≡ Core.Ready a outcome
        → next_core m n (Core.Ready a outcome) ≡ Core.Committing i left
        → StandsIn (record (stepped m n) { kept = planned_in m n }) }
{}

/// A write of a commit puts its word into its slot, if it is an object's.
pub fn write_keeps<M>()
    ensures { (m : Moment M) (n left : ℕ) (i : FinishRecord)
        → IsStanding m → m.state.power ≡ Power.On → core_in m n ≡ Core.Committing i (suc left)
        → StandsIn (record (stepped m n) { image = written_in m i (suc left) }) }
{}

/// The writes of the index, and the last one, put no word into a slot.
pub fn index_write_keeps<M>()
    ensures { (m : Moment M) (n left : ℕ) (i : FinishRecord)
        → IsStanding m → m.state.power ≡ Power.On → core_in m n ≡ Core.Committing i (suc left)
        → suc left ≤ late_in m i → StandsIn (stepped m n) }
{}

/// A finish that joins has its versions in the slots of its plan.
pub fn finish_keeps<M>()
    ensures { (m : Moment M) (n : ℕ) (i : FinishRecord)
        → IsStanding m → m.state.power ≡ Power.On → core_in m n ≡ Core.Committing i 0
        → StandsIn (record (stepped m n) { kept = with_finished (Some i) m.kept }) }
{}

/// A failure leaves the newest versions alone, also that of a finish that it hides.
pub fn failure_keeps<M>()
    ensures { (m : Moment M) → IsStanding m
        → (let found = durable_commit m.state.cores in
        let clock = clock_of m.world.base (with_finish found m.state.history) in
        let after = (event_step m.world m.state Event.Fail).0 in
        let kept = afresh clock (with_finished found m.kept) in
        StandsIn (record m { floor = clock; state = after; kept = kept })) }
{}

/// A turn of a boot changes nothing, the last one neither.
pub fn boot_turn_keeps<M>()
    ensures { (m : Moment M) (n left : ℕ) → IsStanding m → m.state.power ≡ Power.Boot left
        → StandsIn (stepped m n) }
{}

/// While a boot lasts all may be kept anew, as a table begins after it.
pub fn boot_begins_afresh<M>()
    ensures { (m : Moment M) (left : ℕ) → IsStanding m → m.state.power ≡ Power.Boot left
        → StandsIn (begun_afresh m) }
{}
