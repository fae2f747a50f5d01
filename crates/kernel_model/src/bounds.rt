//! The bounds that a table keeps of who touched each object, in place of the listing.

ghost use Rattle.std.specs.Prelude.{ℕ, ◌≡◌, ◌≤◌, ◌∷◌, List, Option, get_or};
ghost use Rattle.kernel_model.specs.Effects.{Outcome, Run, written};
ghost use Rattle.kernel_model.specs.Items.{FinishRecord};
ghost use Rattle.kernel_model.specs.Replay.{DeviceState, clock_of};
ghost use Rattle.kernel_model.specs.Worlds.{World};
ghost use Rattle.kernel_model.specs.Versions.{Read};
ghost use Rattle.kernel_model.specs.Intervals.{finish_interval, read_interval};
ghost use Rattle.kernel_model.specs.Cores.{Attempt, Core, run_of};
ghost use Rattle.kernel_model.specs.Events.{Event, State, event_step};
ghost use Rattle.kernel_model.specs.Sound.{IsSound};
ghost use Rattle.kernel_model.specs.Chain.{IsFloor, joining};
ghost use Rattle.kernel_model.specs.Bounds.{bound_of, raised_by, with_touch};

/// At a boot each bound is the clock.
pub fn bound_begins_at_clock()
    ensures { (base : DeviceState) (history : List FinishRecord) (o : ℕ)
        → bound_of (clock_of base history) o history ≡ clock_of base history }
{}

/// A finish raises the bounds of what it read or wrote to its point.
pub fn finish_raises_bounds()
    ensures { (floor o : ℕ) (i : FinishRecord) (history : List FinishRecord)
        → bound_of floor o (i ∷ history) ≡ with_touch (Option.Some i) o (bound_of floor o history) }
{}

/// A bound changes by the finish that joins at an event, if one does, and else stays.
pub fn bound_goes_on<M>()
    ensures { (world : World M) (s : State M) (floor o : ℕ) (e : Event)
        → bound_of floor o (event_step world s e).0.history
        ≡ with_touch (joining s e) o (bound_of floor o s.history) }
{}

/// The bounds give the interval of a finish whose attempt began at the floor or later.
pub fn bounds_give_interval()
    ensures { (base : DeviceState) (history : List FinishRecord) (floor start : ℕ)
        → (reads : List Read) (run : Run)
        → floor ≤ start
        → (let before = read_interval base history start reads in
        raised_by (λ o. bound_of floor o history) run.writes before
        ≡ finish_interval base history start reads run) }
{}

/// So they give it of each ready attempt, also after a boot.
pub fn bounds_give_ready_interval<M>()
    ensures { (base : DeviceState) (s : State M) (floor k : ℕ) (a : Attempt M) (outcome : Outcome)
        → IsFloor base floor s → get_or s.cores k Core.Idle ≡ Core.Ready a outcome
        → (let run = run_of a outcome in
        raised_by (λ o. bound_of floor o s.history) run.writes
        (read_interval base s.history a.start a.reads)
        ≡ finish_interval base s.history a.start a.reads run) }
{}

/// The point of a finish that commits is at least the bound of each object that it writes.
pub fn commit_is_above_bounds<M>()
    ensures { (world : World M) (s : State M) (floor k left o : ℕ) (i : FinishRecord)
        → (words : List ℕ)
        → IsSound world s → IsFloor world.base floor s
        → get_or s.cores k Core.Idle ≡ Core.Committing i left
        → written i.run.writes o ≡ Option.Some words → bound_of floor o s.history ≤ i.point }
{}
