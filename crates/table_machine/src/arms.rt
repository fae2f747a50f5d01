//! Tables that are those of a state follow the event machine, by the kind of event: no word of a history is looked at.

ghost use Rattle.std.specs.Prelude.{ℕ, ◌≡◌, suc, zero};
ghost use Rattle.kernel_model.specs.Effects.{Outcome};
ghost use Rattle.kernel_model.specs.Items.{FinishRecord};
ghost use Rattle.kernel_model.specs.Cores.{Attempt, Core};
ghost use Rattle.kernel_model.specs.Events.{Event, Power};
ghost use Rattle.device_model.specs.Keeping.{KeepsIn};
ghost use Rattle.table_machine.specs.Represents.{Ghost, held_of};
ghost use Rattle.table_machine.specs.Simulates.{fresh_ghost};
ghost use Rattle.table_machine.specs.Configurations.{FollowsCore, FollowsTo, IsFittingAt, IsMoment, Moment, core_at};

/// A core that holds no task begins the least open task that no seat holds, at the clock.
pub fn start_follows<M>()
    ensures { (m : Moment M) (n : ℕ) → IsMoment m → m.state.power ≡ Power.On
        → core_at m n ≡ Core.Idle → FollowsCore m n }
{}

/// A running core makes one step of its machine; an outside read chooses by the object's chain, or the try is stale.
pub fn run_follows<M>()
    ensures { (m : Moment M) (n : ℕ) (a : Attempt M) → IsMoment m → m.state.power ≡ Power.On
        → core_at m n ≡ Core.Running a → IsFittingAt m n → FollowsCore m n }
{}

/// A copying core takes one word from its slot.
pub fn copy_follows<M>()
    ensures { (m : Moment M) (n copied : ℕ) (a : Attempt M) → IsMoment m → m.state.power ≡ Power.On
        → core_at m n ≡ Core.Copying a copied → IsFittingAt m n → FollowsCore m n }
{}

/// A ready core waits, is refused with its cause, or begins a commit: its point and its slots are those of the tables.
pub fn verdict_follows<M>()
    ensures { (m : Moment M) (n : ℕ) (a : Attempt M) (outcome : Outcome) → IsMoment m
        → m.state.power ≡ Power.On
        → core_at m n ≡ Core.Ready a outcome → IsFittingAt m n → FollowsCore m n }
{}

/// A commit makes one write.
pub fn write_follows<M>()
    ensures { (m : Moment M) (n left : ℕ) (i : FinishRecord) → IsMoment m → m.state.power ≡ Power.On
        → core_at m n ≡ Core.Committing i (suc left) → FollowsCore m n }
{}

/// A finish whose writes are all made joins: chains, bounds, the intervals of the other tries, and the index.
pub fn join_follows<M>()
    ensures { (m : Moment M) (n : ℕ) (i : FinishRecord) → IsMoment m → m.state.power ≡ Power.On
        → core_at m n ≡ Core.Committing i zero → FollowsCore m n }
{}

/// A failure leaves nothing in memory but what is owed.
pub fn failure_follows<M>()
    ensures { (m : Moment M) (after : Ghost) → FollowsTo m Event.Fail after }
{}

/// A turn of a boot, but the last, leaves the tables blank.
pub fn boot_turn_follows<M>()
    ensures { (m : Moment M) (n left : ℕ) → m.state.power ≡ Power.Boot left → (n ≡ 0 → left ≡ 1 → ⊥)
        → FollowsTo m (Event.CoreStep n) m.ghost }
{}

/// The last one makes them of the words that it has read: one version of each object, begun at the clock.
pub fn last_boot_turn_follows<M>()
    ensures { (m : Moment M) → IsMoment m → m.state.power ≡ Power.Boot 1
        → KeepsIn m.setting.set m.setting.layout
        (held_of m.setting m.base m.last m.ghost m.state) m.words
        → FollowsTo m (Event.CoreStep 0) (fresh_ghost m.base m.ghost m.state) }
{}
