//! The slots that the durable index names, through writes, failures and boots.

ghost use Rattle.std.specs.Prelude.{ℕ, ◌≡◌, ◌<◌, [], Some, None, is_some, suc, if◌then◌else◌};
ghost use Rattle.kernel_model.specs.Cores.{Core};
ghost use Rattle.kernel_model.specs.Durable.{flipped_by};
ghost use Rattle.kernel_model.specs.Effects.{written};
ghost use Rattle.kernel_model.specs.Events.{Event, Power};
ghost use Rattle.kernel_model.specs.Items.{FinishRecord};
ghost use Rattle.kernel_model.specs.Replay.{DeviceState};
ghost use Rattle.kernel_model.specs.Sizes.{Sizes};
ghost use Rattle.slot_model.specs.Changes.{afresh, first_kept, named_slot};
ghost use Rattle.slot_model.specs.Tabled.{AreTables, fresh_tables};
ghost use Rattle.slot_model.specs.Moments.{Moment, AreTablesIn, IsLawfulIn, IsNamedIn, IsStanding, after_event, begun_afresh, core_in, durable_tables, named_in, newest_in};

/// The slots that the durable index names have the words of the durable objects.
pub fn named_slots_hold<M>()
    ensures { (m : Moment M) (o : ℕ) → IsStanding m → o < m.world.sizes.objects → IsNamedIn m o }
{}

/// An event that makes no last write of a commit names the same slots.
pub fn named_slots_stay<M>()
    ensures { (m : Moment M) (e : Event) (o : ℕ) → IsLawfulIn m → flipped_by m.state e ≡ None
        → named_in (after_event m e) o ≡ named_in m o }
{}

/// While a commit has writes left the newest slots are named.
pub fn commit_names_newest<M>()
    ensures { (m : Moment M) (n left o : ℕ) (i : FinishRecord)
        → IsLawfulIn m → core_in m n ≡ Core.Committing i (suc left) → named_in m o ≡ newest_in m o }
{}

/// The last write of a commit names the slots of its plan for what it writes, and before it the old ones are named.
pub fn last_write_names_plan<M>()
    ensures { (m : Moment M) (e : Event) (i : FinishRecord) (o : ℕ)
        → IsLawfulIn m → flipped_by m.state e ≡ Some i
        → (named_in m o ≡ newest_in m o) × (named_in (after_event m e) o
        ≡ (if is_some (written i.run.writes o) then m.kept.plan o else newest_in m o)) }
{}

/// What is kept anew while a boot lasts names the same slots.
pub fn afresh_names_same<M>()
    ensures { (m : Moment M) (left clock o : ℕ) → IsLawfulIn m → m.state.power ≡ Power.Boot left
        → named_slot m.state (afresh clock m.kept) o ≡ named_in m o }
{}

/// While a boot lasts, the tables that begin with what the durable index says are those of what is kept anew.
pub fn tables_begin_at_boot<M>()
    ensures { (m : Moment M) (left : ℕ) → IsStanding m → m.state.power ≡ Power.Boot left
        → AreTablesIn (begun_afresh m) (durable_tables m) }
{}

/// So are those at first.
pub fn first_tables()
    ensures { (sizes : Sizes) (base : DeviceState) (named : ℕ → ℕ)
        → AreTables sizes base base.clock [] (first_kept base named) (fresh_tables named base) }
{}
