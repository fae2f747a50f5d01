//! Worked runs of tasks of a few instructions, computed: which lines are printed, and what is durable after.

ghost use Rattle.std.specs.Prelude.{ℕ, List};
ghost use Rattle.kernel_model.specs.Sizes.{Sizes};
ghost use Rattle.kernel_model.specs.Fit.{IsMachine, IsSetUp};
ghost use Rattle.kernel_model.specs.WorkedTasks.{Op, toy, world_of};
ghost use Rattle.kernel_model.specs.WorkedRuns.{BlindWriters, CappedChild, CountedIndex, CutCommit, DoomedCopy, FailureOnTwoCores, FailuresInBoot, FoundFinish, FuelIsSpent, JoinedCalls, NinthSpawn, NoRecords, NoSlot, OlderVersion, OrderedByPoint, PartsOnTwoCores, ResumedLater, ResumedRun, SmallestRun, TakenId, WriteSkew, adding, copy_and_put, resumed_later};

/// One task on one core.
pub fn smallest_run()
    ensures { SmallestRun }
{}

/// Failures before and after the last write of a commit, inside a boot, and with two cores.
pub fn failures_of_power()
    ensures { CutCommit × FoundFinish × FailuresInBoot × FailureOnTwoCores }
{}

/// Several cores: the order by point, write skew, blind writers, an older version, writes of two parts of one object.
pub fn several_cores()
    ensures { OrderedByPoint × WriteSkew × BlindWriters × OlderVersion × PartsOnTwoCores }
{}

/// Refusals for want of a slot and of records.
pub fn refusals_for_room()
    ensures { NoSlot × DoomedCopy × NoRecords }
{}

/// A commit takes as many turns as its writes and those of the index, which may change with the open tasks and with what is written.
pub fn commits_take_their_turns()
    ensures { CountedIndex }
{}

/// Traps keep no write and no spawn.
pub fn traps_keep_nothing()
    ensures { FuelIsSpent × NinthSpawn }
{}

/// Children whose ids are taken, or above the greatest one.
pub fn ids_of_children()
    ensures { CappedChild × TakenId }
{}

/// Runs that begin in a boot, from a clock above 0, and from the state that an earlier run left.
pub fn resumed_runs()
    ensures { ResumedRun × ResumedLater × JoinedCalls }
{}

/// The tasks of these runs owe what a machine owes.
pub fn worked_tasks_are_machine()
    ensures { (sizes : Sizes) (program : ℕ → ℕ → List Op) → IsMachine (toy sizes program) sizes }
{}

/// The laws' premises hold of such runs.
pub fn worked_runs_are_set_up()
    ensures { IsSetUp (world_of adding)
        × IsSetUp (world_of copy_and_put)
        × IsSetUp (world_of resumed_later) }
{}
