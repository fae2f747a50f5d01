//! Worked runs, computed on the definitions.

ghost use Rattle.sim_run.specs.Rows.{SmallestRuns, TrappedRun};

/// The smallest run with 40, 31, 30 and 29 steps: what is printed, and the state that is left.
pub fn smallest_runs()
    ensures { SmallestRuns }
{}

/// A task that traps finishes with nothing written.
pub fn trapped_run()
    ensures { TrappedRun }
{}
