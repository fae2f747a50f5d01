//! Worked schedules, computed: where power fails, and which core takes each step.

ghost use Rattle.schedule_model.specs.Worked.{DrawnSteps, FailureAtTheEnd, FailuresAtOnce, IncreasingFailures, LateOnTimes, NoSteps, SequenceTwice};

/// On-times among the steps, and more of them than steps.
pub fn failures_among_steps()
    ensures { IncreasingFailures × LateOnTimes × FailuresAtOnce }
{}

/// On-times where the steps end, and where there are none.
pub fn failures_at_the_end()
    ensures { NoSteps × FailureAtTheEnd }
{}

/// Sequences of cores, and drawn steps.
pub fn core_steps_of_items()
    ensures { SequenceTwice × DrawnSteps }
{}
