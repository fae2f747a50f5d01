//! Laws of schedules: failures keep the core steps, which on-times end, and how many events there are.

ghost use Rattle.std.specs.Prelude.{ℕ, List, [], ◌≡◌, ◌+◌, ◌<◌, ◌≤◌, ◌↔◌, map, length, slice_get, sum, take, Some};
ghost use Rattle.std.specs.List.{AllByRecursion};
ghost use Rattle.kernel_model.specs.Events.{Event, CoreStep};
ghost use Rattle.schedule_model.specs.Schedules.{StepItem, Schedule};
ghost use Rattle.schedule_model.specs.CoreSteps.{core_steps};
ghost use Rattle.schedule_model.specs.Failures.{with_failures, events_of};
ghost use Rattle.schedule_model.specs.Limits.{IsItem, IsSchedule, steps_together};
ghost use Rattle.schedule_model.specs.Parts.{cores_stepped, failure_count, IsOfCores};

use nv_base::limits::MAX_EVENTS;

/// Failures change neither the core steps nor their order.
pub fn failures_keep_core_steps()
    ensures { (on_times steps : List ℕ) → cores_stepped (with_failures on_times steps) ≡ steps }
{}

/// Power fails after an on-time exactly where it and those before add up to no more than the steps.
pub fn failures_are_on_times_in_reach()
    ensures { (on_times steps : List ℕ) (k : ℕ) → k < length on_times
        → (k < failure_count (with_failures on_times steps)) ↔ (sum (take (k + 1) on_times)
        ≤ length steps) }
{}

/// No on-time, no failure; and never more failures than on-times.
pub fn failures_are_few()
    ensures none { (steps : List ℕ) → with_failures [] steps ≡ map CoreStep steps }
    ensures few { (on_times steps : List ℕ)
        → failure_count (with_failures on_times steps) ≤ length on_times }
{}

/// There are as many events as core steps and failures.
pub fn events_are_steps_and_failures()
    ensures { (on_times steps : List ℕ)
        → length (with_failures on_times steps)
        ≡ length steps + failure_count (with_failures on_times steps) }
{}

/// The items' counts add up to the number of core steps.
pub fn core_steps_are_counted()
    ensures { (cores : ℕ) (items : List StepItem)
        → length (core_steps cores items) ≡ steps_together items }
{}

/// Within the limits each event is a failure or a step of one of the cores.
pub fn each_event_is_of_cores()
    ensures { (s : Schedule) (n : ℕ) (event : Event) → IsSchedule s
        → slice_get (events_of s) n ≡ Some event → IsOfCores s.cores event }
{}

/// Within the limits there are at most 1,000,000 events, and each core step is of one of the cores.
pub fn events_are_within_limits()
    ensures short { (s : Schedule) → IsSchedule s → length (events_of s) ≤ MAX_EVENTS }
    ensures cores { (s : Schedule) → IsSchedule s
        → AllByRecursion (λ core. core < s.cores) (cores_stepped (events_of s)) }
{}
