// What is worked out once for a schedule: where each item starts, and where power fails.

ghost use Rattle.std.specs.Prelude.{◌≡◌, ◌+◌, ◌<◌, ◌≤◌, ◌^◌, ℕ, IfOk, length, map, slice_get, slice_index, Some};
ghost use Rattle.std.specs.List.{AllByRecursion};
ghost use Rattle.schedule_model.specs.CoreSteps.{core_steps};
ghost use Rattle.schedule_model.specs.Limits.{IsItem, steps_together};
ghost use Rattle.power_trace.specs.Items.{item_of};
ghost use Rattle.power_trace.specs.Indexed.{starts_from, failures_from};

use crate::items::StepItem;
use nv_base::NoMemory;
use std::alloc::Global;

/// An equal list of items. `NoMemory` where it could not be copied.
pub(crate) fn copies_of(alloc: Global, items: &[StepItem]) -> Result<Vec<StepItem>, NoMemory>
    ensures { IfOk result (λ v. v.items ≡ items.now) }
{
    let mut copies = Vec::new(alloc);
    for item in items {
        copies.push(item.copy(alloc)?)?;
    }
    Ok(copies)
}

/// How many steps some items stand for.
pub(crate) fn steps_of(items: &[StepItem]) -> u32
    requires { steps_together (map item_of items.now) < 2 ^ 32 }
    ensures { result ≡ steps_together (map item_of items.now) }
{
    let mut steps = 0;
    for item in items {
        steps += item.step_count();
    }
    steps
}

/// The number of the first step of each item. `NoMemory` where the list could not be made.
pub(crate) fn starts_of(alloc: Global, items: &[StepItem]) -> Result<Vec<u32>, NoMemory>
    requires { steps_together (map item_of items.now) < 2 ^ 32 }
    ensures { IfOk result (λ v. v.items ≡ starts_from 0 (map item_of items.now)) }
{
    let mut starts = Vec::new(alloc);
    let mut start = 0;
    for item in items {
        starts.push(start)?;
        start += item.step_count();
    }
    Ok(starts)
}

/// The number of each failure among the events. `NoMemory` where the list could not be made.
pub(crate) fn failures_of(alloc: Global, on: &[u32], steps: u32) -> Result<Vec<u32>, NoMemory>
    requires { steps + length on.now < 2 ^ 32 }
    ensures { IfOk result (λ v. v.items ≡ failures_from 0 steps on.now) }
{
    let mut failures = Vec::new(alloc);
    let mut at = 0;
    let mut left = steps;
    for time in on {
        if *time > left {
            return Ok(failures);
        }
        let place = at + *time;
        failures.push(place)?;
        at = place + 1;
        left -= *time;
    }
    Ok(failures)
}

/// Which of the rising numbers, from 0 on, is the last one that is at most `step`.
fn last_start(starts: &[u32], step: u32) -> usize
    requires some { 0 < length starts.now }
    requires first { slice_index starts.now 0 ≡ 0 }
    requires rising { (i j : ℕ) → i < j → j < length starts.now
        → slice_index starts.now i < slice_index starts.now j }
    ensures within { result < length starts.now }
    ensures low { slice_index starts.now result ≤ step }
    ensures high { (k : ℕ) → result < k → k < length starts.now → step < slice_index starts.now k }
{
    match starts.binary_search(&step) {
        Ok(item) => item,
        Err(after) => after - 1,
    }
}

/// The core of step `step`: the item that has it is found by halves.
pub(crate) fn core_of_step(cores: u8, items: &[StepItem], starts: &[u32], step: u32) -> u8
    requires some_core { 1 ≤ cores }
    requires proper { AllByRecursion (IsItem cores) (map item_of items.now) }
    requires same { length starts.now ≡ length items.now }
    requires started { starts.now ≡ starts_from 0 (map item_of items.now) }
    requires within { step < steps_together (map item_of items.now) }
    ensures { slice_get (core_steps cores (map item_of items.now)) step ≡ Some result }
{
    let item = last_start(starts, step);
    items[item].core_at(cores, step - starts[item])
}
