// The events behind those steps that are worked out already.

ghost use Rattle.std.specs.Prelude.{ℕ, ◌≡◌, ◌-◌, ◌≤◌, ◌<◌, ◌↔◌, ◌++◌, [], IsTrue, map, option_map, Some};
ghost use Rattle.std.specs.Iterator.{YieldsFirstBy};
ghost use Rattle.kernel_model.specs.Events.{CoreStep};
ghost use Rattle.schedule_model.specs.CoreSteps.{core_steps};
ghost use Rattle.schedule_model.specs.Failures.{with_failures};
ghost use Rattle.power_trace.specs.Items.{item_of};
ghost use Rattle.power_trace.specs.DueTimes.{due_times};
ghost use Rattle.power_trace.specs.Events.{event_if, event_of};

use crate::ahead::Ahead;
use crate::core_steps::CoreSteps;
use crate::items::StepItem;
use nv_base::CoreId;
use std::marker::Model;

/// What comes next.
#[derive(Clone, Copy, Debug)]
pub(crate) enum Next {
    /// A core takes one step.
    Core(CoreId),
    /// Power fails.
    Fail,
    /// No event is left.
    End,
}

/// Steps, and the failures of power among them, which contracts see as the list of events.
#[derive(Debug, Drop)]
pub(crate) struct Remaining<'a> {
    steps: CoreSteps<'a>,
    // how many of the steps come before the next failure, if there is an on-time left
    due: Option<u32>,
    // the on-times after that failure
    later: &'a [u32],
}

impl<'a> Model for Remaining<'a> {
    ghost use Rattle.std.specs.Prelude.{List};
    ghost use Rattle.kernel_model.specs.Events.{Event};
    ghost use Rattle.schedule_model.specs.Failures.{with_failures};
    ghost use Rattle.power_trace.specs.DueTimes.{due_times};

    ghost Value = { List Event };

    ghost view = { λ a. with_failures (due_times a.due a.later.now) a.steps };
}

impl<'a> Remaining<'a> {
    /// The events of these items and on-times.
    pub(crate) fn new(cores: u8, items: &'a [StepItem], on: &'a [u32]) -> Remaining<'a>
        requires { 1 ≤ cores }
        ensures { result ≡ with_failures on.entry.now
            (core_steps cores (map item_of items.entry.now)) }
    {
        let (due, later) = first_due(on);
        Remaining {
            steps: CoreSteps::new(cores, items),
            due,
            later,
        }
    }

    /// The next event: a failure, or the first of steps that are worked out now, up to the next failure.
    #[cold]
    #[inline(never)]
    pub(crate) fn next_event(&mut self, ahead: &mut Ahead) -> Next
        requires { ahead.old ≡ [] }
        ensures { YieldsFirstBy event_of (λ events. events)
            self.old (event_if result) (map CoreStep ahead.new ++ self.new) }
    {
        if is_due(self.due) {
            let (due, later) = first_due(self.later);
            self.due = due;
            self.later = later;
            return Next::Fail;
        }
        let count = ahead.fill(&mut self.steps, most_before(self.due));
        self.due = due_after(self.due, count);
        match ahead.next_core() {
            Some(core) => Next::Core(CoreId(core)),
            None => Next::End,
        }
    }
}

// The first on-time, and those after it.
#[inline(always)]
fn first_due(on: &[u32]) -> (Option<u32>, &[u32])
    ensures { due_times result.0 result.1.now ≡ on.now }
{
    match on.split_first() {
        Some((due, later)) => (Some(*due), later),
        None => (None, on),
    }
}

#[inline(always)]
fn is_due(due: Option<u32>) -> bool
    ensures { IsTrue result ↔ (due ≡ Some 0) }
{
    due == Some(0)
}

// How many steps there may be before the next failure.
fn most_before(due: Option<u32>) -> u32
    requires { due ≡ Some 0 → ⊥ }
    ensures some { 0 < result }
    ensures before { (n : ℕ) → due ≡ Some n → result ≡ n }
{
    match due {
        Some(steps) => steps,
        None => u32::MAX,
    }
}

// How many steps are left to the next failure after so many more.
fn due_after(due: Option<u32>, count: u32) -> Option<u32>
    ensures { result ≡ option_map (λ steps. steps - count) due }
{
    due.map(|steps| steps.saturating_sub(count))
}
