// The events of a schedule in order.

ghost use Rattle.std.specs.Prelude.{◌≡◌, ◌≤◌, map};
ghost use Rattle.std.specs.Iterator.{YieldsFirstBy, item_count};
ghost use Rattle.schedule_model.specs.CoreSteps.{core_steps};
ghost use Rattle.schedule_model.specs.Failures.{with_failures};
ghost use Rattle.power_trace.specs.Items.{item_of};
ghost use Rattle.power_trace.specs.Events.{event_of};

use crate::ahead::Ahead;
use crate::event::Event;
use crate::items::StepItem;
use crate::remaining::{Next, Remaining};
use nv_base::CoreId;
use std::marker::Model;

/// The events that are left of a schedule, which contracts see as the list of them.
#[derive(Debug, Drop)]
pub struct Events<'a> {
    // the next steps
    ahead: Ahead,
    // all behind them
    behind: Remaining<'a>,
}

impl<'a> Model for Events<'a> {
    ghost use Rattle.std.specs.Prelude.{List, ◌++◌, map};
    ghost use Rattle.kernel_model.specs.Events.{Event, CoreStep};

    ghost Value = { List Event };

    ghost view = { λ a. map CoreStep a.ahead ++ a.behind };
}

impl<'a> Events<'a> {
    // The events of these items and on-times.
    pub(crate) fn new(cores: u8, items: &'a [StepItem], on: &'a [u32]) -> Events<'a>
        requires { 1 ≤ cores }
        ensures { result ≡ with_failures on.entry.now
            (core_steps cores (map item_of items.entry.now)) }
    {
        Events {
            ahead: Ahead::new(),
            behind: Remaining::new(cores, items, on),
        }
    }

    #[inline(always)]
    fn next_event(&mut self) -> Option<Event>
        ensures { YieldsFirstBy event_of (λ events. events) self.old result self.new }
    {
        if let Some(core) = self.ahead.next_core() {
            return Some(Event::Core(CoreId(core)));
        }
        match self.behind.next_event(&mut self.ahead) {
            Next::Core(core) => Some(Event::Core(core)),
            Next::Fail => Some(Event::Fail),
            Next::End => None,
        }
    }
}

impl<'a> Iterator for Events<'a> {
    type Item = Event;

    ghost next_gives = { YieldsFirstBy event_of (λ events. events) };

    ghost remaining = { item_count (λ events. events) };

    /// The next event: a look at the steps that are worked out ahead, up to 64 of them at once, and no search.
    #[inline(always)]
    fn next(&mut self) -> Option<Event> {
        self.next_event()
    }
}
