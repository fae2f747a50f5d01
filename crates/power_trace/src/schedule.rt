// A schedule, and its events by number.

ghost use Rattle.std.specs.Prelude.{◌≡◌, ◌<◌, ◌≤◌, IfOk, length, option_map, slice_get, Some};
ghost use Rattle.schedule_model.specs.Failures.{events_of};
ghost use Rattle.schedule_model.specs.Limits.{IsSchedule};
ghost use Rattle.schedule_model.specs.Parts.{IsOfCores, failure_count};
ghost use Rattle.power_trace.specs.Items.{schedule_of};
ghost use Rattle.power_trace.specs.Events.{event_of};

use crate::event::Event;
use crate::events::Events;
use crate::index;
use crate::items::StepItem;
use nv_base::{CoreId, NoMemory};
use std::alloc::Global;
use std::marker::Model;

/// Which core takes each step, and where power fails. Contracts see a schedule as its number of cores, its items
/// and its on-times.
#[derive(Debug, Drop)]
pub struct Schedule {
    cores: u8,
    items: Vec<StepItem>,
    on_times: Vec<u32>,
    // how many steps the items stand for
    steps: u32,
    // the number of the first step of each item
    starts: Vec<u32>,
    // the number of each failure among the events
    failures: Vec<u32>,
}

impl Model for Schedule {
    ghost use Rattle.schedule_model.specs.Schedules as model;
    ghost use Rattle.power_trace.specs.Items.{schedule_of};
    ghost use Rattle.power_trace.specs.Indexed.{IsIndexed};

    ghost Value = { model.Schedule };

    ghost view = { λ a. schedule_of a.cores a.items.items a.on_times.items };

    ghost invariant = { λ a. IsIndexed (schedule_of a.cores a.items.items a.on_times.items) a.steps a.starts.items a.failures.items };
}

impl Schedule {
    /// The schedule of these items on so many cores, with power that fails after each of the on-times, which are
    /// numbers of core steps. It keeps the lists. `NoMemory` where there was none for what is worked out once.
    pub fn of_lists(
        alloc: Global,
        cores: u8,
        items: Vec<StepItem>,
        on_times: Vec<u32>,
    ) -> Result<Schedule, NoMemory>
        requires { IsSchedule (schedule_of cores items.items on_times.items) }
        ensures { IfOk result (λ s. s ≡ schedule_of cores items.items on_times.items) }
    {
        let steps = index::steps_of(&items);
        let starts = index::starts_of(alloc, &items)?;
        let failures = index::failures_of(alloc, &on_times, steps)?;
        Ok(Schedule {
            cores,
            items,
            on_times,
            steps,
            starts,
            failures,
        })
    }

    /// The same of lists that are lent: it keeps copies of them.
    pub fn of(
        alloc: Global,
        cores: u8,
        items: &[StepItem],
        on: &[u32],
    ) -> Result<Schedule, NoMemory>
        requires { IsSchedule (schedule_of cores items.now on.now) }
        ensures { IfOk result (λ s. s ≡ schedule_of cores items.now on.now) }
    {
        let copies = index::copies_of(alloc, items)?;
        let on_times = Vec::from_slice(alloc, on)?;
        Schedule::of_lists(alloc, cores, copies, on_times)
    }

    /// How many events there are.
    pub fn len(&self) -> u32
        ensures count { result ≡ length (events_of self.now) }
        ensures proper { IsSchedule self.now }
    {
        self.steps + self.failures.len() as u32
    }

    /// How many failures of power are among the events.
    pub fn failures(&self) -> u32
        ensures { result ≡ failure_count (events_of self.now) }
    {
        self.failures.len() as u32
    }

    /// Event `n`, counted from 0.
    pub fn event(&self, n: u32) -> Event
        requires { n < length (events_of self.now) }
        ensures event { slice_get (events_of self.now) n ≡ Some (event_of result) }
        ensures cores { IsOfCores self.now.cores (event_of result) }
    {
        match self.failures.binary_search(&n) {
            Ok(_) => Event::Fail,
            Err(failed) => {
                let step = n - failed as u32;
                Event::Core(CoreId(index::core_of_step(
                    self.cores,
                    &self.items,
                    &self.starts,
                    step,
                )))
            }
        }
    }

    /// All events in order.
    pub fn events(&self) -> Events<'_>
        ensures { result ≡ events_of self.entry.now }
    {
        Events::new(self.cores, &self.items, &self.on_times)
    }
}
