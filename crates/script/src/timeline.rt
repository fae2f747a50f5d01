//! The lines of the schedule.

ghost use Rattle.std.specs.Prelude.{◌≡◌, ◌++◌, replicate, IfOk, OnOk};
ghost use Rattle.std.specs.List.{flat_map};
ghost use Rattle.plain_text.specs.Left.{words_left};
ghost use Rattle.schedule_model.specs.Limits.{IsSchedule};
ghost use Rattle.nv_base.specs.Refusals.{Leaves};
ghost use Rattle.script.specs.Parts.{no_events};
ghost use Rattle.script.specs.ScheduleLines.{mix_after, power_after, steps_after};

use crate::items::{OnTimes, all_on_times, all_steps, on_time_total, step_total};
use crate::refusals::{LineRefusal, ScriptCause};
use crate::words::{number, two};
use nv_base::NoMemory;
use nv_base::limits::MAX_EVENTS;
use plain_text::Words;
use power_trace::{Schedule, StepItem};
use std::alloc::{AllocError, Global};
use std::marker::Model;

/// The most events that a script may have: core steps, and on-times.
const MOST_EVENTS: u64 = MAX_EVENTS as u64;

/// Which core steps and on-times the lines give so far.
#[derive(Debug, Drop)]
pub(crate) struct Timeline {
    items: Vec<StepItem>,
    on_times: Vec<u32>,
    // for how many core steps the items stand, and how many on-times there are
    count: u32,
}

impl Model for Timeline {
    ghost use Rattle.std.specs.Prelude.{map, ◌≡◌, ◌≤◌};
    ghost use Rattle.nv_base.specs.declared.limits.TheConstants.{MAX_EVENTS};
    ghost use Rattle.power_trace.specs.Items.{item_of};
    ghost use Rattle.script.specs.Parts as parts;
    ghost use Rattle.script.specs.Parts.{event_count};

    ghost Value = { parts.Timeline };

    ghost view = { λ a. record { items = map item_of a.items.items; on_times = a.on_times.items } };

    ghost invariant = { λ a. (a.count ≡ event_count (record { items = map item_of a.items.items; on_times = a.on_times.items })) × (a.count ≤ MAX_EVENTS) };
}

/// Adds an on-time as often as it comes.
fn push_times(list: &mut Vec<u32>, on: OnTimes) -> Result<(), AllocError>
    ensures { OnOk result (list.new.items ≡ list.old.items ++ replicate on.times on.time) }
{
    list.resize(list.len() + on.times as usize, on.time)
}

/// The on-times, each as often as it comes.
#[tactic(auto, using(crate::proofs::Counts::times_more, crate::proofs::Counts::times_all))]
fn one_by_one(alloc: Global, all: &[OnTimes]) -> Result<Vec<u32>, AllocError>
    ensures { IfOk result (λ list. list.items
        ≡ flat_map (λ on. replicate on.times on.time) all.now) }
{
    let mut list = Vec::new(alloc);
    for on in all {
        push_times(&mut list, *on)?;
    }
    Ok(list)
}

impl Timeline {
    /// No events yet.
    pub(crate) fn new(alloc: Global) -> Timeline
        ensures { result ≡ no_events }
    {
        Timeline {
            items: Vec::new(alloc),
            on_times: Vec::new(alloc),
            count: 0,
        }
    }

    /// `power ITEM ..`.
    #[tactic(auto, unfolding(crate::specs::ScheduleLines::power_after))]
    pub(crate) fn take_power(&mut self, alloc: Global, words: Words<'_>) -> Result<(), LineRefusal>
        ensures { Leaves self.new result (power_after self.old (words_left words.entry)) }
    {
        if words.word_count() == 0 {
            return Err(LineRefusal::At(ScriptCause::Count));
        }
        let all = all_on_times(alloc, words)?;
        let count = on_time_total(self.count, &all);
        if MOST_EVENTS < count {
            return Err(LineRefusal::At(ScriptCause::Many));
        }
        let mut on_times = one_by_one(alloc, &all)?;
        self.on_times.append(&mut on_times)?;
        self.count = count as u32;
        Ok(())
    }

    /// `steps ITEM ..`.
    #[tactic(auto, unfolding(crate::specs::ScheduleLines::steps_after))]
    pub(crate) fn take_steps(
        &mut self,
        alloc: Global,
        cores: u8,
        words: Words<'_>,
    ) -> Result<(), LineRefusal>
        ensures { Leaves self.new result (steps_after cores self.old (words_left words.entry)) }
    {
        if words.word_count() == 0 {
            return Err(LineRefusal::At(ScriptCause::Count));
        }
        let mut items = all_steps(alloc, cores, words)?;
        let count = step_total(self.count, &items);
        if MOST_EVENTS < count {
            return Err(LineRefusal::At(ScriptCause::Many));
        }
        self.items.append(&mut items)?;
        self.count = count as u32;
        Ok(())
    }

    /// `mix SEED COUNT`.
    #[tactic(auto, unfolding(crate::specs::ScheduleLines::mix_after))]
    pub(crate) fn take_mix(&mut self, words: Words<'_>) -> Result<(), LineRefusal>
        ensures { Leaves self.new result (mix_after self.old (words_left words.entry)) }
    {
        let (seed_word, count_word) = two(words)?;
        let seed = number(0, u32::MAX, seed_word)?;
        let count = number(1, MAX_EVENTS, count_word)?;
        let total = self.count + count;
        if MOST_EVENTS < u64::from(total) {
            return Err(LineRefusal::At(ScriptCause::Many));
        }
        self.items.push(StepItem::Mix { seed, count })?;
        self.count = total;
        Ok(())
    }

    /// The schedule on so many cores. `NoMemory` where it could not be kept.
    pub(crate) fn schedule(self, alloc: Global, cores: u8) -> Result<Schedule, NoMemory>
        requires { let on_times = self.on_times in
            IsSchedule (record { cores = cores; items = self.items; on_times = on_times }) }
        ensures { IfOk result (λ s. s
            ≡ record { cores = cores; items = self.items; on_times = self.on_times }) }
    {
        Schedule::of_lists(alloc, cores, self.items, self.on_times)
    }
}
