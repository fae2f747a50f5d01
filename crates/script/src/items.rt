//! The words of the lines of the schedule.

ghost use Rattle.std.specs.Prelude.{◌≡◌, ◌+◌, ◌-◌, ◌^◌, min, nat_lt, map, position, IfOk};
ghost use Rattle.std.specs.List.{list_all};
ghost use Rattle.plain_text.specs.Left.{words_left};
ghost use Rattle.power_trace.specs.Items.{item_of};
ghost use Rattle.schedule_model.specs.Limits.{step_count as steps_of_item, steps_together};
ghost use Rattle.nv_base.specs.Refusals.{Gives};
ghost use Rattle.script.specs.Results.{each};
ghost use Rattle.script.specs.ScheduleLines.{are_times as are, is_star, on_times as on_times_word, on_times_within as times_within, steps as steps_word, steps_within as within, times_together};

use crate::refusals::{LineRefusal, ScriptCause};
use nv_base::limits::MAX_EVENTS;
use plain_text::{Words, is_numeral, value_in};
use power_trace::{CoreList, StepItem};
use std::alloc::{AllocError, Global};

/// An on-time, in core steps, and how often it comes.
#[derive(Clone, Copy, PartialEq, Eq, Debug)]
pub(crate) struct OnTimes {
    pub(crate) time: u32,
    pub(crate) times: u32,
}

fn star_at(word: &[u8]) -> Option<usize>
    ensures { result ≡ position is_star word.now }
{
    word.iter().position(|b| *b == b'*')
}

fn are_times(times: u64) -> bool
    ensures { result ≡ are times }
{
    1 <= times && times <= u64::from(MAX_EVENTS)
}

fn on_times_within(time: Option<u64>, times: Option<u64>) -> Result<OnTimes, LineRefusal>
    ensures { Gives (λ on. on) result (times_within time times) }
{
    let (Some(time), Some(times)) = (time, times) else {
        return Err(LineRefusal::At(ScriptCause::Number));
    };
    if !(time <= u64::from(MAX_EVENTS) && are_times(times)) {
        return Err(LineRefusal::At(ScriptCause::Range));
    }
    Ok(OnTimes {
        time: time as u32,
        times: times as u32,
    })
}

/// `T` or `T*K`.
fn on_times(word: &[u8]) -> Result<OnTimes, LineRefusal>
    ensures { Gives (λ on. on) result (on_times_word word.now) }
{
    match star_at(word) {
        None => on_times_within(value_in(10, 10, word), Some(1)),
        Some(end) => {
            let times = value_in(10, 10, &word[end + 1..]);
            on_times_within(value_in(10, 10, &word[..end]), times)
        }
    }
}

/// The on-times that words write.
pub(crate) fn all_on_times(alloc: Global, words: Words<'_>) -> Result<Vec<OnTimes>, LineRefusal>
    ensures { Gives (λ v. v.items) result (each on_times_word (words_left words.entry)) }
{
    let mut all = Vec::new(alloc);
    for word in words {
        all.push(on_times(word)?)?;
    }
    Ok(all)
}

fn are_cores(cores: u8, digits: &[u8]) -> bool
    ensures { result ≡ list_all (λ d. nat_lt (d - 48) cores) digits.now }
{
    digits.iter().all(|d| d.saturating_sub(b'0') < cores)
}

fn core_list(alloc: Global, digits: &[u8]) -> Result<CoreList, AllocError>
    ensures { IfOk result (λ list. list ≡ map (λ d. d - 48) digits.now) }
{
    let cores: Vec<u8> = digits
        .iter()
        .map(|d| d.saturating_sub(b'0'))
        .collect(alloc)?;
    Ok(CoreList::of(cores))
}

fn steps_within(
    alloc: Global,
    cores: u8,
    digits: &[u8],
    times: Option<u64>,
) -> Result<StepItem, LineRefusal>
    ensures { Gives item_of result (within cores digits.now times) }
{
    let Some(times) = times else {
        return Err(LineRefusal::At(ScriptCause::Number));
    };
    if !is_numeral(10, 32, digits) {
        return Err(LineRefusal::At(ScriptCause::Number));
    }
    if !(are_cores(cores, digits) && are_times(times)) {
        return Err(LineRefusal::At(ScriptCause::Range));
    }
    Ok(StepItem::Steps {
        cores: core_list(alloc, digits)?,
        times: times as u32,
    })
}

/// `CORES` or `CORES*K`.
fn steps(alloc: Global, cores: u8, word: &[u8]) -> Result<StepItem, LineRefusal>
    ensures { Gives item_of result (steps_word cores word.now) }
{
    match star_at(word) {
        None => steps_within(alloc, cores, word, Some(1)),
        Some(end) => {
            let times = value_in(10, 10, &word[end + 1..]);
            steps_within(alloc, cores, &word[..end], times)
        }
    }
}

/// The steps that words write.
pub(crate) fn all_steps(
    alloc: Global,
    cores: u8,
    words: Words<'_>,
) -> Result<Vec<StepItem>, LineRefusal>
    ensures { Gives (λ v. map item_of v.items) result
        (each (steps_word cores) (words_left words.entry)) }
{
    let mut all = Vec::new(alloc);
    for word in words {
        all.push(steps(alloc, cores, word)?)?;
    }
    Ok(all)
}

/// How many steps an item stands for, or the most that the type has.
fn step_count(item: &StepItem) -> u64
    ensures { result ≡ min (steps_of_item (item_of item.now)) (2 ^ 64 - 1) }
{
    match item {
        StepItem::Steps { cores, times } => {
            (cores.as_slice().len() as u64).saturating_mul(u64::from(*times))
        }
        StepItem::Mix { count, .. } => u64::from(*count),
    }
}

/// How many steps items stand for behind others, or the most that the type has.
#[tactic(auto, using(crate::proofs::Counts::steps_more, crate::proofs::Counts::steps_all))]
pub(crate) fn step_total(others: u32, items: &[StepItem]) -> u64
    ensures { result ≡ min (others + steps_together (map item_of items.now)) (2 ^ 64 - 1) }
{
    let mut total = u64::from(others);
    for item in items {
        total = total.saturating_add(step_count(item));
    }
    total
}

/// How many on-times there are behind other events, or the most that the type has.
pub(crate) fn on_time_total(others: u32, all: &[OnTimes]) -> u64
    ensures { result ≡ min (others + times_together all.now) (2 ^ 64 - 1) }
{
    let mut total = u64::from(others);
    for on in all {
        total = total.saturating_add(u64::from(on.times));
    }
    total
}
