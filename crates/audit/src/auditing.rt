//! The audit of a report.

ghost use Rattle.std.specs.Prelude.{◌≡◌, ◌≤◌, IfOk, length, map};
ghost use Rattle.set_model.specs.Views.{entry_of};
ghost use Rattle.task_model.specs.Finals.{state_of};
ghost use Rattle.task_model.specs.Shape.{HasShape};
ghost use Rattle.audit.specs.Differences.{IsFirstDifference, entries_of, wrong_state};
ghost use Rattle.audit.specs.Answers.{Audits, Means};

use crate::answers::{Agreed, AuditRefusal};
use crate::laws::{no_difference_is_serial, serial_has_no_difference};
use crate::lines::{wrong_first, wrong_number, wrong_object, wrong_task};
use kernel_model::entries::{next_place_is_new, wrong_entry_has_no_finish};
use nv_base::limits::MAX_INPUT;
use nv_base::{Entry, NoMemory};
use report::Report;
use std::alloc::Global;
use task_model::{Final, MAX_FINISHES, Replayed, replay_listing};
use task_set::TaskSet;

// The entries of a listing, without their lines.
fn entries_of(alloc: Global, listing: &[(u32, Entry)]) -> Result<Vec<Entry>, NoMemory>
    ensures { IfOk result (λ es. es.items ≡ map (λ p. p.1) listing.now) }
{
    let mut entries = Vec::with_capacity(alloc, listing.len())?;
    for (_, entry) in listing {
        entries.push(*entry)?;
    }
    Ok(entries)
}

// The first line of a report's end that does not tell this state.
fn wrong_state(report: &Report, end: &Final) -> Option<u32>
    requires end { report.now.end_line ≤ MAX_INPUT }
    requires tasks { length report.now.state.tasks ≤ MAX_INPUT }
    requires number { length report.now.state.objects ≡ length end.now.objects }
    ensures { result ≡ wrong_state report.now (state_of end.now) }
{
    if report.clock.0 != end.clock.0
        || report.number.0 != end.number.0
        || report.next.0 != end.next.0
    {
        return Some(report.end_line);
    }
    let line = report.end_line + 1;
    if let Some(wrong) = wrong_object(line, &report.objects, &end.objects) {
        return Some(wrong);
    }
    let line = line + report.objects.len() as u32;
    wrong_task(line, report.tasks.as_slice(), end.tasks.as_slice())
}

// The line at which a report first differs, if it does.
fn first_difference(alloc: Global, set: &TaskSet, report: &Report) -> Result<Option<u32>, NoMemory>
    requires few { length report.now.listing ≤ MAX_FINISHES }
    requires shape { HasShape set.now report.now.state.objects }
    requires end { report.now.end_line ≤ MAX_INPUT }
    requires tasks { length report.now.state.tasks ≤ MAX_INPUT }
    ensures { IfOk result (IsFirstDifference set.now report.now) }
{
    wrong_entry_has_no_finish();
    next_place_is_new();
    let listing = report.listing.as_slice();
    if let Some(line) = wrong_number(listing) {
        return Ok(Some(line));
    }
    let entries = entries_of(alloc, listing)?;
    match replay_listing(alloc, set, entries.as_slice())? {
        Replayed::Wrong(place) => Ok(Some(listing[place as usize].0)),
        Replayed::Good(end, spawned) => {
            let next = set.tasks().len() as u32 + 1;
            if let Some(line) = wrong_first(next, listing, spawned.as_slice()) {
                return Ok(Some(line));
            }
            Ok(wrong_state(report, &end))
        }
    }
}

/// Runs the finishes that a report lists whole, one after another in serial order, from the state that a format of the
/// set leaves, and compares: `Agreed` with how many there are, exactly where the listing is serial and leaves what the
/// report tells. Else `Differs` with the first line at which a check fails, in this order: each finish has the number
/// after the one before it; in serial order each one's task is open and ends as the report says; each names the next
/// id as that of its first child; the `end` line; the object lines; the open lines, where a missing one is told at the
/// `done` line. The count of boots is not compared. `NoMemory` where there is too little.
pub fn audit(alloc: Global, set: &TaskSet, report: &Report) -> Result<Agreed, AuditRefusal>
    requires few { length report.now.listing ≤ MAX_FINISHES }
    requires shape { HasShape set.now report.now.state.objects }
    requires end { report.now.end_line ≤ MAX_INPUT }
    requires tasks { length report.now.state.tasks ≤ MAX_INPUT }
    ensures exact { Audits set.now report.now result }
    ensures serial { Means set.now report.now result }
{
    no_difference_is_serial();
    serial_has_no_difference();
    match first_difference(alloc, set, report)? {
        Some(line) => Err(AuditRefusal::Differs(line)),
        None => Ok(Agreed(report.listing.as_slice().len() as u32)),
    }
}
