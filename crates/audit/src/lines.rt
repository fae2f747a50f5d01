//! The first line of a part of a report that differs.

ghost use Rattle.std.specs.Prelude.{◌≡◌, ◌+◌, ◌*◌, ◌<◌, ◌≤◌, ◌==◌, ◌&&◌, List, length, map, nat_eq};
ghost use Rattle.std.specs.Cmp.Lexicographic.{pointwise};
ghost use Rattle.kernel_model.specs.EntryReplay.{Rerun};
ghost use Rattle.set_model.specs.Views.{task_of};
ghost use Rattle.report.specs.Views.{listed_of};
ghost use Rattle.task_model.specs.Finals.{AreSpawnsOf};
ghost use Rattle.audit.specs.Differences.{same_task, unlike_from, wrong_first, wrong_number};

use nv_base::limits::MAX_INPUT;
use nv_base::{Entry, ObjId, TaskRec};
use task_model::{MAX_FINISHES, Objects};

/// The line of the first finish that has not the number after the one before it, from 1 on.
pub(crate) fn wrong_number(listing: &[(u32, Entry)]) -> Option<u32>
    requires { length listing.now ≤ MAX_FINISHES }
    ensures { result ≡ wrong_number 0 (map listed_of listing.now) }
{
    let mut number = 0;
    for (line, entry) in listing {
        number += 1;
        if entry.number.0 != number {
            return Some(*line);
        }
    }
    None
}

/// The line of the first finish that does not name the next id as that of its first child, where this is the next one
/// at the first of them, and each finish spawned so many tasks.
pub(crate) fn wrong_first(first: u32, listing: &[(u32, Entry)], spawned: &[u8]) -> Option<u32>
    requires few { length listing.now ≤ MAX_FINISHES }
    requires small { first ≤ 1025 }
    requires places { length spawned.now ≡ length listing.now }
    ensures { (reruns : List Rerun) → AreSpawnsOf spawned.now reruns
        → result ≡ wrong_first reruns 0 first (map listed_of listing.now) }
{
    let mut next = first;
    for (place, (line, entry)) in listing.iter().enumerate() {
        if entry.first.0 != next {
            return Some(*line);
        }
        next += u32::from(spawned[place]);
    }
    None
}

/// The line of the first object, from this line on, whose words differ.
pub(crate) fn wrong_object(line: u32, told: &Objects, left: &Objects) -> Option<u32>
    requires line { line ≤ MAX_INPUT + 1 }
    requires number { length told.now ≡ length left.now }
    ensures { result ≡ unlike_from (pointwise nat_eq) line told.now left.now }
{
    for object in 0..told.len() {
        let o = ObjId(object as u8);
        if told.get(o) != left.get(o) {
            return Some(line + object as u32);
        }
    }
    None
}

// Whether two tasks are the same.
fn is_same_task(one: &TaskRec, other: &TaskRec) -> bool
    ensures { result ≡ same_task (task_of one.now) (task_of other.now) }
{
    one.id.0 == other.id.0 && (one.program.0 == other.program.0 && one.arg == other.arg)
}

/// The line of the first task, from this line on, that differs, or that is in one of the lists alone.
pub(crate) fn wrong_task(line: u32, told: &[TaskRec], left: &[TaskRec]) -> Option<u32>
    requires line { line ≤ MAX_INPUT + 129 }
    requires few { length told.now ≤ MAX_INPUT }
    ensures { result ≡ unlike_from same_task line (map task_of told.now) (map task_of left.now) }
{
    for (k, task) in told.iter().enumerate() {
        if k >= left.len() {
            return Some(line + k as u32);
        }
        if !is_same_task(task, &left[k]) {
            return Some(line + k as u32);
        }
    }
    if told.len() < left.len() {
        return Some(line + told.len() as u32);
    }
    None
}
