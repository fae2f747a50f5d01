//! The serial order of a listing.

ghost use Rattle.std.specs.Prelude.{◌≡◌, ◌≤◌, IfOk, length, map};
ghost use Rattle.std.specs.List.{All};
ghost use Rattle.kernel_model.specs.EntryReplay.{entry_order, places_from};
ghost use Rattle.set_model.specs.Views.{entry_of};
ghost use Rattle.task_model.specs.Turns.{IsTurnOf, place_at};

use crate::first_finishes::MAX_FINISHES;
use kernel_model::entries::{
    entries_compare_by_keys, entry_order_sorts, sorted_entries_are_in_order,
};
use nv_base::{Entry, NoMemory, Point, Seq};
use std::alloc::Global;

/// The keys of an entry in serial order, the first of them first, and its place in the listing, from 0.
#[derive(Clone, Copy, PartialEq, Eq, PartialOrd, Ord, Debug)]
pub(crate) struct Turn {
    pub(crate) point: Point,
    pub(crate) number: Seq,
    pub(crate) place: u32,
}

// The turns of a listing, by place.
fn turns(alloc: Global, listing: &[Entry]) -> Result<Vec<Turn>, NoMemory>
    requires { length listing.now ≤ MAX_FINISHES }
    ensures places { let entries = map entry_of listing.now in
        IfOk result (λ ts. map (place_at entries) ts.items ≡ places_from 0 entries) }
    ensures many { IfOk result (λ ts. length ts.items ≡ length listing.now) }
    ensures turns { IfOk result (λ ts. All (IsTurnOf (map entry_of listing.now)) ts.items) }
{
    let mut turns = Vec::with_capacity(alloc, listing.len())?;
    for (place, entry) in listing.iter().enumerate() {
        turns.push(Turn {
            point: entry.point,
            number: entry.number,
            place: place as u32,
        })?;
    }
    Ok(turns)
}

/// The turns of a listing in serial order: by point, then by number, then by place.
pub(crate) fn in_serial_order(alloc: Global, listing: &[Entry]) -> Result<Vec<Turn>, NoMemory>
    requires { length listing.now ≤ MAX_FINISHES }
    ensures order { let entries = map entry_of listing.now in
        IfOk result (λ ts. map (place_at entries) ts.items ≡ entry_order entries) }
    ensures many { IfOk result (λ ts. length ts.items ≡ length listing.now) }
    ensures turns { IfOk result (λ ts. All (IsTurnOf (map entry_of listing.now)) ts.items) }
{
    let mut turns = turns(alloc, listing)?;
    turns.sort_unstable();
    entries_compare_by_keys();
    sorted_entries_are_in_order();
    Ok(turns)
}
