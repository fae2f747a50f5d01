// The versions of one object, in memory that never grows.

ghost use Rattle.std.specs.Prelude.{◌≡◌, ◌<◌, ◌≤◌, ◌==◌, not, filter, find, map, IsSome, Some, slice_index, false, true, length, ℕ};
ghost use Rattle.std.specs.List.{list_any};
ghost use Rattle.kernel_model.specs.Room.{is_below, meet};
ghost use Rattle.interval.specs.Ranges.{number_of, range_of};
ghost use Rattle.ver_table.specs.Chains.{Place, holds_newest, in_slot, installed, lived, newest_before, noted, one_version};
ghost use Rattle.ver_table.specs.Places.{IsFreeSlot, is_needed, is_pinned, is_taken};
ghost use Rattle.ver_table.specs.Slots.{AreEnded, IsLaid, begin_at};

use arrayvec::ArrayVec;
use interval::{Interval, Pin};
use nv_base::{ObjId, Point, limits};
use std::marker::Model;

/// How many slots an object may have.
const MAX_SLOTS: usize = limits::MAX_SLOTS as usize;

/// The versions of one object by slot, their order, and the object's bound. Contracts see the definitions' record of them.
#[derive(Debug, Drop)]
pub(crate) struct Chain {
    slots: u8,
    bound: Point,
    // the slots that hold versions, newest first
    order: ArrayVec<u8, MAX_SLOTS>,
    // where each slot's version begins
    begins: [Point; MAX_SLOTS],
    // and where it ends, if it has ended
    ends: [Option<Point>; MAX_SLOTS],
}

impl Model for Chain {
    ghost use Rattle.std.specs.Prelude.{map};
    ghost use Rattle.ver_table.specs.Chains.{Chain as Kept};
    ghost use Rattle.ver_table.specs.Slots.{IsKept, stored_at};

    ghost Value = { Kept };

    ghost view = { λ c. record { slots = c.slots; bound = c.bound.0; stored = map (stored_at c.begins c.ends) c.order.items } };

    ghost invariant = { λ c. IsKept c.slots c.order.items
        (map (stored_at c.begins c.ends) c.order.items) };
}

impl Chain {
    /// One version alone, begun at `clock` in this slot.
    pub(crate) fn new(slots: u8, slot: u8, clock: Point) -> Chain
        requires few { slots ≤ MAX_SLOTS }
        requires inside { slot < slots }
        ensures { result ≡ one_version slots slot clock.0 }
    {
        let mut order = ArrayVec::new();
        order.push(slot);
        Chain {
            slots,
            bound: clock,
            order,
            begins: [clock; MAX_SLOTS],
            ends: [None; MAX_SLOTS],
        }
    }

    /// The same, in the memory that is there.
    pub(crate) fn reopen(&mut self, slot: u8, clock: Point)
        requires { slot < self.old.slots }
        ensures { self.new ≡ one_version self.old.slots slot clock.0 }
    {
        self.order.clear();
        self.order.push(slot);
        self.begins[usize::from(slot)] = clock;
        self.ends[usize::from(slot)] = None;
        self.bound = clock;
    }

    /// The greatest point that read or wrote the object.
    pub(crate) fn bound(&self) -> Point
        ensures bound { result.0 ≡ self.now.bound }
        ensures laid { IsLaid self.now }
    {
        self.bound
    }

    /// Raises the bound to `p` where it is lower.
    pub(crate) fn note(&mut self, p: Point)
        ensures { self.new ≡ noted p.0 self.old }
    {
        if self.bound.0 < p.0 {
            self.bound = p;
        }
    }

    /// The slot and the begin of the newest version that begins before `hi`.
    pub(crate) fn choose(&self, hi: Option<Point>) -> (u8, Point)
        requires { IsSome (newest_before (number_of hi) self.now.stored) }
        ensures chosen { (v : Place) → newest_before (number_of hi) self.now.stored ≡ Some v
            → (result.0 ≡ v.slot) × (result.1.0 ≡ v.begin)
            × (in_slot result.0 self.now.stored ≡ Some v) }
        ensures inside { result.0 < self.now.slots }
        ensures laid { IsLaid self.now }
    {
        let Some(slot) = first_before(self.order.as_slice(), &self.begins, hi) else {
            unreachable!()
        };
        (slot, self.begins[usize::from(slot)])
    }

    /// The end of the version in a slot.
    pub(crate) fn end_of(&self, slot: u8) -> Option<Point>
        requires { IsSome (in_slot slot self.now.stored) }
        ensures { (v : Place) → in_slot slot self.now.stored ≡ Some v → number_of result ≡ v.end }
    {
        self.ends[usize::from(slot)]
    }

    // Whether a slot holds the newest version, or an older one that is needed.
    fn is_taken(&self, slot: u8, o: ObjId, others: &[Interval], pins: &[Pin]) -> bool
        requires { slot < self.now.slots }
        ensures { let needed = is_needed o.0 (map range_of others.now) pins.now in
            result ≡ is_taken needed self.now.stored slot }
    {
        let newest = self.order[0];
        newest == slot
            || self.order.contains(&slot)
                && is_needed(
                    o,
                    slot,
                    self.begins[usize::from(slot)],
                    self.ends[usize::from(slot)],
                    others,
                    pins,
                )
    }

    /// The least slot that holds neither the newest nor a needed version: None exactly where there is no place.
    pub(crate) fn free_slot(&self, o: ObjId, others: &[Interval], pins: &[Pin]) -> Option<u8>
        ensures free { IsFreeSlot (is_needed o.0 (map range_of others.now) pins.now)
            self.now result }
        ensures laid { IsLaid self.now }
        ensures ended { AreEnded self.now.stored }
    {
        for slot in 0..self.slots {
            if !self.is_taken(slot, o, others, pins) {
                return Some(slot);
            }
        }
        None
    }

    /// Ends the newest version at `p`, and puts a new one, begun at `p`, in place of what the slot held.
    pub(crate) fn install(&mut self, slot: u8, p: Point)
        requires inside { slot < self.old.slots }
        requires older { holds_newest slot self.old.stored ≡ false }
        ensures { self.new ≡ installed slot p.0 self.old }
    {
        let newest = self.order[0];
        self.ends[usize::from(newest)] = Some(p);
        leave_out(&mut self.order, slot);
        self.order.insert(0, slot);
        self.begins[usize::from(slot)] = p;
        self.ends[usize::from(slot)] = None;
        self.bound = p;
    }
}

// The first of these slots whose version begins before `hi`.
fn first_before(order: &[u8], begins: &[Point; MAX_SLOTS], hi: Option<Point>) -> Option<u8>
    requires { (i : ℕ) → i < length order.now → slice_index order.now i < MAX_SLOTS }
    ensures { result ≡ find (λ k. is_below (begin_at begins.now k) (number_of hi)) order.now }
{
    for slot in order {
        if is_before(begins[usize::from(*slot)], hi) {
            return Some(*slot);
        }
    }
    None
}

// Whether a point comes before an end; before no end each one does.
fn is_before(p: Point, end: Option<Point>) -> bool
    ensures { result ≡ is_below p.0 (number_of end) }
{
    match end {
        None => true,
        Some(end) => p.0 < end.0,
    }
}

// Whether another attempt copies the version in this slot, or may stand where it lives.
fn is_needed(
    o: ObjId,
    slot: u8,
    begin: Point,
    end: Option<Point>,
    others: &[Interval],
    pins: &[Pin],
) -> bool
    ensures { let s : Place = record { slot = slot; begin = begin.0; end = number_of end } in
        result ≡ is_needed o.0 (map range_of others.now) pins.now s }
{
    is_pinned(o, slot, pins) || is_met(begin, end, others)
}

// Whether a pin names the slot.
fn is_pinned(o: ObjId, slot: u8, pins: &[Pin]) -> bool
    ensures { result ≡ is_pinned o.0 pins.now slot }
{
    pins.iter().any(|p| p.object.0 == o.0 && p.slot == slot)
}

// Whether one of the intervals meets a life.
fn is_met(begin: Point, end: Option<Point>, others: &[Interval]) -> bool
    ensures { let life = lived begin.0 (number_of end) in
        result ≡ list_any (λ i. meet life (range_of i)) others.now }
{
    others.iter().any(|i| meets(i, begin, end))
}

// Whether an interval meets a life.
fn meets(i: &Interval, begin: Point, end: Option<Point>) -> bool
    ensures { result ≡ meet (lived begin.0 (number_of end)) (range_of i.now) }
{
    i.meets(begin, end)
}

// Takes a slot out of the order.
fn leave_out(order: &mut ArrayVec<u8, MAX_SLOTS>, slot: u8)
    ensures { order.new.items ≡ filter (λ k. not (k == slot)) order.old.items }
{
    order.retain(|k| *k != slot);
}

#[cfg(test)]
pub(crate) mod tests;
