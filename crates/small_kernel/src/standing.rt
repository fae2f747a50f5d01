//! The table of versions as the histories ask it: each condition of a call is tested at run time.

ghost use Rattle.std.specs.Prelude.{◌≡◌, ◌==◌, ◌&&◌, ◌∷◌, ◌++◌, [], IfOk, IfSome, IsSome, IsTrue, OnErr, OnOk, filter, map, not};
ghost use Rattle.std.specs.List.{list_any};
ghost use Rattle.interval.specs.Ranges.{number_of};
ghost use Rattle.kernel_model.specs.Room.{is_below};
ghost use Rattle.ver_table.specs.Chains.{chain_at, newest_before};

use crate::held::Others;
use interval::{Interval, Version};
use nv_base::{NoMemory, ObjId, Point};
use plain_history::{OBJECTS, Run, has};
use std::alloc::Global;
use std::marker::Model;
use task_set::TaskSet;
use validate::{Stale, admit, opened};
use ver_table::Versions;
use ver_table::tabled::slots_stay;

/// The table, beside all versions that stand in it.
#[derive(Drop)]
pub struct Table {
    pub versions: Versions,
    stands: Vec<Version>,
}

impl Model for Table {
    ghost use Rattle.std.specs.Prelude.{◌≡◌, List};
    ghost use Rattle.std.specs.List.{AllByRecursion};
    ghost use Rattle.slot_model.specs.Tabled.{Place};
    ghost use Rattle.ver_table.specs.Chains.{Chain};
    ghost use Rattle.validate.specs.Reading.{IsVersionAt};

    ghost Value = { List Chain };

    ghost view = { λ t. t.versions };

    ghost invariant = { λ t. AllByRecursion (λ v. (p : Place) × IsVersionAt t.versions v p)
        t.stands.items };
}

// whether a point comes before an end
fn is_before(p: Point, hi: Option<Point>) -> bool
    ensures { result ≡ is_below p.0 (number_of hi) }
{
    match hi {
        None => true,
        Some(hi) => p.0 < hi.0,
    }
}

// whether one of these is a version of an object that begins before an end
fn any_before(stands: &[Version], o: u8, hi: Option<Point>) -> bool
    ensures { result
        ≡ list_any (λ v. v.object.0 == o && is_below v.begin.0 (number_of hi)) stands.now }
{
    stands
        .iter()
        .any(|v| v.object.0 == o && is_before(v.begin, hi))
}

// the version that a table begins with
fn first(o: u8, clock: Point) -> Version
    ensures { result ≡ record { object = record { 0 = o }; slot = 0; begin = clock } }
{
    Version {
        object: ObjId(o),
        slot: 0,
        begin: clock,
    }
}

// all versions but that in a slot of an object
fn keep_others(stands: &mut Vec<Version>, o: u8, slot: u8)
    ensures { stands.new.items
        ≡ filter (λ v. not (v.object.0 == o && v.slot == slot)) stands.old.items }
{
    stands.retain(|v| !(v.object.0 == o && v.slot == slot));
}

// a version takes the place of that in its slot, if there is memory
fn replace(stands: &mut Vec<Version>, version: Version) -> Result<(), NoMemory>
    ensures put { let others = filter (λ v.
        not (v.object.0 == version.object.0 && v.slot == version.slot)) stands.old.items in
        OnOk result (stands.new.items ≡ others ++ version ∷ []) }
    ensures left { let others = filter (λ v.
        not (v.object.0 == version.object.0 && v.slot == version.slot)) stands.old.items in
        OnErr result (stands.new.items ≡ others) }
{
    keep_others(stands, version.object.0, version.slot);
    if stands.push(version).is_err() {
        return Err(NoMemory);
    }
    Ok(())
}

impl Table {
    /// The table of a set of three objects, each with a version in slot 0 that begins at the clock.
    pub fn opened(alloc: Global, set: &TaskSet, clock: Point) -> Result<Option<Table>, NoMemory>
        ensures { IfOk result (λ r. IfSome r (λ t. map (λ c. c.slots) t
            ≡ map (λ p. p.slots) set.now.objects)) }
    {
        if set.objects() != 3
            || set.slots(ObjId(0)) == 0
            || set.slots(ObjId(1)) == 0
            || set.slots(ObjId(2)) == 0
        {
            return Ok(None);
        }
        let versions = Versions::open(alloc, set, &[0, 0, 0], clock)?;
        let firsts = [first(0, clock), first(1, clock), first(2, clock)];
        let stands = Vec::from_slice(alloc, &firsts)?;
        slots_stay();
        Ok(Some(Table { versions, stands }))
    }

    /// All versions that stand in it.
    pub fn stands(&self) -> &[Version] {
        self.stands.as_slice()
    }

    // whether a version of an object begins before an end
    fn has_before(&self, o: u8, hi: Option<Point>) -> bool
        ensures { IsTrue result
            → IsSome (newest_before (number_of hi) (chain_at self.now o).stored) }
    {
        any_before(self.stands.as_slice(), o, hi)
    }

    /// An outside read of an object: the version and the interval after it, or that the attempt is stale. None where no
    /// version begins before the end of an interval with a point.
    pub fn read(&self, o: u8, reads: Interval) -> Option<Result<(Version, Interval), Stale>> {
        if o >= self.versions.objects() {
            return None;
        }
        if !reads.is_empty() && !self.has_before(o, reads.hi) {
            return None;
        }
        match admit(&self.versions, reads, ObjId(o)) {
            Err(stale) => Some(Err(stale)),
            Ok(version) => Some(Ok((version, opened(&self.versions, reads, version)))),
        }
    }

    /// The greatest point that read or wrote an object.
    pub fn bound(&self, o: u8) -> Option<u32> {
        if o < self.versions.objects() {
            return Some(self.versions.bound(ObjId(o)).0);
        }
        None
    }

    /// The end of a version that stands in it, by its place there.
    pub fn end_of(&self, place: usize) -> Option<Option<Point>> {
        match self.stands.get(place) {
            None => None,
            Some(version) => Some(self.versions.end_of(*version)),
        }
    }

    // a finish at this point has read an object
    fn note(&mut self, o: u8, p: Point)
        ensures { map (λ c. c.slots) self.new ≡ map (λ c. c.slots) self.old }
    {
        if o < self.versions.objects() {
            self.versions.note(ObjId(o), p);
            slots_stay();
        }
    }

    // A finish at this point has written an object into the least slot that is free beside the others. False where that
    // is another slot, or where the point comes before the bound.
    fn install(&mut self, o: u8, slot: u8, p: Point, others: &Others) -> Result<bool, NoMemory>
        ensures { map (λ c. c.slots) self.new ≡ map (λ c. c.slots) self.old }
    {
        if o >= self.versions.objects() {
            return Ok(false);
        }
        let free = self.versions.free_slot(
            ObjId(o),
            others.intervals.as_slice(),
            others.pins.as_slice(),
        );
        if free != Some(slot) || p.0 < self.versions.bound(ObjId(o)).0 {
            return Ok(false);
        }
        self.versions.install(ObjId(o), slot, p);
        slots_stay();
        replace(
            &mut self.stands,
            Version {
                object: ObjId(o),
                slot,
                begin: p,
            },
        )?;
        Ok(true)
    }

    // an object after a finish at this point
    fn touch(
        &mut self,
        o: u8,
        run: Run,
        slot: u8,
        p: Point,
        others: &Others,
    ) -> Result<bool, NoMemory>
        ensures { map (λ c. c.slots) self.new ≡ map (λ c. c.slots) self.old }
    {
        if has(run.writes, o) {
            return self.install(o, slot, p, others);
        }
        if has(run.reads, o) {
            self.note(o, p);
        }
        Ok(true)
    }

    /// All objects after a finish at this point, into these slots. False where one of them is not the least free one.
    pub fn join(
        &mut self,
        run: Run,
        slots: [u8; 3],
        p: Point,
        others: &Others,
    ) -> Result<bool, NoMemory>
        ensures { map (λ c. c.slots) self.new ≡ map (λ c. c.slots) self.old }
    {
        for o in 0..OBJECTS {
            if !self.touch(o, run, slots[usize::from(o)], p, others)? {
                return Ok(false);
            }
        }
        Ok(true)
    }
}
