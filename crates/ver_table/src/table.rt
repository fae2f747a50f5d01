// The table of versions: the versions of all objects, and what the kernel asks of them.

ghost use Rattle.std.specs.Prelude.{◌≡◌, ◌<◌, ◌≤◌, Some, false, IfOk, IsSome, length, map, slice_set};
ghost use Rattle.interval.specs.Ranges.{number_of, range_of};
ghost use Rattle.ver_table.specs.Chains.{AreNamed, AreOpened, Place, chain_at, holds_newest, in_slot, installed, newest_before, noted};
ghost use Rattle.ver_table.specs.Places.{IsFreeSlot, is_needed};
ghost use Rattle.ver_table.specs.Slots.{AreEnded, IsLaid};

use crate::chain::Chain;
use interval::{Interval, Pin, Version};
use nv_base::limits::MAX_OBJECTS;
use nv_base::{NoMemory, ObjId, Point};
use std::alloc::Global;
use std::marker::Model;
use task_set::TaskSet;

/// Which slot holds which version of each object, how long each version lives, and the greatest point that read or
/// wrote each object. Contracts see the list of the definitions' records of the objects. No call but `open` takes memory.
#[derive(Debug, Drop)]
pub struct Versions {
    chains: Vec<Chain>,
}

impl Model for Versions {
    ghost use Rattle.std.specs.Prelude.{◌≤◌, List, length};
    ghost use Rattle.nv_base.specs.declared.limits.TheConstants.{MAX_OBJECTS};
    ghost use Rattle.ver_table.specs.Chains.{Chain as Kept};

    ghost Value = { List Kept };

    ghost view = { λ v. v.chains.items };

    ghost invariant = { λ v. length v.chains.items ≤ MAX_OBJECTS };
}

impl Versions {
    /// One version of each object of the set, begun at `clock` in the slot that is named; each bound is `clock`.
    pub fn open(
        alloc: Global,
        set: &TaskSet,
        slots: &[u8],
        clock: Point,
    ) -> Result<Versions, NoMemory>
        requires { AreNamed (map (λ p. p.slots) set.now.objects) slots.now }
        ensures { let sizes = map (λ p. p.slots) set.now.objects in
            IfOk result (λ v. AreOpened sizes slots.now clock.0 v) }
    {
        let mut chains = Vec::with_capacity(alloc, usize::from(set.objects()))?;
        for o in 0..set.objects() {
            chains.push(Chain::new(set.slots(ObjId(o)), slots[usize::from(o)], clock))?;
        }
        Ok(Versions { chains })
    }

    /// Leaves the same, for the set that the table was opened for.
    pub fn reopen(&mut self, slots: &[u8], clock: Point)
        requires { AreNamed (map (λ c. c.slots) self.old) slots.now }
        ensures { AreOpened (map (λ c. c.slots) self.old) slots.now clock.0 self.new }
    {
        for o in 0..self.chains.len() {
            self.chains[o].reopen(slots[o], clock);
        }
    }

    /// How many objects there are.
    pub fn objects(&self) -> u8
        ensures exact { result ≡ length self.now }
        ensures few { result ≤ MAX_OBJECTS }
    {
        self.chains.len() as u8
    }

    pub(crate) fn chain(&self, o: ObjId) -> &Chain
        requires { o.0 < length self.now }
        ensures { result.now ≡ chain_at self.now o.0 }
    {
        &self.chains[usize::from(o.0)]
    }

    /// The newest version of an object that begins before `hi`; the newest of all where there is no `hi`.
    pub fn choose(&self, o: ObjId, hi: Option<Point>) -> Version
        requires inside { o.0 < length self.now }
        requires begun { IsSome (newest_before (number_of hi) (chain_at self.now o.0).stored) }
        ensures object { result.object ≡ o }
        ensures chosen { (v : Place)
            → newest_before (number_of hi) (chain_at self.now o.0).stored ≡ Some v
            → (result.slot ≡ v.slot) × (result.begin.0 ≡ v.begin)
            × (in_slot result.slot (chain_at self.now o.0).stored ≡ Some v) }
        ensures slot { result.slot < (chain_at self.now o.0).slots }
        ensures laid { IsLaid (chain_at self.now o.0) }
    {
        let (slot, begin) = self.chain(o).choose(hi);
        Version {
            object: o,
            slot,
            begin,
        }
    }

    /// The greatest point that read or wrote an object.
    pub fn bound(&self, o: ObjId) -> Point
        requires { o.0 < length self.now }
        ensures bound { result.0 ≡ (chain_at self.now o.0).bound }
        ensures laid { IsLaid (chain_at self.now o.0) }
    {
        self.chain(o).bound()
    }

    /// Raises the bound of an object to `p` where it is lower.
    pub fn note(&mut self, o: ObjId, p: Point)
        requires { o.0 < length self.old }
        ensures { self.new ≡ slice_set self.old o.0 (noted p.0 (chain_at self.old o.0)) }
    {
        self.chains[usize::from(o.0)].note(p);
    }

    /// The end of a version that is in the table: None exactly where it has not ended.
    pub fn end_of(&self, v: Version) -> Option<Point>
        requires inside { v.object.0 < length self.now }
        requires stands { IsSome (in_slot v.slot (chain_at self.now v.object.0).stored) }
        ensures { (s : Place) → in_slot v.slot (chain_at self.now v.object.0).stored ≡ Some s
            → number_of result ≡ s.end }
    {
        self.chain(v.object).end_of(v.slot)
    }

    /// The least slot of an object that holds neither the newest version nor one that the others need: None exactly
    /// where the object has no room.
    pub fn free_slot(&self, o: ObjId, others: &[Interval], pins: &[Pin]) -> Option<u8>
        requires { o.0 < length self.now }
        ensures free { let needed = is_needed o.0 (map range_of others.now) pins.now in
            IsFreeSlot needed (chain_at self.now o.0) result }
        ensures laid { IsLaid (chain_at self.now o.0) }
        ensures ended { AreEnded (chain_at self.now o.0).stored }
    {
        self.chain(o).free_slot(o, others, pins)
    }

    /// Ends the newest version of an object at `p`, and puts a new one, begun at `p`, in place of what the slot held.
    pub fn install(&mut self, o: ObjId, slot: u8, p: Point)
        requires inside { o.0 < length self.old }
        requires slot { slot < (chain_at self.old o.0).slots }
        requires older { holds_newest slot (chain_at self.old o.0).stored ≡ false }
        requires bound { (chain_at self.old o.0).bound ≤ p.0 }
        ensures { self.new ≡ slice_set self.old o.0 (installed slot p.0 (chain_at self.old o.0)) }
    {
        self.chains[usize::from(o.0)].install(slot, p);
    }
}
