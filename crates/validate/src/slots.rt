//! What the written objects ask of a finish: that it stands behind all who touched them, and a free slot of each.

ghost use Rattle.std.specs.Prelude.{◌≡◌, ◌<◌, ℕ, List, MatchResult, length, map, take};
ghost use Rattle.object_sets.specs.ObjectSets.{AreBelow};
ghost use Rattle.kernel_model.specs.Effects.{Write};
ghost use Rattle.kernel_model.specs.Bounds.{raised_by};
ghost use Rattle.interval.specs.Ranges.{raised_to, range_of};
ghost use Rattle.slot_model.specs.Tabled.{View};
ghost use Rattle.table_machine.specs.Tables.{chain_at as kept_at};
ghost use Rattle.ver_table.specs.Chains.{chain_at};
ghost use Rattle.ver_table.specs.Tabled.{AreViews, all_tabled};
ghost use Rattle.validate.specs.Plans.{HaveSlots, IsFull};

use crate::beside::Beside;
use interval::Interval;
use nv_base::{ObjId, ObjSet, limits};
use ver_table::Versions;

/// How many objects there may be.
const MAX_OBJECTS: usize = limits::MAX_OBJECTS as usize;

/// The interval of a finish that writes these objects, where this is that of its reads.
pub(crate) fn raised(versions: &Versions, written: ObjSet, reads: Interval) -> Interval
    requires { AreBelow (length versions.now) written }
    ensures { (ws : List Write) → map (λ w. w.object) ws ≡ written
        → (let bounds : ℕ → ℕ = λ o. (kept_at (all_tabled versions.now) o).bound in
        range_of result ≡ raised_by bounds ws (range_of reads)) }
{
    let mut interval = reads;
    let mut left = written;
    while let Some(o) = left.take_least() {
        raise_behind(&mut interval, versions, o);
    }
    interval
}

// Leaves out all points before those of the finishes that read or wrote an object.
fn raise_behind(interval: &mut Interval, versions: &Versions, o: ObjId)
    requires { o.0 < length versions.now }
    ensures { range_of interval.new
        ≡ raised_to (chain_at versions.now o.0).bound (range_of interval.old) }
{
    interval.raise(versions.bound(o));
}

/// By object, the least free slot of each that is written: the least written object where one has none.
pub(crate) fn free_slots(
    versions: &Versions,
    written: ObjSet,
    beside: &Beside,
) -> Result<[u8; MAX_OBJECTS], ObjId>
    requires { AreBelow (length versions.now) written }
    ensures { (views : List View)
        → AreViews views (map range_of (take beside.now.attempts beside.now.intervals))
        (take beside.now.copies beside.now.pins)
        → MatchResult result (HaveSlots versions.now views written)
        (λ o. IsFull versions.now views written o.0) }
{
    let mut slots = [0; MAX_OBJECTS];
    let mut left = written;
    while let Some(o) = left.take_least() {
        let free = versions.free_slot(o, beside.intervals(), beside.pins());
        let Some(slot) = free else {
            return Err(o);
        };
        slots[usize::from(o.0)] = slot;
    }
    Ok(slots)
}
