//! A finish that joins, and what it makes of the table of versions.

ghost use Rattle.std.specs.Prelude.{◌≡◌, ◌<◌, ◌≤◌, ◌||◌, ℕ, true, length, slice_index, slice_set};
ghost use Rattle.object_sets.specs.ObjectSets.{is_among};
ghost use Rattle.ver_table.specs.Chains.{chain_at};
ghost use Rattle.committed_state.specs.Joining.{AreTouchedBy, IsFreeAt, touched_by};

use nv_base::limits::MAX_OBJECTS;
use nv_base::{ObjId, ObjSet, Point, TaskId};
use ver_table::Versions;

/// A finish whose writes are all made: its task and its point, and the objects that its attempt read from outside and
/// wrote.
#[derive(Clone, Copy, Debug)]
pub struct Joining {
    /// The task that finished.
    pub task: TaskId,
    /// Its serialization point.
    pub point: Point,
    /// The objects that were read from outside.
    pub reads: ObjSet,
    /// The objects that were written.
    pub written: ObjSet,
}

impl Joining {
    /// Each of the first `count` objects: one that is written has a new version, begun at the finish's point in the slot
    /// that is named, and one that is read alone was touched at that point.
    pub(crate) fn touch_all(&self, versions: &mut Versions, slots: &[u8], count: u8)
        requires number { length versions.old ≡ count }
        requires slots { length slots.now ≡ count }
        requires few { count ≤ MAX_OBJECTS }
        requires free { (o : ℕ) → o < count → is_among o self.now.written ≡ true
            → IsFreeAt (slice_index slots.now o) self.now.point.0 (chain_at versions.old o) }
        ensures { AreTouchedBy self.now slots.now count versions.old versions.new }
    {
        let mut left = self.touched();
        while let Some(o) = left.take_least() {
            if o.0 < count {
                self.touch(versions, o, slots[usize::from(o.0)]);
            }
        }
    }

    // The objects that were read from outside or written.
    fn touched(&self) -> ObjSet
        ensures { (o : ℕ)
            → is_among o result ≡ (is_among o self.now.written || is_among o self.now.reads) }
    {
        let mut all = self.written;
        let mut left = self.reads;
        while let Some(o) = left.take_least() {
            all.add(o);
        }
        all
    }

    // One object.
    fn touch(&self, versions: &mut Versions, o: ObjId, slot: u8)
        requires inside { o.0 < length versions.old }
        requires few { o.0 < MAX_OBJECTS }
        requires free { is_among o.0 self.now.written ≡ true
            → IsFreeAt slot self.now.point.0 (chain_at versions.old o.0) }
        ensures { let touched = touched_by self.now o.0 slot (chain_at versions.old o.0) in
            versions.new ≡ slice_set versions.old o.0 touched }
    {
        if self.written.has(o) {
            versions.install(o, slot, self.point);
        } else if self.reads.has(o) {
            versions.note(o, self.point);
        }
    }
}
