//! What a layout tells: each place is one look, and each number was made once.

ghost use Rattle.std.specs.Prelude.{◌≡◌, ◌<◌, ◌≤◌, true, length};
ghost use Rattle.set_model.specs.Sets.{object_at};
ghost use Rattle.set_model.specs.Numbers.{index_words};
ghost use Rattle.device_model.specs.Layouts.{boot_turns_of, code_place, copy_place, index_place, index_reads, slot_place};
ghost use Rattle.device_model.specs.Devices.{Device, layout_on, need_on};
ghost use Rattle.shadow_index.specs.Views.{kind_of};
ghost use Rattle.shadow_index.specs.Tells.{IsLayoutOf, IsShift, device_by, device_of};

use crate::kind::DeviceKind;
use crate::layout::Layout;
use crate::lengths::{first_index, index_words, slots_words};
use crate::shape::Shape;
use crate::tables::{
    MAX_OBJECTS, MAX_PAGES, MAX_PROGRAMS, MAX_SLOTS, code_places, page_places, slot_places,
};
use nv_base::{ObjId, ProgId};
use task_set::TaskSet;

/// How many words a device of a set must have, as its format says.
pub fn need(set: &TaskSet) -> u32
    ensures { result ≡ need_on (device_of set.now 0) }
{
    let kind = DeviceKind::of_format(set.format());
    let shape = Shape::of(set, kind);
    shape.pages_at + 2 * u32::from(shape.pages) * shape.page_words + slots_words(set)
}

impl Layout {
    /// The layout of a set on a device whose words a migration moved so far: 0 where there was none.
    pub fn of(set: &TaskSet, shift: u32) -> Layout
        requires { IsShift set.now shift }
        ensures { IsLayoutOf (device_of set.now shift) result }
    {
        if shift == 0 {
            Layout::of_kind(set, DeviceKind::of_format(set.format()))
        } else {
            Layout::of_kind(set, DeviceKind::Migrated)
        }
    }

    /// The layout of a set on a device of a kind.
    pub fn of_kind(set: &TaskSet, kind: DeviceKind) -> Layout
        ensures { IsLayoutOf (device_by set.now kind) result }
    {
        let shape = Shape::of(set, kind);
        let first = first_index(set);
        let index_reads = u32::from(shape.pages) * shape.page_words;
        let slots_at = shape.pages_at + 2 * index_reads;
        Layout {
            kind,
            need: slots_at + slots_words(set),
            first_index: first,
            index_words: index_words(set),
            head_reads: kind.head_reads(first),
            index_reads,
            root: shape.root,
            pages: shape.pages,
            page_words: shape.page_words,
            page_places: page_places(shape),
            slot_places: slot_places(set, slots_at),
            code_places: code_places(set),
        }
    }

    /// Which kind of device this is.
    pub fn kind(&self) -> DeviceKind
        ensures { (d : Device) → IsLayoutOf d self.now → kind_of result ≡ d.kind }
    {
        self.kind
    }

    /// How many words a device must have.
    pub fn need(&self) -> u32
        ensures { (d : Device) → IsLayoutOf d self.now → result ≡ need_on d }
    {
        self.need
    }

    /// How many words the index has.
    pub fn index_words(&self) -> u32
        ensures { (d : Device) → IsLayoutOf d self.now → result ≡ index_words d.set }
    {
        self.index_words
    }

    /// How many words are read before the pages.
    pub fn head_reads(&self) -> u32
        ensures { (d : Device) → IsLayoutOf d self.now → result ≡ (layout_on d).head_reads }
    {
        self.head_reads
    }

    /// How many index words are read, the padding too.
    pub fn index_reads(&self) -> u32
        ensures { (d : Device) → IsLayoutOf d self.now → result ≡ index_reads (layout_on d) }
    {
        self.index_reads
    }

    /// How many turns a boot takes.
    pub fn boot_turns(&self) -> u32
        ensures { (d : Device) → IsLayoutOf d self.now → result ≡ boot_turns_of (layout_on d) }
    {
        self.head_reads + self.index_reads + 1
    }

    /// The place of the root.
    pub fn root_at(&self) -> u32
        ensures { (d : Device) → IsLayoutOf d self.now → result ≡ (layout_on d).root }
    {
        self.root
    }

    /// How many pages there are.
    pub fn pages(&self) -> u8
        ensures exact { (d : Device) → IsLayoutOf d self.now → result ≡ (layout_on d).pages }
        ensures few { result ≤ MAX_PAGES }
    {
        self.pages
    }

    /// How many words a page has.
    pub fn page_words(&self) -> u32
        ensures { (d : Device) → IsLayoutOf d self.now → result ≡ (layout_on d).page_words }
    {
        self.page_words
    }

    /// The place of a page's copy, 0 or 1.
    pub fn page_at(&self, page: u8, copy: u8) -> u32
        requires page { page < MAX_PAGES }
        requires copy { copy < 2 }
        ensures { (d : Device) → IsLayoutOf d self.now → page < (layout_on d).pages
            → result ≡ copy_place (layout_on d) page copy 0 }
    {
        self.page_places[usize::from(page)][usize::from(copy)]
    }

    /// The place of a slot of an object.
    pub fn slot_at(&self, o: ObjId, slot: u8) -> u32
        requires object { o.0 < MAX_OBJECTS }
        requires slot { slot < MAX_SLOTS }
        ensures { (d : Device) → IsLayoutOf d self.now
            → o.0 < length d.set.objects → slot < (object_at d.set o.0).slots
            → result ≡ slot_place (layout_on d) d.set o.0 slot }
    {
        let [first, size] = self.slot_places[usize::from(o.0)];
        first.wrapping_add(size.wrapping_mul(u32::from(slot)))
    }

    /// The place of a program's code.
    pub fn code_at(&self, p: ProgId) -> u32
        requires { p.0 < MAX_PROGRAMS }
        ensures { (d : Device) → IsLayoutOf d self.now → p.0 < length d.set.programs
            → result ≡ code_place d.set p.0 }
    {
        self.code_places[usize::from(p.0)]
    }
}
