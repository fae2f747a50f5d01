//! The tables of places of a set on a device.

ghost use Rattle.std.specs.Prelude.{ℕ, [], ◌≡◌, ◌<◌, ◌≤◌, ◌+◌, ◌*◌, get_or, length, slice_index};
ghost use Rattle.set_model.specs.Sets.{object_at};
ghost use Rattle.device_model.specs.Layouts.{code_place, words_before};
ghost use Rattle.shadow_index.specs.Looks.{looked};

use crate::bounds::{MAX_INDEX_WORDS, MAX_NEED, MAX_PAGES_AT, MAX_SLOTS_AT};
use crate::shape::Shape;
use nv_base::{ObjId, ProgId, limits};
use task_set::TaskSet;

/// How many pages there may be.
pub(crate) const MAX_PAGES: usize = 31;

/// How many objects there may be.
pub(crate) const MAX_OBJECTS: usize = limits::MAX_OBJECTS as usize;

/// How many slots an object may have.
pub(crate) const MAX_SLOTS: usize = limits::MAX_SLOTS as usize;

/// How many programs there may be.
pub(crate) const MAX_PROGRAMS: usize = limits::MAX_PROGRAMS as usize;

/// The place of each copy of each page.
pub(crate) type PagePlaces = [[u32; 2]; MAX_PAGES];

/// The place of each object's first slot, and how far its slots are apart.
pub(crate) type SlotPlaces = [[u32; 2]; MAX_OBJECTS];

/// The place of each program's code.
pub(crate) type CodePlaces = [u32; MAX_PROGRAMS];

/// Both copies of each page stand one after another.
pub(crate) fn page_places(shape: Shape) -> PagePlaces
    requires pages { shape.pages ≤ MAX_PAGES }
    requires words { shape.page_words ≤ MAX_INDEX_WORDS }
    requires small { shape.pages_at ≤ MAX_PAGES_AT }
    ensures { (page copy : ℕ) → page < shape.pages → copy < 2
        → looked result page copy ≡ shape.pages_at + (2 * page + copy) * shape.page_words }
{
    let mut places = [[0; 2]; MAX_PAGES];
    let mut at = shape.pages_at;
    for page in 0..usize::from(shape.pages) {
        places[page] = [at, at + shape.page_words];
        at += 2 * shape.page_words;
    }
    places
}

/// The slots of each object stand one after another, from a place on.
pub(crate) fn slot_places(set: &TaskSet, slots_at: u32) -> SlotPlaces
    requires { slots_at ≤ MAX_SLOTS_AT }
    ensures first { (o : ℕ) → o < length set.now.objects
        → looked result o 0 ≡ slots_at + words_before set.now.objects o }
    ensures size { (o : ℕ) → o < length set.now.objects
        → looked result o 1 ≡ (object_at set.now o).size }
    ensures small { (o : ℕ) → o < length set.now.objects
        → slots_at + words_before set.now.objects o ≤ MAX_NEED }
{
    let mut places = [[0; 2]; MAX_OBJECTS];
    let mut at = slots_at;
    for o in 0..set.objects() {
        let size = u32::from(set.size(ObjId(o)));
        places[usize::from(o)] = [at, size];
        at += size * u32::from(set.slots(ObjId(o)));
    }
    places
}

/// The code of each program stands behind that of those before it.
pub(crate) fn code_places(set: &TaskSet) -> CodePlaces
    ensures { (p : ℕ) → p < length set.now.programs
        → slice_index result p ≡ code_place set.now p }
{
    let mut places = [0; MAX_PROGRAMS];
    let mut at = 7 + u32::from(set.objects()) + 2 * u32::from(set.programs());
    for p in 0..set.programs() {
        places[usize::from(p)] = at;
        at += set.code(ProgId(p)).len() as u32;
    }
    places
}
