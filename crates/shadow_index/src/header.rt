//! The words before the index: the numbers of the set, its directory, and its code.

ghost use Rattle.std.specs.Prelude.{ℕ, ◌≡◌, ◌≢◌, ◌+◌, ◌*◌, ◌<◌, ◌≤◌, length, slice_index};
ghost use Rattle.set_model.specs.Sets.{object_at};
ghost use Rattle.set_model.specs.Numbers.{first_index};
ghost use Rattle.device_model.specs.Layouts.{header, header_word, object_word};
ghost use Rattle.device_model.specs.Formats.{format_word};
ghost use Rattle.device_model.specs.Devices.{Device, layout_on};
ghost use Rattle.shadow_index.specs.Tells.{AreCodePlaces, IsLayoutOf};

use crate::layout::Layout;
use crate::tables::CodePlaces;
use nv_base::limits::MAX_PROGRAMS;
use nv_base::{ObjId, ProgId};
use task_set::TaskSet;

impl Layout {
    /// The word that a format leaves at a place before the index: word 1 is the root in format 1, and 0 else.
    pub fn header_word(&self, set: &TaskSet, at: u32) -> u32
        requires { at < first_index set.now }
        ensures format { (d : Device) → IsLayoutOf d self.now → d.set ≡ set.now
            → result ≡ format_word (layout_on d) d.set at }
        ensures header { (d : Device) → IsLayoutOf d self.now → d.set ≡ set.now → at ≢ 1
            → result ≡ header_word (layout_on d) d.set at }
    {
        if at == self.root {
            self.first_root()
        } else {
            word_at(set, &self.code_places, self.kind.magic(), at)
        }
    }
}

/// Word `at` of the header: 0 behind it.
fn word_at(set: &TaskSet, places: &CodePlaces, magic: u32, at: u32) -> u32
    ensures { AreCodePlaces set.now places.now → result ≡ slice_index (header magic set.now) at }
{
    let n = u32::from(set.objects());
    let p = u32::from(set.programs());
    if at < 7 {
        return number_at(set, magic, at);
    }
    if at < 7 + n {
        return object_at(set, ObjId((at - 7) as u8));
    }
    if at < 7 + n + 2 * p {
        return program_at(set, at - (7 + n));
    }
    code_at(set, places, at)
}

/// One of the first seven words.
fn number_at(set: &TaskSet, magic: u32, at: u32) -> u32
    requires { at < 7 }
    ensures { result ≡ slice_index (header magic set.now) at }
{
    match at {
        0 => magic,
        3 => u32::from(set.objects()),
        4 => u32::from(set.records()),
        5 => u32::from(set.programs()),
        6 => set.memory(),
        _ => 0,
    }
}

/// The word of an object.
fn object_at(set: &TaskSet, o: ObjId) -> u32
    requires { o.0 < length set.now.objects }
    ensures { result ≡ object_word (object_at set.now o.0) }
{
    u32::from(set.size(o)) + 256 * u32::from(set.slots(o))
}

/// Word i of the programs: the fuel of each, and how many words its code has.
fn program_at(set: &TaskSet, i: u32) -> u32
    requires index { i < 2 * length set.now.programs }
    requires few { length set.now.programs ≤ MAX_PROGRAMS }
    ensures { (magic : ℕ)
        → result ≡ slice_index (header magic set.now) (7 + length set.now.objects + i) }
{
    let p = ProgId((i / 2) as u8);
    if i % 2 == 0 {
        set.fuel(p)
    } else {
        set.code(p).len() as u32
    }
}

/// The word at a place behind the directory: one of the code, or 0 behind all code.
fn code_at(set: &TaskSet, places: &CodePlaces, at: u32) -> u32
    requires { 7 + length set.now.objects + 2 * length set.now.programs ≤ at }
    ensures { (magic : ℕ) → AreCodePlaces set.now places.now
        → result ≡ slice_index (header magic set.now) at }
{
    let p = last_up_to(places, usize::from(set.programs()), at);
    let code = set.code(ProgId(p as u8));
    let i = at.saturating_sub(places[p]) as usize;
    if i < code.len() { code[i] } else { 0 }
}

/// The last of the first places that is not behind a place, by halves: of 16 places four are looked at.
fn last_up_to(places: &CodePlaces, count: usize, at: u32) -> usize
    requires some { 0 < count }
    requires few { count ≤ MAX_PROGRAMS }
    ensures inside { result < count }
    ensures up_to { slice_index places.now 0 ≤ at → slice_index places.now result ≤ at }
    ensures last { result + 1 < count → at < slice_index places.now (result + 1) }
{
    let of_eight = step_up(places, count, at, 0, 8);
    let of_four = step_up(places, count, at, of_eight, 4);
    let of_two = step_up(places, count, at, of_four, 2);
    step_up(places, count, at, of_two, 1)
}

/// Where the half begins that has the last one, of twice so many places: the later half, where its first is not behind `at`.
fn step_up(places: &CodePlaces, count: usize, at: u32, from: usize, by: usize) -> usize
    requires few { count ≤ MAX_PROGRAMS }
    requires inside { from < count }
    requires short { by ≤ 8 }
    requires half { from + 2 * by < count → at < slice_index places.now (from + 2 * by) }
    ensures inside { result < count }
    ensures up_to { slice_index places.now from ≤ at → slice_index places.now result ≤ at }
    ensures half { result + by < count → at < slice_index places.now (result + by) }
{
    let next = from + by;
    if next < count && places[next] <= at {
        next
    } else {
        from
    }
}
