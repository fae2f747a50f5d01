//! The state of a device, and a word of an object, read at once. Nothing is written.

ghost use Rattle.std.specs.Prelude.{◌≡◌, ◌<◌, ◌≤◌, IfErr, IfOk, OnErr, OnOk, length, slice_index};
ghost use Rattle.nv_base.specs.Streams.{FaultCounted};
ghost use Rattle.kernel_model.specs.Effects.{object_words};
ghost use Rattle.set_model.specs.Sets.{object_at};
ghost use Rattle.device_model.specs.Decoding.{Held};
ghost use Rattle.device_model.specs.Layouts.{reads};
ghost use Rattle.device_model.specs.Devices.{HoldsOn, layout_on, need_on, slot_on};
ghost use Rattle.shadow_index.specs.States.{HasRoom, HasTaken};
ghost use Rattle.shadow_index.specs.Tells.{IsShift, device_of};
ghost use Rattle.recovery.specs.Images.{IsOwn, IsStateOn, device_at, words_of};
ghost use Rattle.recovery.specs.Reading.{HasRead, IsRead, IsRefused};

use crate::reader::Reader;
use crate::refusals::BootRefusal;
use fram_dev::{Fram, Lost};
use nv_base::ObjId;
use shadow_index::{Layout, State};
use task_set::TaskSet;

/// The state that a device holds. `Blank` where word 0 is 0, `Damaged` at the place of the first faulty word, `Lost` where the device lost a call.
pub fn read_state<F: Fram>(dev: &mut F, set: &TaskSet, into: &mut State) -> Result<(), BootRefusal>
    requires own { IsOwn set.now (words_of (F.log dev.old) (F.start dev.old)) }
    requires room { let words = words_of (F.log dev.old) (F.start dev.old) in
        need_on (device_at set.now words) ≤ length (F.start dev.old) }
    requires state { HasTaken set.now 0 into.old }
    ensures held { let words = words_of (F.log dev.old) (F.start dev.old) in
        OnOk result (IsRead set.now words into.new) }
    ensures refused { let words = words_of (F.log dev.old) (F.start dev.old) in
        IfErr result (IsRefused set.now words (F.lost dev.old) (F.lost dev.new)) }
    ensures room { HasRoom set.now into.new }
    ensures log { F.log dev.new ≡ F.log dev.old }
    ensures start { F.start dev.new ≡ F.start dev.old }
    ensures never_falls { F.lost dev.old ≤ F.lost dev.new }
{
    let mut reader = Reader::begin(set);
    reader.first(dev, set, into)?;
    read_rest(&mut reader, dev, set, into)
}

/// All words that were not read yet. `Damaged` and `Lost` come as in `read_state`.
pub(crate) fn read_rest<F: Fram>(
    reader: &mut Reader,
    dev: &mut F,
    set: &TaskSet,
    into: &mut State,
) -> Result<(), BootRefusal>
    requires read { let words = words_of (F.log dev.old) (F.start dev.old) in
        HasRead (device_at set.now words) words reader.old into.old }
    requires room { let words = words_of (F.log dev.old) (F.start dev.old) in
        need_on (device_at set.now words) ≤ length (F.start dev.old) }
    ensures read { let words = words_of (F.log dev.old) (F.start dev.old) in
        OnOk result (HasRead (device_at set.now words) words reader.new into.new) }
    ensures all { let words = words_of (F.log dev.old) (F.start dev.old) in
        OnOk result (reader.new.count ≡ reads (layout_on (device_at set.now words))) }
    ensures refused { let words = words_of (F.log dev.old) (F.start dev.old) in
        IfErr result (IsRefused set.now words (F.lost dev.old) (F.lost dev.new)) }
    ensures room { HasRoom set.now into.new }
    ensures log { F.log dev.new ≡ F.log dev.old }
    ensures start { F.start dev.new ≡ F.start dev.old }
    ensures never_falls { F.lost dev.old ≤ F.lost dev.new }
{
    for _ in reader.count..reader.layout.boot_turns() - 1 {
        reader.next(dev, set, into)?;
    }
    Ok(())
}

/// Word i of an object, in the slot that a state names. `Lost` where the device lost the call.
pub fn read_object<F: Fram>(
    dev: &mut F,
    set: &TaskSet,
    state: &State,
    o: ObjId,
    i: u8,
) -> Result<u32, Lost>
    requires moved { IsShift set.now state.now.shift }
    requires room { need_on (device_of set.now state.now.shift) ≤ length (F.start dev.old) }
    requires slots { length state.now.slots.items ≡ length set.now.objects }
    requires object { o.0 < length set.now.objects }
    requires index { i < (object_at set.now o.0).size }
    requires slot { slice_index state.now.slots.items o.0 < (object_at set.now o.0).slots }
    ensures word { let words = words_of (F.log dev.old) (F.start dev.old) in
        let slot = slice_index state.now.slots.items o.0 in
        let place = slot_on (device_of set.now state.now.shift) o.0 slot i in
        IfOk result (λ word. word ≡ words place) }
    ensures held { let words = words_of (F.log dev.old) (F.start dev.old) in
        let d = device_of set.now state.now.shift in
        (h : Held) → HoldsOn d h words → IsStateOn d h state.now
        → IfOk result (λ word. word ≡ slice_index (object_words h.objects o.0) i) }
    ensures lost { OnErr result (FaultCounted (F.lost dev.old) (F.lost dev.new)) }
    ensures log { F.log dev.new ≡ F.log dev.old }
    ensures start { F.start dev.new ≡ F.start dev.old }
    ensures never_falls { F.lost dev.old ≤ F.lost dev.new }
{
    // that the place fits a word is the limits of the set, and the length of the device
    let _ = set.objects();
    let _ = dev.len();
    let slot = state.slots[usize::from(o.0)];
    let at = Layout::of(set, state.shift).slot_at(o, slot) + u32::from(i);
    let word = dev.read(at)?;
    Ok(word)
}
