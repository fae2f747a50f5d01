//! The objects, read back word by word.

ghost use Rattle.std.specs.Prelude.{◌≡◌, ◌<◌, ◌≤◌, IfErr, OnErr, OnOk, length, vec_capacity};
ghost use Rattle.nv_base.specs.Streams.{FaultCounted, PutsText};
ghost use Rattle.nv_base.specs.declared.limits.TheConstants.{MAX_SIZE};
ghost use Rattle.kernel_model.specs.Effects.{object_words};
ghost use Rattle.set_model.specs.Sets.{object_at};
ghost use Rattle.device_model.specs.Devices.{need_on};
ghost use Rattle.recovery.specs.Images.{device_at, words_of};
ghost use Rattle.recovery.specs.Reading.{IsRead};
ghost use Rattle.simulation.specs.Runs.{IsHalted, object_part, objects_part, read_at};

use crate::halt::Halt;
use crate::place::Place;
use fram_dev::{Fram, Lost};
use nv_base::{ObjId, Sink, put_all};
use recovery::read_object;
use shadow_index::State;
use task_set::TaskSet;

/// The words of an object. `Lost` where the device lost a call.
fn read_words<F: Fram>(
    dev: &mut F,
    set: &TaskSet,
    state: &State,
    o: ObjId,
    into: &mut Vec<u32>,
) -> Result<(), Lost>
    requires read { let words = words_of (F.log dev.old) (F.start dev.old) in
        IsRead set.now words state.now }
    requires long { let words = words_of (F.log dev.old) (F.start dev.old) in
        need_on (device_at set.now words) ≤ length (F.start dev.old) }
    requires object { o.0 < length set.now.objects }
    requires room { MAX_SIZE ≤ vec_capacity into.old }
    ensures words { let words = words_of (F.log dev.old) (F.start dev.old) in
        OnOk result (into.new.items ≡ object_words (read_at set.now words).objects o.0) }
    ensures len { OnOk result (length into.new.items ≡ (object_at set.now o.0).size) }
    ensures room { vec_capacity into.new ≡ vec_capacity into.old }
    ensures lost { OnErr result (FaultCounted (F.lost dev.old) (F.lost dev.new)) }
    ensures log { F.log dev.new ≡ F.log dev.old }
    ensures start { F.start dev.new ≡ F.start dev.old }
    ensures never_falls { F.lost dev.old ≤ F.lost dev.new }
{
    // that the set keeps its limits
    let _ = set.objects();
    into.clear();
    for i in 0..set.size(o) {
        let Ok(word) = read_object(dev, set, state, o, i) else {
            return Err(Lost);
        };
        into.push_reserved(word);
    }
    Ok(())
}

/// Puts the line of an object, with its words as the device has them.
fn put_object<K: Sink, F: Fram>(
    dev: &mut F,
    set: &TaskSet,
    place: &mut Place,
    o: ObjId,
    out: &mut K,
) -> Result<(), Halt>
    requires read { let words = words_of (F.log dev.old) (F.start dev.old) in
        IsRead set.now words place.old.state }
    requires long { let words = words_of (F.log dev.old) (F.start dev.old) in
        need_on (device_at set.now words) ≤ length (F.start dev.old) }
    requires object { o.0 < length set.now.objects }
    requires room { MAX_SIZE ≤ vec_capacity place.old.words }
    ensures put { let words = words_of (F.log dev.old) (F.start dev.old) in
        OnOk result (PutsText (object_part set.now words o.0) (K.seen out.old) (K.seen out.new)) }
    ensures halted { let words = words_of (F.log dev.old) (F.start dev.old) in
        IfErr result (IsHalted (object_part set.now words o.0)
        (F.lost dev.old) (F.lost dev.new) (K.seen out.old) (K.seen out.new)) }
    ensures state { place.new.state ≡ place.old.state }
    ensures room { vec_capacity place.new.words ≡ vec_capacity place.old.words }
    ensures log { F.log dev.new ≡ F.log dev.old }
    ensures start { F.start dev.new ≡ F.start dev.old }
    ensures never_falls { F.lost dev.old ≤ F.lost dev.new }
{
    let Ok(()) = read_words(dev, set, &place.state, o, &mut place.words) else {
        return Err(Halt::DeviceLost);
    };
    place.text.put_object(set, o, place.words.as_slice());
    match put_all(out, place.text.bytes()) {
        Ok(()) => Ok(()),
        Err(_) => Err(Halt::WriteFault),
    }
}

/// Puts a line for each object.
pub(crate) fn put_objects<K: Sink, F: Fram>(
    dev: &mut F,
    set: &TaskSet,
    place: &mut Place,
    out: &mut K,
) -> Result<(), Halt>
    requires read { let words = words_of (F.log dev.old) (F.start dev.old) in
        IsRead set.now words place.old.state }
    requires long { let words = words_of (F.log dev.old) (F.start dev.old) in
        need_on (device_at set.now words) ≤ length (F.start dev.old) }
    requires room { MAX_SIZE ≤ vec_capacity place.old.words }
    ensures put { let words = words_of (F.log dev.old) (F.start dev.old) in
        OnOk result (PutsText (objects_part set.now words) (K.seen out.old) (K.seen out.new)) }
    ensures halted { let words = words_of (F.log dev.old) (F.start dev.old) in
        IfErr result (IsHalted (objects_part set.now words)
        (F.lost dev.old) (F.lost dev.new) (K.seen out.old) (K.seen out.new)) }
    ensures state { place.new.state ≡ place.old.state }
    ensures log { F.log dev.new ≡ F.log dev.old }
    ensures start { F.start dev.new ≡ F.start dev.old }
    ensures never_falls { F.lost dev.old ≤ F.lost dev.new }
{
    for o in 0..set.objects() {
        if let Err(halt) = put_object(dev, set, place, ObjId(o), out) {
            return Err(halt);
        }
    }
    Ok(())
}
