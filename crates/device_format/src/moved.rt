//! The slots of a state that a migration moves: each object is read from its old slot, and put in slot 0.

ghost use Rattle.std.specs.Prelude.{ℕ, ◌≡◌, ◌<◌, ◌≤◌, ◌^◌, OnOk, OnErr, length, slice_index, sum_by};
ghost use Rattle.nv_base.specs.Streams.{FaultCounted};
ghost use Rattle.fram_dev.specs.Device.{made_in};
ghost use Rattle.set_model.specs.Sets.{object_at};
ghost use Rattle.device_model.specs.Words.{Words};
ghost use Rattle.device_model.specs.Layouts.{slot_place, slots_at, slots_words};
ghost use Rattle.device_model.specs.Devices.{layout_on, need_on, plain};
ghost use Rattle.shadow_index.specs.Tells.{IsLayoutOf};
ghost use Rattle.device_format.specs.Puts.{HasPut, HasPutFront};
ghost use Rattle.device_format.specs.Fresh.{HasObject, HasObjects};
ghost use Rattle.device_format.specs.Shown.{IsStateOf, IsTable, device_in};
ghost use Rattle.device_format.specs.Moves.{IsInSlots, old_words};

use crate::puts::copy_words;
use crate::slots::put_other_slots;
use fram_dev::{Fram, Lost};
use nv_base::ObjId;
use nv_base::limits::{MAX_OBJECTS, MAX_SLOTS};
use shadow_index::{Layout, State};
use task_set::TaskSet;

/// Puts all objects, each from its slot in format 1. `Lost` where the device loses a call.
pub(crate) fn put_moved_objects<F: Fram>(
    dev: &mut F,
    set: &TaskSet,
    places: &Layout,
    old: &Layout,
    state: &State,
) -> Result<(), Lost>
    requires table { IsTable set.now places.now }
    requires old_table { IsLayoutOf (plain set.now) old.now }
    requires behind { need_on (plain set.now)
        ≤ slots_at (layout_on (device_in set.now places.now)) }
    requires room { need_on (device_in set.now places.now) ≤ length (F.start dev.old) }
    requires small { need_on (device_in set.now places.now) < 2 ^ 32 }
    requires state { IsStateOf set.now state.now }
    requires slots { IsInSlots set.now state.now }
    ensures put { (w : Words) → let l = layout_on (device_in set.now places.now) in
        let all = sum_by slots_words set.now.objects in
        let image = slice_index (made_in (F.log dev.old) (F.start dev.old)) in
        HasObjects l set.now (old_words set.now state.now image) w
        → OnOk result (HasPut w (slots_at l) all (F.log dev.old) (F.log dev.new)) }
    ensures front { (w : Words) → let l = layout_on (device_in set.now places.now) in
        let all = sum_by slots_words set.now.objects in
        let image = slice_index (made_in (F.log dev.old) (F.start dev.old)) in
        HasObjects l set.now (old_words set.now state.now image) w
        → OnErr result (HasPutFront w (slots_at l) all (F.log dev.old) (F.log dev.new)) }
    ensures same { F.start dev.new ≡ F.start dev.old }
    ensures failed { OnErr result (FaultCounted (F.lost dev.old) (F.lost dev.new)) }
    ensures never_falls { F.lost dev.old ≤ F.lost dev.new }
{
    for o in 0..set.objects() {
        put_moved_object(dev, set, places, old, state, ObjId(o))?;
    }
    Ok(())
}

/// Puts an object, and 0 in its other slots.
fn put_moved_object<F: Fram>(
    dev: &mut F,
    set: &TaskSet,
    places: &Layout,
    old: &Layout,
    state: &State,
    o: ObjId,
) -> Result<(), Lost>
    requires table { IsTable set.now places.now }
    requires old_table { IsLayoutOf (plain set.now) old.now }
    requires behind { need_on (plain set.now)
        ≤ slots_at (layout_on (device_in set.now places.now)) }
    requires room { need_on (device_in set.now places.now) ≤ length (F.start dev.old) }
    requires small { need_on (device_in set.now places.now) < 2 ^ 32 }
    requires state { IsStateOf set.now state.now }
    requires slots { IsInSlots set.now state.now }
    requires object { o.0 < length set.now.objects }
    requires few { o.0 < MAX_OBJECTS }
    ensures put { (w : Words) → let l = layout_on (device_in set.now places.now) in
        let all = slots_words (object_at set.now o.0) in
        let image = slice_index (made_in (F.log dev.old) (F.start dev.old)) in
        HasObject l set.now o.0 (old_words set.now state.now image o.0) w → OnOk result
        (HasPut w (slot_place l set.now o.0 0) all (F.log dev.old) (F.log dev.new)) }
    ensures front { (w : Words) → let l = layout_on (device_in set.now places.now) in
        let all = slots_words (object_at set.now o.0) in
        let image = slice_index (made_in (F.log dev.old) (F.start dev.old)) in
        HasObject l set.now o.0 (old_words set.now state.now image o.0) w → OnErr result
        (HasPutFront w (slot_place l set.now o.0 0) all (F.log dev.old) (F.log dev.new)) }
    ensures same { F.start dev.new ≡ F.start dev.old }
    ensures failed { OnErr result (FaultCounted (F.lost dev.old) (F.lost dev.new)) }
    ensures never_falls { F.lost dev.old ≤ F.lost dev.new }
{
    let from = old.slot_at(o, state_slot(set, state, o));
    copy_words(dev, from, places.slot_at(o, 0), u32::from(set.size(o)))?;
    put_other_slots(dev, set, places, o)
}

/// The slot of an object's newest version.
fn state_slot(set: &TaskSet, state: &State, o: ObjId) -> u8
    requires state { IsStateOf set.now state.now }
    requires slots { IsInSlots set.now state.now }
    requires object { o.0 < length set.now.objects }
    ensures exact { result ≡ slice_index state.now.slots.items o.0 }
    ensures own { result < (object_at set.now o.0).slots }
    ensures few { result < MAX_SLOTS }
{
    // that there are few slots
    let _ = set.slots(o);
    state.slots[usize::from(o.0)]
}
