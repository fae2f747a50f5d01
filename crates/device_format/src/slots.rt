//! The slots of a state that is written anew: each object in slot 0, and 0 in the others.

ghost use Rattle.std.specs.Prelude.{ℕ, ◌≡◌, ◌+◌, ◌-◌, ◌*◌, ◌<◌, ◌≤◌, ◌^◌, OnOk, OnErr, length, slice_index, sum_by};
ghost use Rattle.nv_base.specs.Streams.{FaultCounted};
ghost use Rattle.set_model.specs.Sets.{object_at};
ghost use Rattle.device_model.specs.Words.{Words};
ghost use Rattle.device_model.specs.Layouts.{slot_place, slots_at, slots_words};
ghost use Rattle.device_model.specs.Devices.{layout_on, need_on};
ghost use Rattle.device_format.specs.Puts.{HasPut, HasPutFront};
ghost use Rattle.device_format.specs.Fresh.{HasObject, HasObjects};
ghost use Rattle.device_format.specs.Shown.{IsTable, device_in};

use crate::puts::{put_words, put_zeros};
use fram_dev::{Fram, Lost};
use nv_base::ObjId;
use nv_base::limits::MAX_OBJECTS;
use shadow_index::Layout;
use task_set::TaskSet;

/// Puts the first words of all objects. `Lost` where the device loses a write.
pub(crate) fn put_first_objects<F: Fram>(
    dev: &mut F,
    set: &TaskSet,
    places: &Layout,
) -> Result<(), Lost>
    requires table { IsTable set.now places.now }
    requires room { need_on (device_in set.now places.now) ≤ length (F.start dev.old) }
    requires small { need_on (device_in set.now places.now) < 2 ^ 32 }
    ensures put { (w : Words) → let l = layout_on (device_in set.now places.now) in
        let all = sum_by slots_words set.now.objects in
        HasObjects l set.now (λ o. slice_index (object_at set.now o).first) w
        → OnOk result (HasPut w (slots_at l) all (F.log dev.old) (F.log dev.new)) }
    ensures front { (w : Words) → let l = layout_on (device_in set.now places.now) in
        let all = sum_by slots_words set.now.objects in
        HasObjects l set.now (λ o. slice_index (object_at set.now o).first) w
        → OnErr result (HasPutFront w (slots_at l) all (F.log dev.old) (F.log dev.new)) }
    ensures same { F.start dev.new ≡ F.start dev.old }
    ensures failed { OnErr result (FaultCounted (F.lost dev.old) (F.lost dev.new)) }
    ensures never_falls { F.lost dev.old ≤ F.lost dev.new }
{
    for o in 0..set.objects() {
        put_first_object(dev, set, places, ObjId(o))?;
    }
    Ok(())
}

/// Puts the first words of an object, and 0 in its other slots.
fn put_first_object<F: Fram>(
    dev: &mut F,
    set: &TaskSet,
    places: &Layout,
    o: ObjId,
) -> Result<(), Lost>
    requires table { IsTable set.now places.now }
    requires room { need_on (device_in set.now places.now) ≤ length (F.start dev.old) }
    requires small { need_on (device_in set.now places.now) < 2 ^ 32 }
    requires object { o.0 < length set.now.objects }
    requires few { o.0 < MAX_OBJECTS }
    ensures put { (w : Words) → let l = layout_on (device_in set.now places.now) in
        let all = slots_words (object_at set.now o.0) in
        HasObject l set.now o.0 (slice_index (object_at set.now o.0).first) w → OnOk result
        (HasPut w (slot_place l set.now o.0 0) all (F.log dev.old) (F.log dev.new)) }
    ensures front { (w : Words) → let l = layout_on (device_in set.now places.now) in
        let all = slots_words (object_at set.now o.0) in
        HasObject l set.now o.0 (slice_index (object_at set.now o.0).first) w → OnErr result
        (HasPutFront w (slot_place l set.now o.0 0) all (F.log dev.old) (F.log dev.new)) }
    ensures same { F.start dev.new ≡ F.start dev.old }
    ensures failed { OnErr result (FaultCounted (F.lost dev.old) (F.lost dev.new)) }
    ensures never_falls { F.lost dev.old ≤ F.lost dev.new }
{
    put_words(dev, places.slot_at(o, 0), set.first(o))?;
    put_other_slots(dev, set, places, o)
}

/// Puts 0 in all slots of an object behind slot 0.
pub(crate) fn put_other_slots<F: Fram>(
    dev: &mut F,
    set: &TaskSet,
    places: &Layout,
    o: ObjId,
) -> Result<(), Lost>
    requires table { IsTable set.now places.now }
    requires room { need_on (device_in set.now places.now) ≤ length (F.start dev.old) }
    requires small { need_on (device_in set.now places.now) < 2 ^ 32 }
    requires object { o.0 < length set.now.objects }
    requires few { o.0 < MAX_OBJECTS }
    ensures put { (w : Words) (own : Words) → let l = layout_on (device_in set.now places.now) in
        let size = (object_at set.now o.0).size in
        let count = slots_words (object_at set.now o.0) - size in
        HasObject l set.now o.0 own w → OnOk result
        (HasPut w (slot_place l set.now o.0 0 + size) count (F.log dev.old) (F.log dev.new)) }
    ensures front { (w : Words) (own : Words) → let l = layout_on (device_in set.now places.now) in
        let size = (object_at set.now o.0).size in
        let count = slots_words (object_at set.now o.0) - size in
        HasObject l set.now o.0 own w → OnErr result
        (HasPutFront w (slot_place l set.now o.0 0 + size) count (F.log dev.old) (F.log dev.new)) }
    ensures same { F.start dev.new ≡ F.start dev.old }
    ensures failed { OnErr result (FaultCounted (F.lost dev.old) (F.lost dev.new)) }
    ensures never_falls { F.lost dev.old ≤ F.lost dev.new }
{
    let count = u32::from(set.size(o)) * u32::from(set.slots(o) - 1);
    put_zeros(dev, places.slot_at(o, 1), count)
}
