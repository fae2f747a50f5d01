//! What a migration writes: all words of format 2 behind those of format 1, in order of place, and the magic last.

ghost use Rattle.std.specs.Prelude.{ℕ, ◌≡◌, ◌-◌, ◌<◌, ◌≤◌, ◌^◌, ◌++◌, OnOk, OnErr, length, slice_index};
ghost use Rattle.nv_base.specs.Streams.{FaultCounted};
ghost use Rattle.fram_dev.specs.Device.{made_in};
ghost use Rattle.set_model.specs.Limits.{IsTaskSet};
ghost use Rattle.set_model.specs.Numbers.{words_needed};
ghost use Rattle.device_model.specs.Decoding.{Held};
ghost use Rattle.device_model.specs.Migrations.{migration_writes, moved_word};
ghost use Rattle.device_model.specs.Devices.{migrated, need_on};
ghost use Rattle.shadow_index.specs.Tells.{IsLayoutOf};
ghost use Rattle.device_format.specs.Puts.{HasFront, HasPut, HasPutFront};
ghost use Rattle.device_format.specs.Moves.{IsMovable};

use crate::moved::put_moved_objects;
use crate::pages::put_pages;
use fram_dev::{Fram, Lost};
use shadow_index::{DeviceKind, Layout, State};
use task_set::TaskSet;

/// Writes the state of a device of format 1 anew as one of format 2: first behind its words, and then the magic. `Lost`
/// where the device loses a call: then the first writes of the migration are made, and no others.
pub fn move_words<F: Fram>(dev: &mut F, set: &TaskSet, state: &State) -> Result<(), Lost>
    requires room { need_on (migrated set.now) ≤ length (F.start dev.old) }
    requires format { set.now.format ≡ 2 }
    requires holds { let image = slice_index (made_in (F.log dev.old) (F.start dev.old)) in
        (h : Held) × IsMovable set.now state.now image h }
    ensures whole { (h : Held)
        → let image = slice_index (made_in (F.log dev.old) (F.start dev.old)) in
        IsMovable set.now state.now image h
        → OnOk result (F.log dev.new ≡ F.log dev.old ++ migration_writes set.now h) }
    ensures front { (h : Held)
        → let image = slice_index (made_in (F.log dev.old) (F.start dev.old)) in
        IsMovable set.now state.now image h
        → OnErr result (HasFront (migration_writes set.now h) (F.log dev.old) (F.log dev.new)) }
    ensures same { F.start dev.new ≡ F.start dev.old }
    ensures failed { OnErr result (FaultCounted (F.lost dev.old) (F.lost dev.new)) }
    ensures never_falls { F.lost dev.old ≤ F.lost dev.new }
{
    // that the set keeps its limits, and that each place is a word
    let _ = set.format();
    let _ = dev.len();
    let places = Layout::of_kind(set, DeviceKind::Migrated);
    put_moved(dev, set, &places, state)?;
    dev.write(0, places.kind().magic())
}

/// Each word behind those of format 1.
fn put_moved<F: Fram>(
    dev: &mut F,
    set: &TaskSet,
    places: &Layout,
    state: &State,
) -> Result<(), Lost>
    requires set { IsTaskSet set.now }
    requires table { IsLayoutOf (migrated set.now) places.now }
    requires room { need_on (migrated set.now) ≤ length (F.start dev.old) }
    requires small { need_on (migrated set.now) < 2 ^ 32 }
    requires holds { let image = slice_index (made_in (F.log dev.old) (F.start dev.old)) in
        (h : Held) × IsMovable set.now state.now image h }
    ensures put { (h : Held)
        → let image = slice_index (made_in (F.log dev.old) (F.start dev.old)) in
        let from = words_needed set.now in
        let count = need_on (migrated set.now) - from in
        IsMovable set.now state.now image h → OnOk result
        (HasPut (moved_word set.now h) from count (F.log dev.old) (F.log dev.new)) }
    ensures front { (h : Held)
        → let image = slice_index (made_in (F.log dev.old) (F.start dev.old)) in
        let from = words_needed set.now in
        let count = need_on (migrated set.now) - from in
        IsMovable set.now state.now image h → OnErr result
        (HasPutFront (moved_word set.now h) from count (F.log dev.old) (F.log dev.new)) }
    ensures same { F.start dev.new ≡ F.start dev.old }
    ensures failed { OnErr result (FaultCounted (F.lost dev.old) (F.lost dev.new)) }
    ensures never_falls { F.lost dev.old ≤ F.lost dev.new }
{
    let old = Layout::of_kind(set, DeviceKind::Plain);
    dev.write(places.root_at(), places.first_root())?;
    put_pages(dev, set, places, state)?;
    put_moved_objects(dev, set, places, &old, state)
}
