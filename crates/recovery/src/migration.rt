//! A migration: the state of a device of format 1 is read, and moved behind its words as one of format 2.

ghost use Rattle.std.specs.Prelude.{ℕ, ◌≡◌, ◌≢◌, ◌≤◌, ◌⊎◌, IfErr, OnErr, OnOk, length};
ghost use Rattle.device_model.specs.Words.{Words};
ghost use Rattle.device_model.specs.Decoding.{Held, durable_of, is_worn};
ghost use Rattle.device_model.specs.Migrations.{moved_held};
ghost use Rattle.device_model.specs.Devices.{HoldsOn, migrated, need_on, plain};
ghost use Rattle.shadow_index.specs.States.{HasTaken, index_of};
ghost use Rattle.shadow_index.specs.Tells.{device_of};
ghost use Rattle.recovery.specs.Images.{words_of};
ghost use Rattle.recovery.specs.Reading.{IsRefused};
ghost use Rattle.recovery.specs.Migrating.{CanMove, HasBegun, HasMoved, IsMigrated, IsMovedKind, IsPlainIn, IsUnmigrated};

use crate::reader::Reader;
use crate::reading::read_rest;
use crate::refusals::{BootRefusal, MigrateRefusal};
use device_format::move_words;
use fram_dev::Fram;
use shadow_index::{DeviceKind, Layout, State};
use task_set::TaskSet;

// The greatest number of finishes, ids or boots with which a kernel goes on.
const MOST_WORN: u32 = 4_000_000_000;

/// Makes a device of format 2 of one of format 1. Where word 0 names neither format 1 nor what a migration leaves,
/// nothing is to be done; so it is, where the device has words enough, if it was migrated before. `Small` where it has
/// too few, `Damaged` at the place of the first faulty word, `Worn` where numbers could run out, and then nothing was
/// written; `Lost` where the device lost a call, and then the first writes of the migration may be made.
pub fn migrate<F: Fram>(dev: &mut F, set: &TaskSet, into: &mut State) -> Result<(), MigrateRefusal>
    requires format { set.now.format ≡ 2 }
    requires room { need_on (device_of set.now 0) ≤ length (F.start dev.old) }
    requires state { HasTaken set.now 0 into.old }
    ensures migrated { let words = words_of (F.log dev.old) (F.start dev.old) in
        let len = length (F.start dev.old) in
        OnOk result (IsMigrated set.now words len (F.log dev.old) (F.log dev.new)) }
    ensures refused { let words = words_of (F.log dev.old) (F.start dev.old) in
        let len = length (F.start dev.old) in
        IfErr result (IsUnmigrated set.now words len (F.lost dev.old) (F.lost dev.new)) }
    ensures unwritten { let words = words_of (F.log dev.old) (F.start dev.old) in
        let len = length (F.start dev.old) in OnErr result ((F.log dev.new ≡ F.log dev.old)
        ⊎ (result ≡ Err MigrateRefusal.Lost × CanMove set.now words len
        × HasBegun set.now words (F.log dev.old) (F.log dev.new))) }
    ensures moved { let words = words_of (F.log dev.old) (F.start dev.old) in
        (h : Held) → HoldsOn (plain set.now) h words
        → OnOk result (HoldsOn (migrated set.now) (moved_held set.now h)
        (words_of (F.log dev.new) (F.start dev.new))) }
    ensures cut { let words = words_of (F.log dev.old) (F.start dev.old) in
        let now = words_of (F.log dev.new) (F.start dev.new) in
        (h : Held) → HoldsOn (plain set.now) h words
        → OnErr result (HoldsOn (plain set.now) h now
        ⊎ HoldsOn (migrated set.now) (moved_held set.now h) now) }
    ensures state { HasTaken set.now 0 into.new }
    ensures start { F.start dev.new ≡ F.start dev.old }
    ensures never_falls { F.lost dev.old ≤ F.lost dev.new }
{
    // that the set keeps its limits
    let _ = set.format();
    let word = match dev.read(0) {
        Ok(word) => word,
        Err(_) => return Err(MigrateRefusal::Lost),
    };
    if word == DeviceKind::Plain.magic() {
        has_room(set, dev.len())?;
        return move_state(dev, set, into);
    }
    if word == DeviceKind::Migrated.magic() {
        has_room(set, dev.len())?;
        return Ok(());
    }
    Ok(())
}

// Whether a device of so many words has room for those of format 2 behind those of format 1.
fn has_room(set: &TaskSet, len: u32) -> Result<(), MigrateRefusal>
    ensures room { OnOk result (need_on (migrated set.now) ≤ len) }
    ensures small { (words : Words) (old new : ℕ) → IsMovedKind words
        → IfErr result (IsUnmigrated set.now words len old new) }
{
    let need = Layout::of_kind(set, DeviceKind::Migrated).need();
    if len < need {
        return Err(MigrateRefusal::Small { need, len });
    }
    Ok(())
}

// Moves the state of a device of format 1 that has room behind its words.
fn move_state<F: Fram>(dev: &mut F, set: &TaskSet, into: &mut State) -> Result<(), MigrateRefusal>
    requires format { set.now.format ≡ 2 }
    requires plain { let words = words_of (F.log dev.old) (F.start dev.old) in
        IsPlainIn set.now words (length (F.start dev.old)) }
    requires state { HasTaken set.now 0 into.old }
    ensures moved { let words = words_of (F.log dev.old) (F.start dev.old) in
        OnOk result (CanMove set.now words (length (F.start dev.old))
        × HasMoved set.now words (F.log dev.old) (F.log dev.new)) }
    ensures refused { let words = words_of (F.log dev.old) (F.start dev.old) in
        let len = length (F.start dev.old) in
        IfErr result (IsUnmigrated set.now words len (F.lost dev.old) (F.lost dev.new)) }
    ensures unwritten { let words = words_of (F.log dev.old) (F.start dev.old) in
        let len = length (F.start dev.old) in OnErr result ((F.log dev.new ≡ F.log dev.old)
        ⊎ (result ≡ Err MigrateRefusal.Lost × CanMove set.now words len
        × HasBegun set.now words (F.log dev.old) (F.log dev.new))) }
    ensures state { HasTaken set.now 0 into.new }
    ensures start { F.start dev.new ≡ F.start dev.old }
    ensures never_falls { F.lost dev.old ≤ F.lost dev.new }
{
    let mut reader = Reader::begin_plain(set, into);
    match read_rest(&mut reader, dev, set, into) {
        Err(refusal) => Err(told(refusal)),
        Ok(()) if is_worn(into) => Err(MigrateRefusal::Worn),
        Ok(()) => match move_words(dev, set, into) {
            Ok(()) => Ok(()),
            Err(_) => Err(MigrateRefusal::Lost),
        },
    }
}

// Why a device is not migrated that is not read: word 0 is not 0.
fn told(refusal: BootRefusal) -> MigrateRefusal
    requires { refusal ≢ BootRefusal.Blank }
    ensures damaged { (place : ℕ) → refusal ≡ BootRefusal.Damaged place
        → result ≡ MigrateRefusal.Damaged place }
    ensures lost { refusal ≡ BootRefusal.Lost → result ≡ MigrateRefusal.Lost }
{
    match refusal {
        BootRefusal::Damaged(place) => MigrateRefusal::Damaged(place),
        BootRefusal::Lost => MigrateRefusal::Lost,
        BootRefusal::Blank => unreachable!(),
    }
}

/// Whether so much has happened on a device that numbers could run out.
pub fn is_worn(state: &State) -> bool
    ensures { (h : Held) → index_of state.now ≡ h.index → state.now.boots ≡ h.boots
        → result ≡ is_worn (durable_of h) }
{
    state.number.0 > MOST_WORN || state.next.0 > MOST_WORN || state.boots > MOST_WORN
}
