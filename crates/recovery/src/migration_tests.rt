//! A migration by hand: whole, cut at each of its writes, and on a device that is too small.

ghost use Rattle.std.specs.Prelude.{◌≡◌, ◌≤◌, IsTrue, length};
ghost use Rattle.device_model.specs.Devices.{need_on};
ghost use Rattle.shadow_index.specs.States.{HasTaken};
ghost use Rattle.recovery.specs.Images.{IsOwn, device_at, words_of};

use super::*;
use crate::laws::moved_words_are_migrated_device;
use crate::tests::{first_word, read_word, small_set};
use fram_dev::{Fram, MemFram};
use nv_base::NoMemory;
use shadow_index::{DeviceKind, Layout, State, need};
use std::test::Fail;
use task_set::TaskSet;

// The device of the set after a format, in format 1: the header at 0, the code at 10, the index at 22, its other copy at
// 35, and the slots at 48. Number 0, x is 5, and task 1 is open.
const FORMATTED: [u32; 50] = [
    0x314B_564E,
    1,
    0,
    1,
    1,
    1,
    1024,
    0x201,
    100,
    12,
    115,
    115,
    115,
    115,
    115,
    115,
    115,
    115,
    115,
    115,
    115,
    115,
    0,
    0,
    2,
    0,
    0,
    0,
    0,
    0,
    1,
    0,
    1,
    0,
    7,
    0,
    0,
    0,
    0,
    0,
    0,
    0,
    0,
    0,
    0,
    0,
    0,
    0,
    5,
    0,
];

// with words behind it that a migration writes
fn old_words() -> [u32; 117] {
    let mut words = [9; 117];
    words[..50].copy_from_slice(&FORMATTED);
    words
}

// migrates a device, where a set of format 2 fits it
fn migrated<F: Fram>(
    dev: &mut F,
    set: &TaskSet,
    into: &mut State,
) -> Option<Result<(), MigrateRefusal>>
    requires { HasTaken set.now 0 into.old }
{
    if set.format() != 2 || dev.len() < need(set) {
        return None;
    }
    Some(migrate(dev, set, into))
}

// whether a device was migrated, and is large enough
fn fits_moved<F: Fram>(dev: &mut F, set: &TaskSet) -> bool
    ensures own { IsTrue result → IsOwn set.now (words_of (F.log dev.old) (F.start dev.old)) }
    ensures room { let words = words_of (F.log dev.old) (F.start dev.old) in
        IsTrue result → need_on (device_at set.now words) ≤ length (F.start dev.old) }
    ensures log { F.log dev.new ≡ F.log dev.old }
    ensures start { F.start dev.new ≡ F.start dev.old }
{
    moved_words_are_migrated_device();
    if set.format() != 2 || dev.len() < Layout::of_kind(set, DeviceKind::Migrated).need() {
        return false;
    }
    match dev.read(0) {
        Err(_) => false,
        Ok(word) => word == DeviceKind::Migrated.magic(),
    }
}

// reads the state of a device that a migration wrote, and then the first word of object 0
fn moved_word<F: Fram>(dev: &mut F, set: &TaskSet, into: &mut State) -> Option<u32>
    requires { HasTaken set.now 0 into.old }
{
    if !fits_moved(dev, set) {
        return None;
    }
    read_word(dev, set, into)
}

// whether a state is the first one of the set
fn is_first(state: &State) -> bool {
    state.number.0 == 0 && state.tasks.len() == 1 && state.next.0 == 2
}

// whether a device holds the first state in format 1
fn holds_plain(rt: &HostRuntime, dev: &mut MemFram, set: &TaskSet) -> Result<bool, NoMemory> {
    let mut state = State::room(rt.alloc(), set)?;
    let word = first_word(dev, set, &mut state);
    Ok(word == Some(5) && is_first(&state))
}

// whether a device holds it in format 2
fn holds_moved(rt: &HostRuntime, dev: &mut MemFram, set: &TaskSet) -> Result<bool, NoMemory> {
    let mut state = State::room(rt.alloc(), set)?;
    let word = moved_word(dev, set, &mut state);
    Ok(word == Some(5) && is_first(&state))
}

// whether a device that is cut at write k of its migration holds the first state, in format 1 or in format 2
fn is_cut_well(
    rt: &HostRuntime,
    plain: &TaskSet,
    set: &TaskSet,
    k: u32,
    made: bool,
) -> Result<bool, NoMemory> {
    let mut dev = MemFram::fused(rt.alloc(), &old_words(), k, made)?;
    let mut state = State::room(rt.alloc(), set)?;
    let whole = migrated(&mut dev, set, &mut state) == Some(Ok(()));
    let mut after = dev.restore(rt.alloc(), 1)?;
    if k > 67 || k == 67 && made {
        return Ok(whole == (k > 67) && holds_moved(rt, &mut after, set)?);
    }
    Ok(!whole && holds_plain(rt, &mut after, plain)?)
}

#[test]
fn a_migration_is_cut_at_each_write(rt: HostRuntime) -> Result<(), Fail> {
    let (Some(plain), Some(set)) = (small_set(&rt, 1)?, small_set(&rt, 2)?) else {
        return Err(Fail::new("the sets are within their limits"));
    };
    for k in 0..69 {
        assert!(rt; is_cut_well(&rt, &plain, &set, k, false)?);
        assert!(rt; is_cut_well(&rt, &plain, &set, k, true)?);
    }
    Ok(())
}

#[test]
fn a_small_device_is_not_migrated(rt: HostRuntime) -> Result<(), Fail> {
    let Some(set) = small_set(&rt, 2)? else {
        return Err(Fail::new("the set is within its limits"));
    };
    let small = MigrateRefusal::Small {
        need: 117,
        len: 116,
    };
    for (len, told) in [(116, Err(small)), (117, Ok(()))] {
        let mut dev = MemFram::new(rt.alloc(), &old_words()[..len], 68)?;
        let mut state = State::room(rt.alloc(), &set)?;
        assert!(rt; migrated(&mut dev, &set, &mut state) == Some(told));
    }
    Ok(())
}
