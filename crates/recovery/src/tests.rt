//! A device of format 1 by hand: each of its words by another one, a boot in its turns, and calls that are lost.

ghost use Rattle.std.specs.Prelude.{◌≡◌, ◌≤◌, IsTrue, length};
ghost use Rattle.device_model.specs.Devices.{need_on};
ghost use Rattle.shadow_index.specs.States.{HasTaken};
ghost use Rattle.recovery.specs.Images.{IsOwn, device_at, words_of};

use super::*;
use crate::laws::unmoved_words_are_first_device;
use fram_dev::{Fram, MemFram};
use nv_base::{NoMemory, ObjId, ProgId, Spawn};
use shadow_index::{DeviceKind, State, need};
use std::test::Fail;
use task_set::{
    Name, ObjPart, ObjectParts, ProgPart, ProgramParts, SetParts, TaskSet, Tasks, Words,
};

// one object of one word in two slots, one program of twelve words, one record
pub(crate) fn small_set(rt: &HostRuntime, format: u8) -> Result<Option<TaskSet>, NoMemory> {
    let mut objects = ObjectParts::new(rt.alloc());
    objects.push(ObjPart {
        name: Name::from_slice(rt.alloc(), b"x")?,
        size: 1,
        slots: 2,
        first: Words::from_slice(rt.alloc(), &[5])?,
    })?;
    let mut programs = ProgramParts::new(rt.alloc());
    programs.push(ProgPart {
        name: Name::from_slice(rt.alloc(), b"add")?,
        fuel: 100,
        code: Words::from_slice(rt.alloc(), &[115; 12])?,
    })?;
    let task = Spawn {
        program: ProgId(0),
        arg: 7,
    };
    let parts = SetParts {
        format,
        cores: 1,
        memory: 1024,
        records: 1,
        objects,
        programs,
        tasks: Tasks::from_slice(rt.alloc(), &[task])?,
    };
    Ok(TaskSet::build(rt.alloc(), parts).ok())
}

// Its device after six boots: a task trapped at point 1 and left two children, of which one is open; x is 9, in slot 1.
// The header stands at 0, the code at 10, the index at 22, its other copy at 35, and the slots at 48.
const DEVICE: [u32; 50] = [
    0x314B_564E,
    1,
    6,
    1,
    1,
    1,
    1024,
    0x201,
    100,
    12, //
    115,
    115,
    115,
    115,
    115,
    115,
    115,
    115,
    115,
    115,
    115,
    115, //
    1,
    1,
    4,
    1,
    1,
    15,
    0,
    2,
    1,
    1,
    3,
    0,
    8, //
    0,
    0,
    0,
    0,
    0,
    0,
    0,
    0,
    0,
    0,
    0,
    0,
    0, //
    5,
    9,
];

// of each index word, where the first faulty word stands once that one is 0, 1 or 2 ^ 32 - 1, and 0 where none is faulty
const FAULTS: [[u32; 3]; 13] = [
    [26, 0, 23],
    [23, 0, 0],
    [24, 25, 29],
    [25, 0, 25],
    [0, 0, 26],
    [0, 0, 27],
    [0, 28, 28],
    [29, 29, 29],
    [32, 0, 30],
    [0, 0, 31],
    [32, 0, 32],
    [0, 33, 33],
    [0, 0, 0],
];

// what stands in the device once a word is another one: the three that are tried come by number
fn told(at: u32, other: usize) -> Result<(), BootRefusal>
    requires { other ≤ 2 }
{
    let place = match at {
        0 if other == 0 => return Err(BootRefusal::Blank),
        0 => return Err(BootRefusal::Damaged(0)),
        1 | 3 | 4 | 5 if other == 1 => 0,
        2 => 0,
        1..=21 => at,
        22..=34 => FAULTS[(at - 22) as usize][other],
        _ => 0,
    };
    if place == 0 {
        return Ok(());
    }
    Err(BootRefusal::Damaged(place))
}

// whether a device is one that a format of the set wrote, or none, and is large enough
fn fits<F: Fram>(dev: &mut F, set: &TaskSet) -> bool
    ensures own { IsTrue result → IsOwn set.now (words_of (F.log dev.old) (F.start dev.old)) }
    ensures room { let words = words_of (F.log dev.old) (F.start dev.old) in
        IsTrue result → need_on (device_at set.now words) ≤ length (F.start dev.old) }
    ensures log { F.log dev.new ≡ F.log dev.old }
    ensures start { F.start dev.new ≡ F.start dev.old }
{
    unmoved_words_are_first_device();
    if dev.len() == 0 || dev.len() < need(set) {
        return false;
    }
    let format = set.format();
    match dev.read(0) {
        Err(_) => false,
        Ok(word) => {
            word != DeviceKind::Migrated.magic()
                && (format != 2 || word != DeviceKind::Plain.magic())
        }
    }
}

// reads the device once one of its words is another one
fn read_with(
    rt: &HostRuntime,
    set: &TaskSet,
    at: usize,
    other: u32,
) -> Result<Option<Result<(), BootRefusal>>, NoMemory> {
    let mut words = DEVICE;
    if let Some(word) = words.get_mut(at) {
        *word = other;
    }
    let mut dev = MemFram::new(rt.alloc(), &words, 1)?;
    let mut state = State::room(rt.alloc(), set)?;
    if !fits(&mut dev, set) {
        return Ok(None);
    }
    Ok(Some(read_state(&mut dev, set, &mut state)))
}

#[test]
fn each_word_is_looked_at(rt: HostRuntime) -> Result<(), Fail> {
    let Some(set) = small_set(&rt, 1)? else {
        return Err(Fail::new("the set is within its limits"));
    };
    for at in 0..50 {
        assert!(rt; read_with(&rt, &set, at, 0)? == Some(told(at as u32, 0)));
        assert!(rt; read_with(&rt, &set, at, 1)? == Some(told(at as u32, 1)));
        assert!(rt; read_with(&rt, &set, at, u32::MAX)? == Some(told(at as u32, 2)));
    }
    Ok(())
}

// boots a device, and answers how many turns it took
fn boot_whole<F: Fram>(
    dev: &mut F,
    set: &TaskSet,
    into: &mut State,
) -> Option<Result<u32, BootRefusal>>
    requires { HasTaken set.now 0 into.old }
{
    if !fits(dev, set) {
        return None;
    }
    match dev.read(2) {
        Ok(boots) if boots < u32::MAX => {}
        _ => return None,
    }
    let mut boot = Boot::begin(set);
    for turn in 0..100 {
        match boot.turn(dev, set, into) {
            Ok(BootTurn::More) => {}
            Ok(BootTurn::Done) => return Some(Ok(turn + 1)),
            Err(refusal) => return Some(Err(refusal)),
        }
    }
    None
}

#[test]
fn a_boot_counts_in_its_last_turn(rt: HostRuntime) -> Result<(), Fail> {
    let Some(set) = small_set(&rt, 1)? else {
        return Err(Fail::new("the set is within its limits"));
    };
    let mut dev = MemFram::new(rt.alloc(), &DEVICE, 1)?;
    let mut state = State::room(rt.alloc(), &set)?;
    assert!(rt; boot_whole(&mut dev, &set, &mut state) == Some(Ok(36)));
    assert!(rt; matches!(dev.words().get(2), Some(7)));
    assert_eq!(rt;
        [
            state.clock.0,
            state.next.0,
            state.boots,
            state.root,
            state.shift
        ],
        [1, 4, 7, 1, 0]
    );
    for made in [false, true] {
        let mut dev = MemFram::fused(rt.alloc(), &DEVICE, 0, made)?;
        let mut state = State::room(rt.alloc(), &set)?;
        assert!(rt; boot_whole(&mut dev, &set, &mut state) == Some(Err(BootRefusal::Lost)));
        assert!(rt; dev.words().get(2).copied() == Some(if made { 7 } else { 6 }));
    }
    Ok(())
}

// reads the state of a device that no migration wrote, and then the first word of object 0
pub(crate) fn first_word<F: Fram>(dev: &mut F, set: &TaskSet, into: &mut State) -> Option<u32>
    requires { HasTaken set.now 0 into.old }
{
    if !fits(dev, set) {
        return None;
    }
    read_word(dev, set, into)
}

// the same of a device that is large enough
pub(crate) fn read_word<F: Fram>(dev: &mut F, set: &TaskSet, into: &mut State) -> Option<u32>
    requires state { HasTaken set.now 0 into.old }
    requires own { IsOwn set.now (words_of (F.log dev.old) (F.start dev.old)) }
    requires room { let words = words_of (F.log dev.old) (F.start dev.old) in
        need_on (device_at set.now words) ≤ length (F.start dev.old) }
{
    let Ok(()) = read_state(dev, set, into) else {
        return None;
    };
    if set.objects() == 0 || set.size(ObjId(0)) == 0 || set.slots(ObjId(0)) <= into.slots[0] {
        return None;
    }
    read_object(dev, set, into, ObjId(0), 0).ok()
}

#[test]
fn an_object_is_read_in_its_slot(rt: HostRuntime) -> Result<(), Fail> {
    let Some(set) = small_set(&rt, 1)? else {
        return Err(Fail::new("the set is within its limits"));
    };
    let mut dev = MemFram::new(rt.alloc(), &DEVICE, 1)?;
    let mut state = State::room(rt.alloc(), &set)?;
    assert!(rt; first_word(&mut dev, &set, &mut state) == Some(9));
    Ok(())
}
