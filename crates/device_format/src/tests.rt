//! A format by hand: whole, too large, and cut at each write.

ghost use Rattle.std.specs.Prelude.{◌≤◌, length};

use super::*;
use fram_dev::MemFram;
use nv_base::{NoMemory, ProgId, Spawn};
use std::test::Fail;
use task_set::{
    Name, ObjPart, ObjectParts, ProgPart, ProgramParts, SetParts, TaskSet, Tasks, Words,
};

// one object of one word in two slots, one program of twelve words, one task, one record
fn small_set(rt: &HostRuntime, format: u8) -> Result<Option<TaskSet>, NoMemory> {
    let mut objects = ObjectParts::new(rt.alloc());
    objects.push(ObjPart {
        name: Name::from_slice(rt.alloc(), b"x")?,
        size: 1,
        slots: 2,
        first: Words::from_slice(rt.alloc(), &[5])?,
    })?;
    let mut programs = ProgramParts::new(rt.alloc());
    programs.push(ProgPart {
        name: Name::from_slice(rt.alloc(), b"add")?,
        fuel: 100,
        code: Words::from_slice(rt.alloc(), &[115; 12])?,
    })?;
    let task = Spawn {
        program: ProgId(0),
        arg: 7,
    };
    let parts = SetParts {
        format,
        cores: 1,
        memory: 1024,
        records: 1,
        objects,
        programs,
        tasks: Tasks::from_slice(rt.alloc(), &[task])?,
    };
    Ok(TaskSet::build(rt.alloc(), parts).ok())
}

// NVK1 as little-endian bytes
const MAGIC: u32 = 0x314B_564E;

// all words before a format
const BEFORE: [u32; 50] = [9; 50];

// the header, the directory and the code; copy 0 of the index; copy 1; both slots of the object
const FORMATTED: [u32; 50] = [
    MAGIC, 1, 0, 1, 1, 1, 1024, 0x201, 100, 12, 115, 115, 115, 115, 115, 115, 115, 115, 115, 115,
    115, 115, 0, 0, 2, 0, 0, 0, 0, 0, 1, 0, 1, 0, 7, 0, 0, 0, 0, 0, 0, 0, 0, 0, 0, 0, 0, 0, 5, 0,
];

// whether a device that is cut at write k, with that write made or not, is untouched, blank or whole
fn is_cut_well(rt: &HostRuntime, set: &TaskSet, k: u32, new: bool) -> Result<bool, NoMemory> {
    let mut dev = MemFram::fused(rt.alloc(), &BEFORE, k, new)?;
    let done = format(&mut dev, set).is_ok();
    let words = dev.words();
    if k == 0 && !new {
        return Ok(!done && words == BEFORE.as_slice());
    }
    if k > 50 || k == 50 && new {
        return Ok(done == (k > 50) && words == FORMATTED.as_slice());
    }
    Ok(!done && words.first() == Some(&0))
}

#[test]
fn a_format_is_cut_at_each_write(rt: HostRuntime) -> Result<(), Fail> {
    let Some(set) = small_set(&rt, 1)? else {
        return Err(Fail::new("the set is within its limits"));
    };
    for k in 0..52 {
        assert!(rt; is_cut_well(&rt, &set, k, false)?);
        assert!(rt; is_cut_well(&rt, &set, k, true)?);
    }
    Ok(())
}

// whether a device of so many words is refused, with this need, and left as it was
fn is_refused(rt: &HostRuntime, number: u8, need: u32, words: &[u32]) -> Result<bool, NoMemory>
    requires { length words.now ≤ 65536 }
{
    let Some(set) = small_set(rt, number)? else {
        return Ok(false);
    };
    let mut dev = MemFram::new(rt.alloc(), words, 200)?;
    let small = FormatRefusal::Small {
        need,
        len: words.len() as u32,
    };
    Ok(format(&mut dev, &set) == Err(small) && dev.words() == words)
}

#[test]
fn a_small_device_is_left_as_it_is(rt: HostRuntime) -> Result<(), Fail> {
    assert!(rt; is_refused(&rt, 1, 50, &[9; 49])?);
    assert!(rt; is_refused(&rt, 2, 89, &[9; 88])?);
    let Some(set) = small_set(&rt, 2)? else {
        return Err(Fail::new("the set is within its limits"));
    };
    let mut large = MemFram::new(rt.alloc(), &[9; 89], 90)?;
    assert!(rt; format(&mut large, &set).is_ok());
    assert!(rt; large.words().first() == Some(&0x324B_564E));
    Ok(())
}
