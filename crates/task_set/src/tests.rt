//! Parts that make a set, and parts that each break one limit or give a bad name.

use super::*;
use nv_base::{NoMemory, ObjId, ProgId, Spawn};
use std::test::Fail;

fn object(rt: &HostRuntime, name: &[u8], size: u8, words: &[u32]) -> Result<ObjPart, NoMemory> {
    Ok(ObjPart {
        name: Name::from_slice(rt.alloc(), name)?,
        size,
        slots: 2,
        first: Words::from_slice(rt.alloc(), words)?,
    })
}

fn program(rt: &HostRuntime, name: &[u8], fuel: u32) -> Result<ProgPart, NoMemory> {
    Ok(ProgPart {
        name: Name::from_slice(rt.alloc(), name)?,
        fuel,
        code: Words::from_slice(rt.alloc(), &[0x0000_006f])?,
    })
}

// two objects, one program of this name and fuel, and one task of the program of this number
fn parts(rt: &HostRuntime, name: &[u8], fuel: u32, task: u8) -> Result<SetParts, NoMemory> {
    let mut objects = ObjectParts::new(rt.alloc());
    objects.push(object(rt, b"x", 1, &[5])?)?;
    objects.push(object(rt, b"y_2", 2, &[6, 7])?)?;
    let mut programs = ProgramParts::new(rt.alloc());
    programs.push(program(rt, name, fuel)?)?;
    let mut tasks = Tasks::new(rt.alloc());
    tasks.push(Spawn {
        program: ProgId(task),
        arg: 9,
    })?;
    Ok(SetParts {
        format: 1,
        cores: 1,
        memory: 1024,
        records: 3,
        objects,
        programs,
        tasks,
    })
}

// what is said of these parts
fn refusal(rt: &HostRuntime, parts: SetParts) -> Option<SetRefusal> {
    match TaskSet::build(rt.alloc(), parts) {
        Ok(_) => None,
        Err(refusal) => Some(refusal),
    }
}

// whether the numbers are those of the parts
fn has_numbers(set: &TaskSet) -> bool {
    let numbers = set.format() == 1 && set.cores() == 1 && set.memory() == 1024;
    numbers && set.records() == 3 && set.objects() == 2 && set.programs() == 1
}

// whether the second object and the program are those of the parts
fn has_things(set: &TaskSet) -> bool {
    if set.objects() < 2 || set.programs() < 1 {
        return false;
    }
    let (y, add) = (ObjId(1), ProgId(0));
    let object = set.size(y) == 2 && set.slots(y) == 2 && set.first(y) == [6, 7].as_slice();
    let program = set.fuel(add) == 100 && set.code(add) == [0x0000_006f].as_slice();
    let names = set.object_name(y) == b"y_2".as_slice()
        && set.program_name(add) == b"add".as_slice();
    object && program && names
}

// the set of these parts, and a copy of it
fn copied(rt: &HostRuntime, parts: SetParts) -> Result<Option<TaskSet>, NoMemory> {
    match TaskSet::build(rt.alloc(), parts) {
        Ok(set) => Ok(Some(set.copy(rt.alloc())?)),
        Err(_) => Ok(None),
    }
}

#[test]
fn a_set_and_its_copy_tell_the_parts(rt: HostRuntime) -> Result<(), Fail> {
    let copied = copied(&rt, parts(&rt, b"add", 100, 0)?)?;
    let Some(set) = &copied else {
        return Err("no set")?;
    };
    let tasks = set.tasks();
    assert!(rt; has_numbers(set) && has_things(set) && tasks.len() == 1 && tasks[0].arg == 9);
    Ok(())
}

#[test]
fn the_first_broken_limit_is_told(rt: HostRuntime) -> Result<(), Fail> {
    for (name, fuel, task, memory, kind) in [
        (b"add".as_slice(), 0, 1, 1024, LimitKind::Fuel),
        (b"add".as_slice(), 100, 1, 1024, LimitKind::TaskProgram),
        (b"1".as_slice(), 100, 1, 1026, LimitKind::Memory),
    ] {
        let mut wrong = parts(&rt, name, fuel, task)?;
        wrong.memory = memory;
        assert!(rt; refusal(&rt, wrong) == Some(SetRefusal::Limit(kind)));
    }
    Ok(())
}

#[test]
fn limits_go_by_the_format(rt: HostRuntime) -> Result<(), Fail> {
    for (format, cores, records, told) in [
        (1, 1, 256, None),
        (1, 1, 257, Some(SetRefusal::Limit(LimitKind::Records))),
        (2, 1, 1024, None),
        (2, 1, 1025, Some(SetRefusal::Limit(LimitKind::Records))),
        (0, 1, 256, Some(SetRefusal::Limit(LimitKind::Format))),
        (3, 0, 256, Some(SetRefusal::Limit(LimitKind::Format))),
    ] {
        let mut tried = parts(&rt, b"add", 100, 0)?;
        tried.format = format;
        tried.cores = cores;
        tried.records = records;
        assert!(rt; refusal(&rt, tried) == told);
    }
    Ok(())
}

#[test]
fn the_most_go_by_the_format(rt: HostRuntime) {
    let objects = max_objects(1) == 64 && max_objects(2) == 128;
    assert!(rt; objects && max_records(1) == 256 && max_records(2) == 1024);
}

#[test]
fn names_are_names(rt: HostRuntime) -> Result<(), Fail> {
    for (name, told) in [
        (b"".as_slice(), Some(SetRefusal::Name)),
        (b"7a".as_slice(), Some(SetRefusal::Name)),
        (b"a-b".as_slice(), Some(SetRefusal::Name)),
        (b"seventeen_letters".as_slice(), Some(SetRefusal::Name)),
        // an object and a program may share a name
        (b"x".as_slice(), None),
        (b"sixteen_letters_".as_slice(), None),
    ] {
        assert!(rt; refusal(&rt, parts(&rt, name, 100, 0)?) == told);
    }
    Ok(())
}

#[test]
fn a_third_object_is_looked_at(rt: HostRuntime) -> Result<(), Fail> {
    for (name, size, told) in [
        (b"x".as_slice(), 2, SetRefusal::Limit(LimitKind::First)),
        (b"x".as_slice(), 1, SetRefusal::Name),
    ] {
        let mut wrong = parts(&rt, b"add", 100, 0)?;
        wrong.objects.push(object(&rt, name, size, &[1])?)?;
        assert!(rt; refusal(&rt, wrong) == Some(told));
    }
    Ok(())
}
