//! One set and its 91 bytes, worked out by hand, and what is refused of bytes like them. `tables/packed.txt` has many more, which
//! the program answers.

use super::*;
use nv_base::{NoMemory, ObjId, ProgId, Spawn};
use std::test::Fail;
use task_set::{
    Name, ObjPart, ObjectParts, ProgPart, ProgramParts, SetParts, TaskSet, Tasks, Words,
};

// adds its argument to the first word of object 0
const CODE: [u32; 12] = [
    0x0005_0413,
    0x0000_0513,
    0x2000_0593,
    0x0010_0893,
    0x0000_0073,
    0x2000_2283,
    0x0082_82b3,
    0x2050_2023,
    0x0020_0893,
    0x0000_0073,
    0x0040_0893,
    0x0000_0073,
];

// one core, 1,024 bytes, one record; object x of one word in 2 slots, at first 5; program add with 100 instructions of fuel; a task of it with the argument 7
const PACKED: [u8; 91] = [
    0x4e, 0x56, 0x4b, 0x53, 0x01, 0x00, 0x01, 0x01, 0x01, 0x00, 0x01, 0x00, 0x00, 0x04, 0x00, 0x00,
    0x01, 0x00, 0x00, 0x00, // the header
    0x01, 0x78, 0x01, 0x02, 0x05, 0x00, 0x00, 0x00, // the object
    0x03, 0x61, 0x64, 0x64, 0x64, 0x00, 0x00, 0x00, 0x0c, 0x00, // the program, before its words
    0x13, 0x04, 0x05, 0x00, 0x13, 0x05, 0x00, 0x00, 0x93, 0x05, 0x00, 0x20, 0x93, 0x08, 0x10, 0x00,
    0x73, 0x00, 0x00, 0x00, 0x83, 0x22, 0x00, 0x20, 0xb3, 0x82, 0x82, 0x00, 0x23, 0x20, 0x50, 0x20,
    0x93, 0x08, 0x20, 0x00, 0x73, 0x00, 0x00, 0x00, 0x93, 0x08, 0x40, 0x00, 0x73, 0x00, 0x00, 0x00,
    0x00, 0x07, 0x00, 0x00, 0x00, // the task
];

fn parts(rt: &HostRuntime) -> Result<SetParts, NoMemory> {
    let mut objects = ObjectParts::new(rt.alloc());
    objects.push(ObjPart {
        name: Name::from_slice(rt.alloc(), b"x")?,
        size: 1,
        slots: 2,
        first: Words::from_slice(rt.alloc(), &[5])?,
    })?;
    let mut programs = ProgramParts::new(rt.alloc());
    programs.push(ProgPart {
        name: Name::from_slice(rt.alloc(), b"add")?,
        fuel: 100,
        code: Words::from_slice(rt.alloc(), &CODE)?,
    })?;
    let mut tasks = Tasks::new(rt.alloc());
    tasks.push(Spawn {
        program: ProgId(0),
        arg: 7,
    })?;
    Ok(SetParts {
        format: 1,
        cores: 1,
        memory: 1024,
        records: 1,
        objects,
        programs,
        tasks,
    })
}

// the place at which these bytes are refused
fn refused_at(rt: &HostRuntime, bytes: &[u8]) -> Option<u32> {
    match read_set(rt.alloc(), bytes) {
        Err(ImageRefusal::Bad(place)) => Some(place),
        _ => None,
    }
}

#[test]
fn a_set_is_written_as_its_bytes(rt: HostRuntime) -> Result<(), Fail> {
    let Ok(set) = TaskSet::build(rt.alloc(), parts(&rt)?) else {
        assert!(rt; false);
        return Ok(());
    };
    let bytes = write_set(rt.alloc(), &set)?;
    assert!(rt; bytes.as_slice() == PACKED.as_slice());
    Ok(())
}

#[test]
fn the_bytes_are_read_as_the_set(rt: HostRuntime) -> Result<(), Fail> {
    let Ok(set) = read_set(rt.alloc(), &PACKED) else {
        assert!(rt; false);
        return Ok(());
    };
    assert_eq!(rt; set.format(), 1);
    assert_eq!(rt; set.cores(), 1);
    assert_eq!(rt; set.memory(), 1024);
    assert_eq!(rt; set.records(), 1);
    assert_eq!(rt; set.objects(), 1);
    assert_eq!(rt; set.programs(), 1);
    assert!(rt; set.tasks().len() == 1 && set.tasks()[0].program.0 == 0 && set.tasks()[0].arg == 7);
    if 0 < set.objects() {
        assert!(rt; set.object_name(ObjId(0)) == b"x".as_slice());
        assert_eq!(rt; set.size(ObjId(0)), 1);
        assert_eq!(rt; set.slots(ObjId(0)), 2);
        assert!(rt; set.first(ObjId(0)) == [5].as_slice());
    }
    if 0 < set.programs() {
        assert!(rt; set.program_name(ProgId(0)) == b"add".as_slice());
        assert_eq!(rt; set.fuel(ProgId(0)), 100);
        assert!(rt; set.code(ProgId(0)) == CODE.as_slice());
    }
    Ok(())
}

// a place, the byte that is put there, and the place of the field that breaks its rule by it
const BROKEN: [(usize, u8, u32); 8] = [
    (4, 3, 4), // version 3
    (7, 65, 7), // 65 objects
    (10, 2, 16), // 2 tasks, more than the records
    (20, 17, 20), // a name of 17 bytes
    (23, 9, 23), // 9 slots
    (31, b'-', 29), // a byte that names do not have
    (37, 1, 36), // 268 words, which do not fit 1,024 bytes
    (86, 1, 86), // a second program
];

#[test]
fn a_broken_rule_is_refused_at_its_field(rt: HostRuntime) -> Result<(), Fail> {
    for (at, byte, place) in BROKEN {
        let mut bytes = PACKED.to_vec(rt.alloc())?;
        assert!(rt; at < bytes.len());
        bytes[at] = byte;
        assert_eq!(rt; refused_at(&rt, &bytes), Some(place));
    }
    // cut bytes are refused at the field that is cut, and one more byte at its place
    assert_eq!(rt; refused_at(&rt, &PACKED[..26]), Some(24));
    let mut bytes = PACKED.to_vec(rt.alloc())?;
    bytes.push(0)?;
    assert_eq!(rt; refused_at(&rt, &bytes), Some(91));
    Ok(())
}
