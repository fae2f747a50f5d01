//! A set of three objects of one word, whose tasks do what the bits of their arguments say.

use nv_base::NoMemory;
use plain_history::Start;
use std::alloc::Global;
use task_set::{
    Name, ObjPart, ObjectParts, ProgPart, ProgramParts, SetParts, TaskSet, Tasks, Words,
};

// Reads the objects of bits 16 to 18 of the argument, writes those of bits 19 to 21, spawns as many tasks as bits 22 and
// 23 say, but none with bit 24, and traps with bits 25 and 26. The argument of a child is the sum of the own one and of
// the tasks that are left to spawn, times 1,664,525.
const BY_BITS: [u32; 45] = [
    0x00050413, 0x01055913, 0x00000493, 0x00300993, 0x009952b3, 0x0012f293, 0x00028a63, 0x00048513,
    0x20000593, 0x00100893, 0x00000073, 0x00148493, 0xff3490e3, 0x00000493, 0x009952b3, 0x0082f293,
    0x00028a63, 0x00048513, 0x20400593, 0x00200893, 0x00000073, 0x00148493, 0xff3490e3, 0x00695493,
    0x0034f493, 0x10097293, 0x00028463, 0x00000493, 0x02048463, 0x00196337, 0x60d30313, 0x009405b3,
    0x026585b3, 0x00000513, 0x00300893, 0x00000073, 0xfff48493, 0xfddff06f, 0x60097293, 0x60000313,
    0x00629463, 0x00100073, 0x00000513, 0x00400893, 0x00000073,
];

fn object(alloc: Global, name: &[u8], slots: u8) -> Result<ObjPart, NoMemory> {
    Ok(ObjPart {
        name: Name::from_slice(alloc, name)?,
        size: 1,
        slots,
        first: Words::from_slice(alloc, &[5])?,
    })
}

fn objects(alloc: Global, slots: [u8; 3]) -> Result<ObjectParts, NoMemory> {
    let mut objects = ObjectParts::new(alloc);
    objects.push(object(alloc, b"x", slots[0])?)?;
    objects.push(object(alloc, b"y", slots[1])?)?;
    objects.push(object(alloc, b"z", slots[2])?)?;
    Ok(objects)
}

fn programs(alloc: Global) -> Result<ProgramParts, NoMemory> {
    let mut programs = ProgramParts::new(alloc);
    programs.push(ProgPart {
        name: Name::from_slice(alloc, b"p")?,
        fuel: 1000,
        code: Words::from_slice(alloc, &BY_BITS)?,
    })?;
    Ok(programs)
}

/// The set of objects with so many slots and with so many records. None where these are not within the limits.
pub fn small_set(alloc: Global, start: Start) -> Result<Option<TaskSet>, NoMemory> {
    let parts = SetParts {
        format: 1,
        cores: 8,
        memory: 1024,
        records: u16::from(start.records),
        objects: objects(alloc, start.slots)?,
        programs: programs(alloc)?,
        tasks: Tasks::new(alloc),
    };
    Ok(TaskSet::build(alloc, parts).ok())
}
