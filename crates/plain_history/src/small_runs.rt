//! What the tasks of a small history do: runs over three objects, as the bits of an argument say.

/// How many objects there are.
pub const OBJECTS: u8 = 3;

/// The bit of an object.
pub fn bit(object: u8) -> u32 {
    match object {
        0 => 1,
        1 => 2,
        2 => 4,
        _ => 0,
    }
}

/// Whether an object is among some, one bit each.
pub fn has(objects: u32, object: u8) -> bool {
    objects & bit(object) != 0
}

/// What a run does: the objects that it reads and writes, how many tasks it spawns, and whether it traps.
#[derive(Clone, Copy)]
pub struct Run {
    pub reads: u32,
    pub writes: u32,
    pub spawns: u32,
    pub traps: bool,
}

/// The run of a task with this argument: the upper half says what it does. A trap leaves the reads alone.
pub fn run_of(arg: u32) -> Run {
    let bits = arg >> 16;
    let traps = bits & 1536 == 1536;
    let spawns = if bits & 256 == 0 { bits >> 6 & 3 } else { 0 };
    Run {
        reads: bits & 7,
        writes: if traps { 0 } else { bits >> 3 & 7 },
        spawns: if traps { 0 } else { spawns },
        traps,
    }
}

/// How a history begins: the slots of each object, the records, and the clock.
#[derive(Clone, Copy)]
pub struct Start {
    pub slots: [u8; 3],
    pub records: u8,
    pub clock: u32,
}
