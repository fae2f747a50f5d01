//! Why parts are no task set.

/// Which limit is broken, in the order in which they are looked at. This project's own.
#[derive(Clone, Copy, PartialEq, Eq, Debug)]
pub enum LimitKind {
    /// Format 1 or 2.
    Format,
    /// 1 to 8 cores.
    Cores,
    /// 1,024 to 65,536 bytes of private memory, a multiple of 4.
    Memory,
    /// 1 to 256 task records in format 1, 1 to 1,024 in format 2.
    Records,
    /// 1 to 64 objects in format 1, 1 to 128 in format 2.
    Objects,
    /// Each object has 1 to 64 words.
    Size,
    /// Each object has slots for 2 to 8 versions.
    Slots,
    /// Each object is given as many words as its size.
    First,
    /// 1 to 16 programs.
    Programs,
    /// A run of each program may count 1 to 1,000,000 instructions.
    Fuel,
    /// Each program has at most 1,024 words, and they fit the private memory.
    Code,
    /// At most as many tasks as there are task records.
    Tasks,
    /// Each task names a program of the set.
    TaskProgram,
}

/// Why parts are no task set.
#[derive(Clone, Copy, PartialEq, Eq, Debug)]
pub enum SetRefusal {
    /// A limit is broken: the first in the order of `LimitKind`.
    Limit(LimitKind),
    /// No limit is broken, but a name is malformed, or given twice among the objects or among the programs.
    Name,
    /// The names found no memory to be compared in.
    NoMemory,
}
