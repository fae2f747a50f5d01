//! The limits: each number once, by its name. This project's own.

/// The formats of a task set are 1 to this.
pub const MAX_FORMAT: u8 = 2;

/// The most cores.
pub const MAX_CORES: u8 = 8;

/// The fewest bytes of private memory.
pub const MIN_MEMORY: u32 = 1024;

/// The most bytes of private memory.
pub const MAX_MEMORY: u32 = 65_536;

/// The most objects of a set of format 1.
pub const MAX_OBJECTS_1: u8 = 64;

/// The most objects of a set of format 2, and so of any set.
pub const MAX_OBJECTS: u8 = 128;

/// The most task records of a set of format 1.
pub const MAX_RECORDS_1: u16 = 256;

/// The most task records of a set of format 2, and so of any set.
pub const MAX_RECORDS: u16 = 1024;

/// The most words of an object.
pub const MAX_SIZE: u8 = 64;

/// The fewest versions that an object has slots for.
pub const MIN_SLOTS: u8 = 2;

/// The most versions that an object has slots for.
pub const MAX_SLOTS: u8 = 8;

/// The most programs.
pub const MAX_PROGRAMS: u8 = 16;

/// The most instructions that a run of a program may count.
pub const MAX_FUEL: u32 = 1_000_000;

/// The most words of a program's code.
pub const MAX_CODE: u16 = 1024;

/// The most bytes of a name.
pub const MAX_NAME: u8 = 16;

/// The most tasks that a task may make.
pub const MAX_SPAWNS: u8 = 8;

/// The most events of a run.
pub const MAX_EVENTS: u32 = 1_000_000;

/// The most bytes of an input.
pub const MAX_INPUT: u32 = 1_048_576;
