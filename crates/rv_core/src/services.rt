// What a step comes to.

use nv_base::TrapCause;

/// A service that a task calls, with its arguments as they stand in a0 to a3.
#[derive(Clone, Copy, PartialEq, Eq, Debug)]
pub enum Service {
    /// The words of an object are wanted at an address.
    Read {
        object: u32,
        at: u32,
    },
    /// The words at an address are to be an object's.
    Write {
        object: u32,
        at: u32,
    },
    /// A task of a program is to be made, with an argument.
    Spawn {
        program: u32,
        arg: u32,
    },
    /// The task has come to its end, with an exit code.
    Finish {
        code: u32,
    },
    /// Some words of an object, from one of them on, are wanted at an address.
    ReadPart {
        object: u32,
        at: u32,
        first: u32,
        count: u32,
    },
    /// The words at an address are to take the place of some words of an object, from one of them on.
    WritePart {
        object: u32,
        at: u32,
        first: u32,
        count: u32,
    },
}

/// What a step came to.
#[derive(Clone, Copy, PartialEq, Eq, Debug)]
pub enum Step {
    /// The instruction was done, and the next one is up.
    Went,
    /// A service is called. The machine waits on the call until it is resumed.
    Call(Service),
    /// The task is stopped.
    Trap(TrapCause),
}

/// How an instruction ends. Where it is not done, it has changed nothing.
#[derive(Clone, Copy, PartialEq, Eq, Debug)]
pub(crate) enum Fate {
    /// It was done, and the next one is up.
    Went,
    /// It calls a service.
    Calls,
    /// It stops the task.
    Stops(TrapCause),
}
