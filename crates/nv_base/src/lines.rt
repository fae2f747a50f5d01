// What the kernel tells: how a task ended, the entry of a finish, and the line of a turn.

use crate::causes::TrapCause;
use crate::ids::{CoreId, ObjId, Point, ProgId, Seq, TaskId};

/// How a task ended.
#[derive(Clone, Copy, PartialEq, Eq, Debug)]
pub enum Outcome {
    /// It called FINISH with this exit code.
    Exit(u32),
    /// It was stopped, for this cause.
    Trap(TrapCause),
}

/// A task that another one asks for: a program and its argument.
#[derive(Clone, Copy, PartialEq, Eq, Debug)]
pub struct Spawn {
    /// The program to run.
    pub program: ProgId,
    /// What the program is given in register 10.
    pub arg: u32,
}

/// An open task.
#[derive(Clone, Copy, PartialEq, Eq, Debug)]
pub struct TaskRec {
    /// The task's number.
    pub id: TaskId,
    /// The program that it runs.
    pub program: ProgId,
    /// What the program is given in register 10.
    pub arg: u32,
}

/// A finish, as the listing has it.
#[derive(Clone, Copy, PartialEq, Eq, Debug)]
pub struct Entry {
    /// The number of the finish, from 1.
    pub number: Seq,
    /// The task that finished.
    pub task: TaskId,
    /// Its serialization point.
    pub point: Point,
    /// The number of the first task that it made, or would have made.
    pub first: TaskId,
    /// How the task ended.
    pub outcome: Outcome,
}

/// What one turn tells.
#[derive(Clone, Copy, PartialEq, Eq, Debug)]
pub enum Line {
    /// The turn tells nothing.
    Nothing,
    /// A core began a task, with the clock as its start.
    Start {
        core: CoreId,
        task: TaskId,
        at: Point,
    },
    /// A core dropped an attempt whose interval was empty at a read.
    Stale {
        core: CoreId,
        task: TaskId,
        lo: Point,
        hi: Point,
    },
    /// A finish was refused: its interval was empty.
    RefuseEmpty {
        core: CoreId,
        task: TaskId,
        lo: Point,
        hi: Point,
    },
    /// A finish was refused: this written object has no free slot.
    RefuseSlots {
        core: CoreId,
        task: TaskId,
        object: ObjId,
    },
    /// A finish was refused: the tasks still pending and those spawned are more than the records.
    RefuseRecords {
        core: CoreId,
        task: TaskId,
        pending: u32,
        spawns: u32,
    },
    /// A finish joined the listing.
    Finish(Entry),
    /// A finish that was durable before a power failure joined the listing.
    Found(Entry),
    /// The power failed.
    Fail,
    /// A boot ended: the finish that it found, if any, and the count of boots.
    Booted {
        found: Option<Entry>,
        boots: u32,
    },
}
