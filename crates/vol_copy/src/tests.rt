//! Small tasks on two objects, turn by turn.

ghost use Rattle.std.specs.Prelude.{◌≡◌, ◌<◌, IfOk, IfSome, IsTrue, false};
ghost use Rattle.vol_copy.specs.Stages.{IsAfterWord};
ghost use Rattle.vol_copy.specs.Tries.{IsFor};
ghost use Rattle.vol_copy.specs.Turns.{IsInNeed};

use super::*;
use crate::attempt::Stage;
use interval::Version;
use nv_base::limits::MAX_OBJECTS;
use nv_base::{NoMemory, ObjId, ObjSet, Outcome, Point, ProgId, TaskId, TaskRec, TrapCause};
use shadow_index::Copies;
use std::test::Fail;
use task_set::{
    Name, ObjPart, ObjectParts, ProgPart, ProgramParts, SetParts, TaskSet, Tasks, Words,
};

const X: ObjId = ObjId(0);

const Y: ObjId = ObjId(1);

// reads x, adds the argument and writes the sum to x, reads x once more elsewhere and finishes with that
const ADDS: [u32; 16] = [
    0x00050413, 0x00000513, 0x20000593, 0x00100893, 0x00000073, 0x20002283, 0x008282b3, 0x20502023,
    0x00200893, 0x00000073, 0x20400593, 0x00100893, 0x00000073, 0x20402503, 0x00400893, 0x00000073,
];

// reads y, writes the sum of its words to x, spawns a task and traps
const TRAPS: [u32; 17] = [
    0x00100513, 0x20000593, 0x00100893, 0x00000073, 0x20002283, 0x20402303, 0x006282b3, 0x20502423,
    0x00000513, 0x20800593, 0x00200893, 0x00000073, 0x00000513, 0x00900593, 0x00300893, 0x00000073,
    0x00100073,
];

// x of one word, y of two, and a program
fn small_set(rt: &HostRuntime, code: &[u32]) -> Result<Option<TaskSet>, NoMemory> {
    let mut objects = ObjectParts::new(rt.alloc());
    objects.push(ObjPart {
        name: Name::from_slice(rt.alloc(), b"x")?,
        size: 1,
        slots: 2,
        first: Words::from_slice(rt.alloc(), &[5])?,
    })?;
    objects.push(ObjPart {
        name: Name::from_slice(rt.alloc(), b"y")?,
        size: 2,
        slots: 2,
        first: Words::from_slice(rt.alloc(), &[6, 7])?,
    })?;
    let mut programs = ProgramParts::new(rt.alloc());
    programs.push(ProgPart {
        name: Name::from_slice(rt.alloc(), b"p")?,
        fuel: 100,
        code: Words::from_slice(rt.alloc(), code)?,
    })?;
    let parts = SetParts {
        format: 1,
        cores: 2,
        memory: 1024,
        records: 1,
        objects,
        programs,
        tasks: Tasks::new(rt.alloc()),
    };
    Ok(TaskSet::build(rt.alloc(), parts).ok())
}

// an attempt of a task of the set's program, with the argument 7
fn begun(rt: &HostRuntime, set: &TaskSet) -> Result<Option<Attempt>, NoMemory>
    ensures kept { IfOk result (λ o. IfSome o (IsFor set.now)) }
    ensures running { IfOk result (λ o. IfSome o (λ a. a.stage ≡ Stage.Running)) }
{
    let mut attempt = Attempt::new(rt.alloc(), set)?;
    if set.programs() == 0 {
        return Ok(None);
    }
    let task = TaskRec {
        id: TaskId(4),
        program: ProgId(0),
        arg: 7,
    };
    attempt.load(set, task, Point(3));
    Ok(Some(attempt))
}

// what it needs after at most 20 turns
fn runs(attempt: &mut Attempt, set: &TaskSet) -> Need
    requires kept { IsFor set.now attempt.old }
    requires running { attempt.old.stage ≡ Stage.Running }
    ensures kept { IsFor set.now attempt.new }
    ensures stage { IsInNeed attempt.new result }
{
    for _ in 0..20 {
        match attempt.advance(set) {
            Need::Went => {}
            Need::Fetch(o) => return Need::Fetch(o),
            Need::Ready => return Need::Ready,
        }
    }
    Need::Went
}

// whether it runs until it needs this object, and then copies these words of it and runs on
fn reads(attempt: &mut Attempt, set: &TaskSet, o: ObjId, words: &[u32]) -> bool
    requires kept { IsFor set.now attempt.old }
    requires running { attempt.old.stage ≡ Stage.Running }
    ensures kept { IsFor set.now attempt.new }
    ensures running { IsTrue result → attempt.new.stage ≡ Stage.Running }
{
    let Need::Fetch(object) = runs(attempt, set) else {
        return false;
    };
    attempt.open_read(Version {
        object,
        slot: 1,
        begin: Point(2),
    });
    object == o && attempt.copying() == Some((o, 0)) && copies(attempt, set, words)
}

// whether these are just the words that are left to copy
fn copies(attempt: &mut Attempt, set: &TaskSet, words: &[u32]) -> bool
    requires kept { IsFor set.now attempt.old }
    requires copying { IsAfterWord false attempt.old.stage }
    ensures kept { IsFor set.now attempt.new }
    ensures running { IsTrue result → attempt.new.stage ≡ Stage.Running }
{
    let mut last = false;
    for word in words {
        if last {
            return false;
        }
        last = attempt.copy_word(*word);
    }
    last
}

// what it has read and written, and what it spawned
fn has_done(attempt: &Attempt, reads: ObjId, written: ObjSet, spawns: usize) -> bool
    requires { reads.0 < MAX_OBJECTS }
{
    let mut objects = ObjSet::empty();
    objects.add(reads);
    attempt.reads() == objects && attempt.written() == written && attempt.spawns().len() == spawns
}

// the first word that it wrote to x, if it wrote it
fn written_to_x(attempt: &Attempt) -> Option<u32> {
    if attempt.writes(X) && attempt.copy_of(X).len() == 1 {
        return Some(attempt.copy_word_of(X, 0));
    }
    None
}

#[test]
fn the_own_write_comes_before_the_copy(rt: HostRuntime) -> Result<(), Fail> {
    let Some(set) = small_set(&rt, &ADDS)? else {
        return Err(Fail::new("the set is within its limits"));
    };
    let Some(mut attempt) = begun(&rt, &set)? else {
        return Err(Fail::new("the set has a program"));
    };
    assert!(rt; attempt.task() == TaskId(4) && attempt.start() == Point(3));
    assert!(rt; reads(&mut attempt, &set, X, &[30]));
    assert!(rt; runs(&mut attempt, &set) == Need::Ready);
    assert!(rt; attempt.is_ready() && attempt.outcome() == Some(Outcome::Exit(37)));
    assert!(rt; written_to_x(&attempt) == Some(37));
    attempt.clear();
    assert!(rt; !attempt.is_ready());
    Ok(())
}

#[test]
fn a_trap_leaves_only_what_was_read(rt: HostRuntime) -> Result<(), Fail> {
    let Some(set) = small_set(&rt, &TRAPS)? else {
        return Err(Fail::new("the set is within its limits"));
    };
    let Some(mut attempt) = begun(&rt, &set)? else {
        return Err(Fail::new("the set has a program"));
    };
    assert!(rt; reads(&mut attempt, &set, Y, &[8, 9]));
    assert!(rt; runs(&mut attempt, &set) == Need::Ready);
    assert!(rt; attempt.outcome() == Some(Outcome::Trap(TrapCause::Break)));
    assert!(rt; has_done(&attempt, Y, ObjSet::empty(), 0));
    Ok(())
}
