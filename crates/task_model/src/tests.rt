//! Whole runs of small programs, with what they come to worked out by hand.

ghost use Rattle.std.specs.Prelude.{◌<◌};

use super::*;
use nv_base::{
    Entry, NoMemory, ObjId, ObjSet, Outcome, Point, ProgId, Seq, Spawn, TaskId, TrapCause,
};
use rv_core::Machine;
use std::test::Fail;
use task_set::{
    Name, ObjPart, ObjectParts, ProgPart, ProgramParts, SetParts, TaskSet, Tasks, Words,
};

// reads object 0, adds the argument and writes the sum
const ADDS: [u32; 12] = [
    0x00050413, 0x00000513, 0x20000593, 0x00100893, 0x00000073, 0x20002283, 0x008282b3, 0x20502023,
    0x00200893, 0x00000073, 0x00400893, 0x00000073,
];

// the same, with EBREAK behind the write
const BREAKS: [u32; 11] = [
    0x00050413, 0x00000513, 0x20000593, 0x00100893, 0x00000073, 0x20002283, 0x008282b3, 0x20502023,
    0x00200893, 0x00000073, 0x00100073,
];

// reads object 1 and writes the sum of its words to object 0
const SUMS: [u32; 14] = [
    0x00100513, 0x20000593, 0x00100893, 0x00000073, 0x20002283, 0x20402303, 0x006282b3, 0x20502423,
    0x00000513, 0x20800593, 0x00200893, 0x00000073, 0x00400893, 0x00000073,
];

// reads object 0, writes its word plus the argument, and the argument, to object 1, and finishes with 1
const SPREADS: [u32; 14] = [
    0x00050413, 0x00000513, 0x20000593, 0x00100893, 0x00000073, 0x20002283, 0x008282b3, 0x20502023,
    0x20802223, 0x00100513, 0x00200893, 0x00000073, 0x00400893, 0x00000073,
];

// writes the argument to object 0, reads it back, adds the argument and writes the sum
const WRITES_TWICE: [u32; 16] = [
    0x00050413, 0x20802223, 0x00000513, 0x20400593, 0x00200893, 0x00000073, 0x20000593, 0x00100893,
    0x00000073, 0x20002283, 0x008282b3, 0x20502023, 0x00200893, 0x00000073, 0x00400893, 0x00000073,
];

// writes zeros to both objects, and then meets EBREAK
const CLEARS: [u32; 7] = [
    0x20000593, 0x00200893, 0x00000513, 0x00000073, 0x00100513, 0x00000073, 0x00100073,
];

// reads object 0 into the last word of memory, and then object 1, for whose two words there is no place
const OVERRUNS: [u32; 6] = [
    0x00000513, 0x3fc00593, 0x00100893, 0x00000073, 0x00100513, 0x00000073,
];

// reads object 2, which the set does not have
const STRAYS: [u32; 3] = [0x00200513, 0x00100893, 0x00000073];

// spawns program 0 with 9 and program 1 with 4, and finishes with the second index
const SPAWNS: [u32; 9] = [
    0x00000513, 0x00900593, 0x00300893, 0x00000073, 0x00100513, 0x00400593, 0x00000073, 0x00400893,
    0x00000073,
];

// spawns program 0 again and again
const FORKS: [u32; 4] = [0x00300893, 0x00000513, 0x00000073, 0xff9ff06f];

// spawns program 0 eight times, and then program 2, which the set does not have
const ASKS: [u32; 8] = [
    0x00800413, 0x00300893, 0x00000513, 0x00000073, 0xfff40413, 0xfe041ae3, 0x00200513, 0x00000073,
];

// finishes with the argument, by the second instruction
const ENDS: [u32; 2] = [0x00400893, 0x00000073];

// jumps to itself
const WAITS: [u32; 1] = [0x0000006f];

// writes the argument as the first word of object 1, and finishes with 1
const WRITES_PART: [u32; 9] = [
    0x20a02023, 0x00100513, 0x20000593, 0x00000613, 0x00100693, 0x00600893, 0x00000073, 0x00400893,
    0x00000073,
];

// reads the last word of object 1, and finishes with it
const READS_PART: [u32; 9] = [
    0x00100513, 0x20000593, 0x00100613, 0x00100693, 0x00500893, 0x00000073, 0x20002503, 0x00400893,
    0x00000073,
];

// asks for a word behind the last one of object 1
const PAST_END: [u32; 7] = [
    0x20a02023, 0x00100513, 0x20000593, 0x00200613, 0x00100693, 0x00600893, 0x00000073,
];

// asks for two words of object 1, from number 2^32 - 1 on
const AROUND: [u32; 6] = [
    0x00100513, 0x20000593, 0xfff00613, 0x00200693, 0x00500893, 0x00000073,
];

fn object(rt: &HostRuntime, name: &[u8], size: u8, words: &[u32]) -> Result<ObjPart, NoMemory> {
    Ok(ObjPart {
        name: Name::from_slice(rt.alloc(), name)?,
        size,
        slots: 2,
        first: Words::from_slice(rt.alloc(), words)?,
    })
}

fn program(rt: &HostRuntime, name: &[u8], fuel: u32, code: &[u32]) -> Result<ProgPart, NoMemory> {
    Ok(ProgPart {
        name: Name::from_slice(rt.alloc(), name)?,
        fuel,
        code: Words::from_slice(rt.alloc(), code)?,
    })
}

// Two objects, x of one word and y of two, a program 0 that waits, and some code as program 1.
fn parts(rt: &HostRuntime, code: &[u32], fuel: u32) -> Result<SetParts, NoMemory> {
    let mut objects = ObjectParts::new(rt.alloc());
    objects.push(object(rt, b"x", 1, &[5])?)?;
    objects.push(object(rt, b"y", 2, &[6, 7])?)?;
    let mut programs = ProgramParts::new(rt.alloc());
    programs.push(program(rt, b"waits", 100, &WAITS)?)?;
    programs.push(program(rt, b"tested", fuel, code)?)?;
    Ok(SetParts {
        format: 1,
        cores: 1,
        memory: 1024,
        records: 4,
        objects,
        programs,
        tasks: Tasks::new(rt.alloc()),
    })
}

// Runs program 1, which has this code and fuel, with the argument 7 on the first words.
fn run(rt: &HostRuntime, code: &[u32], fuel: u32) -> Result<Whole, Fail> {
    let set = TaskSet::build(rt.alloc(), parts(rt, code, fuel)?)?;
    if set.programs() != 2 {
        return Err(Fail::new("two programs are wanted"));
    }
    let objects = first_objects(rt.alloc(), &set)?;
    let mut machine = Machine::new(rt.alloc(), set.memory())?;
    Ok(run_whole(rt.alloc(), &mut machine, &set, ProgId(1), 7, &objects)?)
}

fn has_words(objects: &Objects, x: u32, y: [u32; 2]) -> bool {
    objects.len() == 2
        && objects.get(ObjId(0)) == [x].as_slice()
        && objects.get(ObjId(1)) == y.as_slice()
}

fn only(object: ObjId) -> ObjSet
    requires { object.0 < 64 }
{
    let mut set = ObjSet::empty();
    set.add(object);
    set
}

#[test]
fn a_task_reads_adds_and_writes(rt: HostRuntime) -> Result<(), Fail> {
    let whole = run(&rt, &ADDS, 100)?;
    assert!(rt; whole.outcome == Outcome::Exit(0));
    assert!(rt; whole.reads == only(ObjId(0)));
    assert!(rt; whole.written == only(ObjId(0)));
    assert!(rt; has_words(&whole.values, 12, [6, 7]));
    assert_eq!(rt; whole.spawns.len(), 0);
    Ok(())
}

#[test]
fn a_task_reads_one_object_and_writes_the_other(rt: HostRuntime) -> Result<(), Fail> {
    let whole = run(&rt, &SUMS, 100)?;
    assert!(rt; whole.outcome == Outcome::Exit(0));
    assert!(rt; whole.reads == only(ObjId(1)));
    assert!(rt; whole.written == only(ObjId(0)));
    assert!(rt; has_words(&whole.values, 13, [6, 7]));
    let whole = run(&rt, &SPREADS, 100)?;
    assert!(rt; whole.outcome == Outcome::Exit(1));
    assert!(rt; whole.reads == only(ObjId(0)));
    assert!(rt; whole.written == only(ObjId(1)));
    assert!(rt; has_words(&whole.values, 5, [12, 7]));
    Ok(())
}

#[test]
fn a_task_sees_its_own_write_and_leaves_the_last(rt: HostRuntime) -> Result<(), Fail> {
    let whole = run(&rt, &WRITES_TWICE, 100)?;
    assert!(rt; whole.outcome == Outcome::Exit(0));
    assert!(rt; whole.reads == ObjSet::empty());
    assert!(rt; whole.written == only(ObjId(0)));
    assert!(rt; has_words(&whole.values, 14, [6, 7]));
    Ok(())
}

#[test]
fn a_trap_leaves_the_objects_as_they_were(rt: HostRuntime) -> Result<(), Fail> {
    let whole = run(&rt, &BREAKS, 100)?;
    assert!(rt; whole.outcome == Outcome::Trap(TrapCause::Break));
    assert!(rt; whole.reads == only(ObjId(0)));
    assert!(rt; whole.written == ObjSet::empty());
    assert!(rt; has_words(&whole.values, 5, [6, 7]));
    let whole = run(&rt, &CLEARS, 100)?;
    assert!(rt; whole.outcome == Outcome::Trap(TrapCause::Break));
    assert!(rt; whole.reads == ObjSet::empty());
    assert!(rt; whole.written == ObjSet::empty());
    assert!(rt; has_words(&whole.values, 5, [6, 7]));
    Ok(())
}

#[test]
fn a_read_is_tested(rt: HostRuntime) -> Result<(), Fail> {
    let whole = run(&rt, &STRAYS, 100)?;
    assert!(rt; whole.outcome == Outcome::Trap(TrapCause::Object));
    assert!(rt; whole.reads == ObjSet::empty());
    let whole = run(&rt, &OVERRUNS, 100)?;
    assert!(rt; whole.outcome == Outcome::Trap(TrapCause::CallRange));
    assert!(rt; whole.reads == only(ObjId(0)));
    Ok(())
}

#[test]
fn a_task_spawns(rt: HostRuntime) -> Result<(), Fail> {
    let whole = run(&rt, &SPAWNS, 100)?;
    assert!(rt; whole.outcome == Outcome::Exit(1));
    let wanted = [
        Spawn {
            program: ProgId(0),
            arg: 9,
        },
        Spawn {
            program: ProgId(1),
            arg: 4,
        },
    ];
    assert!(rt; whole.spawns.as_slice() == wanted.as_slice());
    assert!(rt; whole.reads == ObjSet::empty());
    Ok(())
}

#[test]
fn a_spawn_is_tested(rt: HostRuntime) -> Result<(), Fail> {
    let whole = run(&rt, &FORKS, 100)?;
    assert!(rt; whole.outcome == Outcome::Trap(TrapCause::Spawns));
    assert_eq!(rt; whole.spawns.len(), 0);
    let whole = run(&rt, &ASKS, 100)?;
    assert!(rt; whole.outcome == Outcome::Trap(TrapCause::Program));
    assert_eq!(rt; whole.spawns.len(), 0);
    Ok(())
}

#[test]
fn fuel_ends(rt: HostRuntime) -> Result<(), Fail> {
    let whole = run(&rt, &WAITS, 1000)?;
    assert!(rt; whole.outcome == Outcome::Trap(TrapCause::Fuel));
    let whole = run(&rt, &ENDS, 2)?;
    assert!(rt; whole.outcome == Outcome::Exit(7));
    let whole = run(&rt, &ENDS, 1)?;
    assert!(rt; whole.outcome == Outcome::Trap(TrapCause::Fuel));
    Ok(())
}

#[test]
fn a_task_writes_a_part(rt: HostRuntime) -> Result<(), Fail> {
    let whole = run(&rt, &WRITES_PART, 100)?;
    assert!(rt; whole.outcome == Outcome::Exit(1));
    assert!(rt; whole.reads == only(ObjId(1)));
    assert!(rt; whole.written == only(ObjId(1)));
    assert!(rt; has_words(&whole.values, 5, [7, 7]));
    Ok(())
}

#[test]
fn a_task_reads_a_part(rt: HostRuntime) -> Result<(), Fail> {
    let whole = run(&rt, &READS_PART, 100)?;
    assert!(rt; whole.outcome == Outcome::Exit(7));
    assert!(rt; whole.reads == only(ObjId(1)));
    assert!(rt; whole.written == ObjSet::empty());
    Ok(())
}

#[test]
fn a_part_is_tested(rt: HostRuntime) -> Result<(), Fail> {
    let whole = run(&rt, &PAST_END, 100)?;
    assert!(rt; whole.outcome == Outcome::Trap(TrapCause::CallRange));
    assert!(rt; whole.reads == ObjSet::empty());
    let whole = run(&rt, &AROUND, 100)?;
    assert!(rt; whole.outcome == Outcome::Trap(TrapCause::CallRange));
    assert!(rt; whole.reads == ObjSet::empty());
    Ok(())
}

// A task of program 1 that is open at first.
fn opened(arg: u32) -> Spawn {
    Spawn {
        program: ProgId(1),
        arg,
    }
}

// The two objects, program 1 with this code, and open tasks that run it with 7 and with 3.
fn two_tasks(rt: &HostRuntime, code: &[u32]) -> Result<TaskSet, Fail> {
    let mut parts = parts(rt, code, 100)?;
    parts.tasks.push(opened(7))?;
    parts.tasks.push(opened(3))?;
    Ok(TaskSet::build(rt.alloc(), parts)?)
}

fn entry(number: u32, task: u32, point: u32, code: u32) -> Entry {
    Entry {
        number: Seq(number),
        task: TaskId(task),
        point: Point(point),
        first: TaskId(3),
        outcome: Outcome::Exit(code),
    }
}

// What a replay comes to: the place of a wrong entry, or the first word of object 0 and how many tasks are open.
fn answered(replay: &Replay) -> Result<(u32, usize), u32> {
    match replay {
        Replay::Wrong(place) => Err(*place),
        Replay::Good(end) => {
            if end.objects.len() == 0 {
                return Ok((0, end.tasks.len()));
            }
            let first = end.objects.get(ObjId(0));
            let word = if first.is_empty() { 0 } else { first[0] };
            Ok((word, end.tasks.len()))
        }
    }
}

#[test]
fn listings_are_replayed_in_serial_order(rt: HostRuntime) -> Result<(), Fail> {
    let set = two_tasks(&rt, &ADDS)?;
    let rows = [
        ([entry(1, 1, 1, 0), entry(2, 2, 2, 0)], Ok((15, 0))),
        ([entry(1, 1, 1, 0), entry(2, 1, 2, 0)], Err(1)),
        ([entry(1, 1, 2, 0), entry(2, 1, 1, 0)], Err(0)),
        ([entry(1, 1, 2, 1), entry(2, 2, 1, 0)], Err(0)),
        ([entry(1, 2, 1, 0), entry(2, 7, 1, 0)], Err(1)),
    ];
    for (listing, wanted) in rows.iter() {
        let replay = serial(rt.alloc(), &set, listing.as_slice())?;
        assert!(rt; answered(&replay) == *wanted);
    }
    Ok(())
}

#[test]
fn the_least_open_task_runs_first(rt: HostRuntime) -> Result<(), Fail> {
    let set = two_tasks(&rt, &ADDS)?;
    let (entries, end) = serial_first(rt.alloc(), &set, 1)?;
    assert!(rt; entries.as_slice() == [entry(1, 1, 1, 0)].as_slice());
    assert_eq!(rt; end.tasks.len(), 1);
    let (entries, end) = serial_first(rt.alloc(), &set, 9)?;
    assert!(rt; entries.as_slice() == [entry(1, 1, 1, 0), entry(2, 2, 2, 0)].as_slice());
    assert_eq!(rt; end.tasks.len(), 0);
    Ok(())
}
