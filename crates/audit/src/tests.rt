//! Reports of two tasks, one that copies x to y and one that writes x, where the second comes before the first.

ghost use Rattle.std.specs.Prelude.{◌≤◌, IsTrue, length};
ghost use Rattle.task_model.specs.Shape.{HasShape};

use super::*;
use nv_base::{Entry, NoMemory, ObjId, Outcome, Point, ProgId, Seq, Spawn, TaskId, TaskRec};
use report::{Listing, Report, Tasks as Open};
use std::test::Fail;
use task_model::Objects;
use task_set::{
    Name, ObjPart, ObjectParts, ProgPart, ProgramParts, SetParts, TaskSet, Tasks, Words,
};

// reads the object that the argument names, and writes its first word plus one to the object at the argument over 16
const COPIES: [u32; 13] = [
    0x00455313, 0x00f57513, 0x20000593, 0x00100893, 0x00000073, 0x00030513, 0x20002283, 0x00128293,
    0x20502023, 0x00200893, 0x00000073, 0x00400893, 0x00000073,
];

// writes the argument over 16 to the object that the argument names
const PUTS: [u32; 8] = [
    0x00455293, 0x20502023, 0x00f57513, 0x20000593, 0x00200893, 0x00000073, 0x00400893, 0x00000073,
];

fn object(rt: &HostRuntime, name: &[u8], word: u32) -> Result<ObjPart, NoMemory> {
    Ok(ObjPart {
        name: Name::from_slice(rt.alloc(), name)?,
        size: 1,
        slots: 2,
        first: Words::from_slice(rt.alloc(), [word].as_slice())?,
    })
}

fn program(rt: &HostRuntime, name: &[u8], code: &[u32]) -> Result<ProgPart, NoMemory> {
    Ok(ProgPart {
        name: Name::from_slice(rt.alloc(), name)?,
        fuel: 100,
        code: Words::from_slice(rt.alloc(), code)?,
    })
}

// Objects x and y with the words 5 and 8; task 1 copies x to y, and task 2 writes 9 to x.
fn two_tasks(rt: &HostRuntime) -> Result<TaskSet, Fail> {
    let mut objects = ObjectParts::new(rt.alloc());
    objects.push(object(rt, b"x", 5)?)?;
    objects.push(object(rt, b"y", 8)?)?;
    let mut programs = ProgramParts::new(rt.alloc());
    programs.push(program(rt, b"copies", &COPIES)?)?;
    programs.push(program(rt, b"puts", &PUTS)?)?;
    let mut tasks = Tasks::new(rt.alloc());
    tasks.push(Spawn {
        program: ProgId(0),
        arg: 16,
    })?;
    tasks.push(Spawn {
        program: ProgId(1),
        arg: 144,
    })?;
    Ok(TaskSet::build(
        rt.alloc(),
        SetParts {
            format: 1,
            cores: 2,
            memory: 1024,
            records: 4,
            objects,
            programs,
            tasks,
        },
    )?)
}

// What a report tells: the points of its two finishes, the number and the first child of the second, its exit code,
// the clock, the word of y, and a task that is open, if any.
#[derive(Clone, Copy)]
struct Told {
    points: (u32, u32),
    number: u32,
    first: u32,
    code: u32,
    clock: u32,
    y: u32,
    open: Option<u32>,
}

fn finish(number: u32, task: u32, point: u32, first: u32, code: u32) -> Entry {
    Entry {
        number: Seq(number),
        task: TaskId(task),
        point: Point(point),
        first: TaskId(first),
        outcome: Outcome::Exit(code),
    }
}

fn report(rt: &HostRuntime, told: Told) -> Result<Report, NoMemory> {
    let mut listing = Listing::new(rt.alloc());
    listing.push(3, finish(1, 2, told.points.0, 3, 0))?;
    listing.push(
        4,
        finish(told.number, 1, told.points.1, told.first, told.code),
    )?;
    let mut objects = Objects::new(rt.alloc());
    objects.push(rt.alloc(), [9].as_slice())?;
    objects.push(rt.alloc(), [told.y].as_slice())?;
    let mut tasks = Open::new(rt.alloc());
    if let Some(id) = told.open {
        tasks.push(TaskRec {
            id: TaskId(id),
            program: ProgId(0),
            arg: 0,
        })?;
    }
    Ok(Report {
        listing,
        end_line: 5,
        clock: Point(told.clock),
        number: Seq(2),
        next: TaskId(3),
        objects,
        tasks,
    })
}

// Whether objects are those of a set, by number and size.
fn has_shape(set: &TaskSet, objects: &Objects) -> bool
    ensures { IsTrue result → HasShape set.now objects.now }
{
    if objects.len() != usize::from(set.objects()) {
        return false;
    }
    for object in 0..set.objects() {
        let o = ObjId(object);
        if objects.get(o).len() != usize::from(set.size(o)) {
            return false;
        }
    }
    true
}

// Whether a report is as short as these tests make it.
fn is_short(report: &Report) -> bool
    ensures listing { IsTrue result → length report.now.listing ≤ 2 }
    ensures line { IsTrue result → report.now.end_line ≤ 5 }
    ensures tasks { IsTrue result → length report.now.state.tasks ≤ 1 }
{
    report.listing.as_slice().len() <= 2
        && report.end_line <= 5
        && report.tasks.as_slice().len() <= 1
}

// The answer to a report that is short and has the shape of the set.
fn answer(
    rt: &HostRuntime,
    set: &TaskSet,
    told: Told,
) -> Result<Result<Agreed, AuditRefusal>, Fail> {
    let report = report(rt, told)?;
    if !is_short(&report) {
        return Err(Fail::new("a short report is wanted"));
    }
    if !has_shape(set, &report.objects) {
        return Err(Fail::new("the set's objects are wanted"));
    }
    Ok(audit(rt.alloc(), set, &report))
}

#[test]
fn a_report_is_audited(rt: HostRuntime) -> Result<(), Fail> {
    let set = two_tasks(&rt)?;
    let told = Told {
        points: (1, 0),
        number: 2,
        first: 3,
        code: 1,
        clock: 1,
        y: 6,
        open: None,
    };
    let rows = [
        (told, Ok(Agreed(2))),
        (
            Told {
                points: (0, 1),
                ..told
            },
            Err(AuditRefusal::Differs(7)),
        ),
        (Told { number: 3, ..told }, Err(AuditRefusal::Differs(4))),
        (Told { code: 0, ..told }, Err(AuditRefusal::Differs(4))),
        (Told { first: 4, ..told }, Err(AuditRefusal::Differs(4))),
        (Told { clock: 2, ..told }, Err(AuditRefusal::Differs(5))),
        (Told { y: 10, ..told }, Err(AuditRefusal::Differs(7))),
        (
            Told {
                open: Some(1),
                ..told
            },
            Err(AuditRefusal::Differs(8)),
        ),
    ];
    for (told, wanted) in rows.iter() {
        assert!(rt; answer(&rt, &set, *told)? == *wanted);
    }
    Ok(())
}
