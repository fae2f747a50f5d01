//! How many turns the commit of one object takes in each format, and the root after it.

ghost use Rattle.std.specs.Prelude.{◌≡◌, IfOk};
ghost use Rattle.commit_writer.specs.Rooms.{IsStateOf};

mod cut;

use super::*;
use crate::job::Job;
use nv_base::limits::MAX_OBJECTS;
use nv_base::{Entry, NoMemory, ObjId, ObjSet, Outcome, Point, ProgId, Seq, Spawn, TaskId};
use shadow_index::{Plan, State};
use std::test::Fail;
use task_set::{
    Name, ObjPart, ObjectParts, ProgPart, ProgramParts, SetParts, TaskSet, Tasks, Words,
};

// one object of one word in two slots, one program of twelve words, one task, one record
fn small_set(rt: &HostRuntime, format: u8) -> Result<Option<TaskSet>, NoMemory> {
    let mut objects = ObjectParts::new(rt.alloc());
    objects.push(ObjPart {
        name: Name::from_slice(rt.alloc(), b"x")?,
        size: 1,
        slots: 2,
        first: Words::from_slice(rt.alloc(), &[5])?,
    })?;
    let mut programs = ProgramParts::new(rt.alloc());
    programs.push(ProgPart {
        name: Name::from_slice(rt.alloc(), b"add")?,
        fuel: 100,
        code: Words::from_slice(rt.alloc(), &[115; 12])?,
    })?;
    let task = Spawn {
        program: ProgId(0),
        arg: 7,
    };
    let parts = SetParts {
        format,
        cores: 1,
        memory: 1024,
        records: 1,
        objects,
        programs,
        tasks: Tasks::from_slice(rt.alloc(), &[task])?,
    };
    Ok(TaskSet::build(rt.alloc(), parts).ok())
}

// a state with no open task and each object in one slot
fn state(
    rt: &HostRuntime,
    set: &TaskSet,
    last: Option<Entry>,
    slot: u8,
    root: u32,
) -> Result<State, NoMemory>
    ensures state { IfOk result (IsStateOf set.now) }
    ensures shift { IfOk result (λ s. s.shift ≡ 0) }
{
    let mut slots = Vec::new(rt.alloc());
    for _ in 0..set.objects() {
        slots.push(slot)?;
    }
    Ok(State {
        clock: Point(0),
        number: Seq(0),
        next: TaskId(2),
        last,
        slots,
        tasks: Vec::new(rt.alloc()),
        told: 0,
        boots: 0,
        root,
        shift: 0,
    })
}

// how many writes the tables list, where each object has one word
fn turns(job: &Job) -> usize {
    let pages = job
        .pages
        .len()
        .wrapping_mul(job.layout.page_words() as usize);
    job.objects.len().wrapping_add(pages).wrapping_add(1)
}

#[test]
fn one_object_takes_15_turns_or_34(rt: HostRuntime) -> Result<(), Fail> {
    let entry = Entry {
        number: Seq(1),
        task: TaskId(1),
        point: Point(0),
        first: TaskId(2),
        outcome: Outcome::Exit(0),
    };
    let mut written = ObjSet::empty();
    written.add(ObjId(0));
    let plan = Plan {
        granted: entry,
        written,
        slots: [1; MAX_OBJECTS as usize],
    };
    for (format, count, root, next) in [
        (1, 15, 1, 2),
        (1, 15, 2, 1),
        (2, 34, 1 << 31, 0x8000_0001),
    ] {
        let Some(set) = small_set(&rt, format)? else {
            return Err(Fail::new("the set is within its limits"));
        };
        let before = state(&rt, &set, None, 0, root)?;
        let after = state(&rt, &set, Some(entry), 1, root)?;
        let mut writer = Writer::new(rt.alloc(), &set)?;
        writer.begin(&set, &plan, &before, &after);
        assert_eq!(rt; turns(&writer.job), count);
        assert_eq!(rt; writer.job.next_root, next);
    }
    Ok(())
}
