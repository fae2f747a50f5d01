//! Open tasks that are taken and finished, worked out by hand.

ghost use Rattle.std.specs.Prelude.{◌≡◌, ◌≤◌};

use super::*;
use nv_base::{NoMemory, ProgId, Spawn, TaskId, TaskRec};
use std::test::Fail;
use task_set::{
    Name, ObjPart, ObjectParts, ProgPart, ProgramParts, SetParts, TaskSet, Tasks, Words,
};

// a set with room for three tasks
fn parts(rt: &HostRuntime) -> Result<SetParts, NoMemory> {
    let mut objects = ObjectParts::new(rt.alloc());
    objects.push(ObjPart {
        name: Name::from_slice(rt.alloc(), b"x")?,
        size: 1,
        slots: 2,
        first: Words::from_slice(rt.alloc(), &[5])?,
    })?;
    let mut programs = ProgramParts::new(rt.alloc());
    programs.push(ProgPart {
        name: Name::from_slice(rt.alloc(), b"p")?,
        fuel: 1,
        code: Words::from_slice(rt.alloc(), &[0x0000_006f])?,
    })?;
    Ok(SetParts {
        format: 1,
        cores: 1,
        memory: 1024,
        records: 3,
        objects,
        programs,
        tasks: Tasks::new(rt.alloc()),
    })
}

fn task(id: u32) -> TaskRec
    ensures { result.id.0 ≡ id }
{
    TaskRec {
        id: TaskId(id),
        program: ProgId(0),
        arg: 9,
    }
}

const CHILD: Spawn = Spawn {
    program: ProgId(0),
    arg: 1,
};

// the ids of the open tasks, and the next one
fn has(queue: &Queue, ids: &[u32], next: u32) -> bool {
    let tasks = queue.open_tasks();
    let same = tasks.len() == ids.len()
        && tasks.iter().zip(ids.iter()).all(|(t, id)| t.id.0 == *id);
    same && queue.next() == TaskId(next)
}

#[test]
fn tasks_are_taken_and_finished(rt: HostRuntime) -> Result<(), Fail> {
    let set = TaskSet::build(rt.alloc(), parts(&rt)?)?;
    if set.records() != 3 {
        return Err("room for three tasks is wanted")?;
    }
    let mut queue = Queue::open(rt.alloc(), &set, &[task(2), task(5)], TaskId(7))?;
    assert!(rt; has(&queue, &[2, 5], 7));
    assert!(rt; queue.next_ready(&[]).map(|t| t.id) == Some(TaskId(2)));
    assert!(rt; queue.next_ready(&[TaskId(2)]).map(|t| t.id) == Some(TaskId(5)));
    assert!(rt; queue.next_ready(&[TaskId(5), TaskId(2)]).is_none());
    assert!(rt; queue.room_for(2) && !queue.room_for(3));
    let full = queue.finish(TaskId(2), &[CHILD, CHILD, CHILD]);
    assert!(rt;
        full == Err(Records {
            pending: 2,
            spawns: 3
        })
    );
    assert!(rt; has(&queue, &[2, 5], 7));
    let first = queue.finish(TaskId(2), &[CHILD, CHILD]);
    assert!(rt; first == Ok(TaskId(7)));
    assert!(rt; has(&queue, &[5, 7, 8], 9));
    queue.reopen(&[], TaskId(1));
    assert!(rt; has(&queue, &[], 1));
    Ok(())
}
