// Each line once, with its text worked out by hand.

use super::*;
use nv_base::{
    CoreId, Entry, Line, ObjId, Outcome, Point, ProgId, Seq, TaskId, TaskRec, TrapCause,
};
use std::alloc::Global;
use std::test::Fail;
use task_set::{
    Name, ObjPart, ObjectParts, ProgPart, ProgramParts, SetParts, TaskSet, Tasks, Words,
};

// Two objects, of which the second has the longest name and the most words, and one program.
fn small_set(alloc: Global) -> Result<TaskSet, Fail> {
    let mut objects = ObjectParts::new(alloc);
    objects.push(ObjPart {
        name: Name::from_slice(alloc, b"x")?,
        size: 2,
        slots: 2,
        first: Words::from_slice(alloc, &[0; 2])?,
    })?;
    objects.push(ObjPart {
        name: Name::from_slice(alloc, b"sixteen_bytes_16")?,
        size: 64,
        slots: 2,
        first: Words::from_slice(alloc, &[0; 64])?,
    })?;
    let mut programs = ProgramParts::new(alloc);
    programs.push(ProgPart {
        name: Name::from_slice(alloc, b"add")?,
        fuel: 100,
        code: Words::new(alloc),
    })?;
    let parts = SetParts {
        format: 1,
        cores: 2,
        memory: 1024,
        records: 4,
        objects,
        programs,
        tasks: Tasks::new(alloc),
    };
    Ok(TaskSet::build(alloc, parts)?)
}

const EXITED: Entry = Entry {
    number: Seq(1),
    task: TaskId(4294967295),
    point: Point(0),
    first: TaskId(2),
    outcome: Outcome::Exit(4294967295),
};

const TRAPPED: Entry = Entry {
    number: Seq(4294967295),
    task: TaskId(1),
    point: Point(7),
    first: TaskId(12),
    outcome: Outcome::Trap(TrapCause::LoadAlign),
};

#[test]
fn attempts(rt: HostRuntime) -> Result<(), Fail> {
    let set = small_set(rt.alloc())?;
    let mut buf = LineBuf::new(rt.alloc())?;
    assert!(rt; buf.bytes().is_empty());
    let core = CoreId(7);
    let task = TaskId(4294967295);
    buf.put_line(
        &set,
        &Line::Start {
            core,
            task,
            at: Point(0),
        },
    );
    assert!(rt; buf.bytes() == b"start core 7 task 4294967295 at 0\n".as_slice());
    buf.put_line(
        &set,
        &Line::Stale {
            core,
            task,
            lo: Point(3),
            hi: Point(4294967295),
        },
    );
    assert!(rt; buf.bytes() == b"stale 3 4294967295 core 7 task 4294967295\n".as_slice());
    buf.put_line(&set, &Line::Nothing);
    assert!(rt; buf.bytes().is_empty());
    Ok(())
}

#[test]
fn refusals(rt: HostRuntime) -> Result<(), Fail> {
    let set = small_set(rt.alloc())?;
    let mut buf = LineBuf::new(rt.alloc())?;
    let core = CoreId(0);
    let task = TaskId(10);
    buf.put_line(
        &set,
        &Line::RefuseEmpty {
            core,
            task,
            lo: Point(4294967295),
            hi: Point(0),
        },
    );
    assert!(rt; buf.bytes() == b"refuse empty 4294967295 0 core 0 task 10\n".as_slice());
    assert!(rt; set.objects() > 1);
    buf.put_line(
        &set,
        &Line::RefuseSlots {
            core,
            task,
            object: ObjId(1),
        },
    );
    assert!(rt; buf.bytes() == b"refuse slots sixteen_bytes_16 core 0 task 10\n".as_slice());
    buf.put_line(
        &set,
        &Line::RefuseRecords {
            core,
            task,
            pending: 256,
            spawns: 8,
        },
    );
    assert!(rt; buf.bytes() == b"refuse records 256 8 core 0 task 10\n".as_slice());
    Ok(())
}

#[test]
fn finishes(rt: HostRuntime) -> Result<(), Fail> {
    let set = small_set(rt.alloc())?;
    let mut buf = LineBuf::new(rt.alloc())?;
    buf.put_line(&set, &Line::Finish(EXITED));
    assert!(rt;
        buf.bytes() == b"finish 1 task 4294967295 point 0 exit 4294967295 first 2\n".as_slice()
    );
    buf.put_line(&set, &Line::Found(TRAPPED));
    assert!(rt;
        buf.bytes() == b"found 4294967295 task 1 point 7 trap loadalign first 12\n".as_slice()
    );
    Ok(())
}

#[test]
fn power(rt: HostRuntime) -> Result<(), Fail> {
    let set = small_set(rt.alloc())?;
    let mut buf = LineBuf::new(rt.alloc())?;
    buf.put_line(&set, &Line::Fail);
    assert!(rt; buf.bytes() == b"fail\n".as_slice());
    buf.put_line(
        &set,
        &Line::Booted {
            found: None,
            boots: 0,
        },
    );
    assert!(rt; buf.bytes() == b"boot 0\n".as_slice());
    buf.put_line(
        &set,
        &Line::Booted {
            found: Some(TRAPPED),
            boots: 4294967295,
        },
    );
    assert!(rt;
        buf.bytes()
            == b"found 4294967295 task 1 point 7 trap loadalign first 12\nboot 4294967295\n".as_slice()
    );
    Ok(())
}

#[test]
fn end_part(rt: HostRuntime) -> Result<(), Fail> {
    let set = small_set(rt.alloc())?;
    let mut buf = LineBuf::new(rt.alloc())?;
    buf.put_end(Point(0), Seq(4294967295), TaskId(1), 20);
    assert!(rt; buf.bytes() == b"end clock 0 number 4294967295 next 1 boots 20\n".as_slice());
    assert!(rt; set.objects() > 1 && set.size(ObjId(0)) == 2);
    buf.put_object(&set, ObjId(0), &[4294967295, 0]);
    assert!(rt; buf.bytes() == b"object x 4294967295 0\n".as_slice());
    assert!(rt; set.programs() > 0);
    let task = TaskRec {
        id: TaskId(3),
        program: ProgId(0),
        arg: 4294967295,
    };
    buf.put_open(&set, task);
    assert!(rt; buf.bytes() == b"open 3 add 4294967295\n".as_slice());
    buf.put_done();
    assert!(rt; buf.bytes() == b"done\n".as_slice());
    Ok(())
}

#[test]
fn longest_line(rt: HostRuntime) -> Result<(), Fail> {
    let set = small_set(rt.alloc())?;
    let mut buf = LineBuf::new(rt.alloc())?;
    assert!(rt; set.objects() > 1);
    assert!(rt; set.size(ObjId(1)) == 64);
    buf.put_object(&set, ObjId(1), &[4294967295; 64]);
    // `object sixteen_bytes_16`, 64 times a space and ten digits, and a line feed
    assert_eq!(rt; buf.bytes().len(), 728);
    Ok(())
}
