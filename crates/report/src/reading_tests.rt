// Reports that are read, and texts that are none, each refused at its first line that cannot stand.

use super::*;
use nv_base::limits::MAX_INPUT;
use nv_base::{Entry, NoMemory, ObjId, Outcome, Point, Seq, TaskId, TrapCause};
use std::alloc::Global;
use std::test::Fail;
use task_set::{
    Name, ObjPart, ObjectParts, ProgPart, ProgramParts, SetParts, TaskSet, Tasks as FirstTasks,
    Words,
};

fn object(alloc: Global, name: &[u8]) -> Result<ObjPart, NoMemory> {
    Ok(ObjPart {
        name: Name::from_slice(alloc, name)?,
        size: 1,
        slots: 2,
        first: Words::from_slice(alloc, &[5])?,
    })
}

fn program(alloc: Global, name: &[u8]) -> Result<ProgPart, NoMemory> {
    Ok(ProgPart {
        name: Name::from_slice(alloc, name)?,
        fuel: 100,
        code: Words::new(alloc),
    })
}

// Two objects of one word, two programs, two cores.
fn two_of_each(alloc: Global) -> Result<TaskSet, Fail> {
    let mut objects = ObjectParts::new(alloc);
    objects.push(object(alloc, b"x")?)?;
    objects.push(object(alloc, b"y")?)?;
    let mut programs = ProgramParts::new(alloc);
    programs.push(program(alloc, b"cp")?)?;
    programs.push(program(alloc, b"put")?)?;
    let parts = SetParts {
        format: 1,
        cores: 2,
        memory: 1024,
        records: 4,
        objects,
        programs,
        tasks: FirstTasks::new(alloc),
    };
    Ok(TaskSet::build(alloc, parts)?)
}

// The answer for a text: no line where it is a report.
fn bad_line(alloc: Global, set: &TaskSet, text: &[u8]) -> Result<Option<u32>, NoMemory> {
    if text.len() > MAX_INPUT as usize {
        return Ok(None);
    }
    match read_report(alloc, set, text) {
        Ok(_) => Ok(None),
        Err(ReportRefusal::Bad(line)) => Ok(Some(line)),
        Err(ReportRefusal::NoMemory) => Err(NoMemory),
    }
}

const EACH_EVENT: &[u8] =
    b"start core 0 task 1 at 0\nstale 3 4294967295 core 1 task 9\nrefuse empty 0 0 core 0 task 10\nrefuse slots y core 0 task 10\nrefuse records 4 1 core 1 task 2\nfail\nfound 4294967295 task 1 point 7 trap loadalign first 12\nboot 4294967295\nfinish 2 task 4294967295 point 0 exit 10 first 3\nend clock 1 number 2 next 3 boots 0\nobject x 4294967295\nobject y 0\nopen 3 put 65\nopen 10 cp 0\ndone\n";

#[test]
fn each_line_is_read(rt: HostRuntime) -> Result<(), Fail> {
    let set = two_of_each(rt.alloc())?;
    let Ok(report) = read_report(rt.alloc(), &set, EACH_EVENT) else {
        assert!(rt; false);
        return Ok(());
    };
    assert!(rt;
        report.listing.as_slice()
            == [
                (
                    7,
                    Entry {
                        number: Seq(4294967295),
                        task: TaskId(1),
                        point: Point(7),
                        first: TaskId(12),
                        outcome: Outcome::Trap(TrapCause::LoadAlign),
                    },
                ),
                (
                    9,
                    Entry {
                        number: Seq(2),
                        task: TaskId(4294967295),
                        point: Point(0),
                        first: TaskId(3),
                        outcome: Outcome::Exit(10),
                    },
                ),
            ]
            .as_slice()
    );
    assert_eq!(rt; report.end_line, 10);
    assert!(rt; report.clock == Point(1) && report.number == Seq(2) && report.next == TaskId(3));
    assert!(rt; report.objects.len() > 1);
    assert!(rt; report.objects.get(ObjId(0)) == [4294967295].as_slice());
    assert_eq!(rt; report.tasks.as_slice().len(), 2);
    Ok(())
}

#[test]
fn first_line_that_cannot_stand(rt: HostRuntime) -> Result<(), Fail> {
    let rows: [(&[u8], Option<u32>); 16] = [
        (EACH_EVENT, None),
        (b"", Some(1)),
        (b"fail\n", Some(2)),
        // the last line has no line feed, or is none
        (
            b"end clock 0 number 0 next 1 boots 0\nobject x 5\nobject y 5\ndone",
            Some(4),
        ),
        (
            b"end clock 0 number 0 next 1 boots 0\nobject x 5\nobject y 5\n",
            Some(4),
        ),
        // something behind it
        (
            b"end clock 0 number 0 next 1 boots 0\nobject x 5\nobject y 5\ndone\n\n",
            Some(5),
        ),
        (
            b"end clock 0 number 0 next 1 boots 0\nobject x 5\nobject y 5\ndone\nx",
            Some(5),
        ),
        // numbers and spaces
        (b"boot 01\n", Some(1)),
        (b"boot 4294967296\n", Some(1)),
        (b"boot  1\n", Some(1)),
        (b"fail\r\n", Some(1)),
        // a core, an object and a program of no set, and an object of another size
        (b"fail\nstart core 2 task 1 at 0\n", Some(2)),
        (b"fail\nrefuse slots z core 0 task 1\n", Some(2)),
        (
            b"end clock 0 number 0 next 1 boots 0\nobject y 5\n",
            Some(2),
        ),
        (
            b"end clock 0 number 0 next 1 boots 0\nobject x 5 5\n",
            Some(2),
        ),
        // ids that do not increase
        (
            b"end clock 0 number 0 next 1 boots 0\nobject x 5\nobject y 5\nopen 2 cp 0\nopen 2 cp 0\ndone\n",
            Some(5),
        ),
    ];
    let set = two_of_each(rt.alloc())?;
    for (text, line) in rows {
        assert_eq!(rt; bad_line(rt.alloc(), &set, text)?, line);
    }
    Ok(())
}
