//! Outside reads, free slots and verdicts, worked out by hand.

ghost use Rattle.std.specs.Prelude.{◌≡◌, ◌≤◌, IfOk, IfSome, None, Some, [], ◌∷◌, length, map, true};
ghost use Rattle.ver_table.specs.Chains.{Chain, chain_at};
ghost use Rattle.vol_copy.specs.Stages.{is_waiting};
ghost use Rattle.vol_copy.specs.Tries.{IsFor};

use super::*;
use crate::beside::Beside;
use crate::slots::{free_slots, raised};
use interval::{Interval, Pin, Version};
use nv_base::{NoMemory, ObjId, ObjSet, Outcome, Point, ProgId, Seq, Spawn, TaskId, TaskRec};
use std::test::Fail;
use task_queue::Queue;
use task_set::{
    Name, ObjPart, ObjectParts, ProgPart, ProgramParts, SetParts, TaskSet, Tasks, Words,
};
use ver_table::Versions;
use vol_copy::{Attempt, Need};

// writes x, and finishes with 9
const WRITES: [u32; 7] = [
    0x00000513, 0x20000593, 0x00200893, 0x00000073, 0x00900513, 0x00400893, 0x00000073,
];

// an object x of one word, with slots for two versions, and a program that writes it
fn parts(rt: &HostRuntime) -> Result<SetParts, NoMemory> {
    let mut objects = ObjectParts::new(rt.alloc());
    objects.push(ObjPart {
        name: Name::from_slice(rt.alloc(), b"x")?,
        size: 1,
        slots: 2,
        first: Words::from_slice(rt.alloc(), &[5])?,
    })?;
    let mut programs = ProgramParts::new(rt.alloc());
    programs.push(ProgPart {
        name: Name::from_slice(rt.alloc(), b"p")?,
        fuel: 100,
        code: Words::from_slice(rt.alloc(), &WRITES)?,
    })?;
    Ok(SetParts {
        format: 1,
        cores: 1,
        memory: 1024,
        records: 3,
        objects,
        programs,
        tasks: Tasks::from_slice(
            rt.alloc(),
            &[Spawn {
                program: ProgId(0),
                arg: 9,
            }],
        )?,
    })
}

// their set
fn small_set(rt: &HostRuntime) -> Result<Option<TaskSet>, NoMemory> {
    Ok(TaskSet::build(rt.alloc(), parts(rt)?).ok())
}

// its table: the version in slot 0 began at 4, and ended at 6, where that in slot 1 began
fn table(rt: &HostRuntime, set: &TaskSet) -> Result<Option<Versions>, NoMemory>
    ensures known { IfOk result (λ t. IfSome t (λ v. (length v ≡ 1) × (let c : Chain = record {
      slots = 2;
      bound = 6;
      stored = record { slot = 1; begin = 6; end = None }
          ∷ record { slot = 0; begin = 4; end = Some 6 } ∷ [];
    } in chain_at v 0 ≡ c))) }
    ensures slots { IfOk result (λ t. IfSome t (λ v. map (λ c. c.slots) v
        ≡ map (λ p. p.slots) set.now.objects)) }
{
    if set.objects() != 1 || set.slots(ObjId(0)) != 2 {
        return Ok(None);
    }
    let mut versions = Versions::open(rt.alloc(), set, &[0], Point(4))?;
    versions.install(ObjId(0), 1, Point(6));
    Ok(Some(versions))
}

// an attempt of a task of its program that comes to its end within 20 turns
fn run(rt: &HostRuntime, set: &TaskSet, task: TaskRec) -> Result<Option<Attempt>, NoMemory>
    ensures kept { IfOk result (λ o. IfSome o (IsFor set.now)) }
    ensures ready { IfOk result (λ o. IfSome o (λ a. is_waiting a.stage ≡ true)) }
{
    let mut attempt = Attempt::new(rt.alloc(), set)?;
    if task.program.0 >= set.programs() {
        return Ok(None);
    }
    attempt.load(set, task, Point(4));
    for _ in 0..20 {
        match attempt.advance(set) {
            Need::Went => {}
            Need::Fetch(_) => return Ok(None),
            Need::Ready => return Ok(Some(attempt)),
        }
    }
    Ok(None)
}

#[test]
fn an_outside_read_takes_the_newest_version_before_the_end(rt: HostRuntime) -> Result<(), Fail> {
    let Some(set) = small_set(&rt)? else {
        return Err(Fail::new("the set is within its limits"));
    };
    let Some(versions) = table(&rt, &set)? else {
        return Err(Fail::new("x has slots for two versions"));
    };
    let version = |slot: u8, begin: u32| Version {
        object: ObjId(0),
        slot,
        begin: Point(begin),
    };
    let mut reads = Interval::from(Point(4));
    let newest = admit(&versions, reads, ObjId(0));
    assert!(rt; newest == Ok(version(1, 6)));
    reads.cut(Point(6));
    let older = admit(&versions, reads, ObjId(0));
    assert!(rt; older == Ok(version(0, 4)));
    reads.raise(Point(6));
    let stale = admit(&versions, reads, ObjId(0));
    assert!(rt;
        stale
            == Err(Stale {
                lo: Point(6),
                hi: Point(6)
            })
    );
    Ok(())
}

#[test]
fn a_read_raises_and_cuts_the_interval(rt: HostRuntime) -> Result<(), Fail> {
    let Some(set) = small_set(&rt)? else {
        return Err(Fail::new("the set is within its limits"));
    };
    let Some(versions) = table(&rt, &set)? else {
        return Err(Fail::new("x has slots for two versions"));
    };
    let version = Version {
        object: ObjId(0),
        slot: 0,
        begin: Point(4),
    };
    let left = opened(&versions, Interval::from(Point(1)), version);
    assert!(rt;
        left == Interval {
            lo: Point(4),
            hi: Some(Point(6))
        }
    );
    Ok(())
}

// what a reader has left that has taken the older version of x
fn old_reads() -> Interval {
    let mut old = Interval::from(Point(4));
    old.cut(Point(6));
    old
}

// one that begins behind that version, one that has read it, and one that copies it
fn three_views() -> (View, View, View) {
    let late = View {
        interval: Interval::from(Point(6)),
        copying: None,
    };
    let reader = View {
        interval: old_reads(),
        copying: None,
    };
    let copier = View {
        interval: Interval::from(Point(6)),
        copying: Some(Pin {
            object: ObjId(0),
            slot: 0,
        }),
    };
    (late, reader, copier)
}

#[test]
fn a_written_object_raises_the_interval_and_has_a_slot(rt: HostRuntime) -> Result<(), Fail> {
    let Some(set) = small_set(&rt)? else {
        return Err(Fail::new("the set is within its limits"));
    };
    let Some(versions) = table(&rt, &set)? else {
        return Err(Fail::new("x has slots for two versions"));
    };
    let mut written = ObjSet::empty();
    written.add(ObjId(0));
    let interval = raised(&versions, written, Interval::from(Point(4)));
    assert!(rt; interval == Interval::from(Point(6)));
    let (late, reader, copier) = three_views();
    // (the others, the slot of x that is free beside them)
    let rows = [
        ([late, late], Some(0)),
        ([late, reader], None),
        ([copier, late], None),
    ];
    for (others, slot) in rows {
        let free = match free_slots(&versions, written, &Beside::of(&others)) {
            Ok(slots) => Some(slots[0]),
            Err(_) => None,
        };
        assert!(rt; free == slot);
    }
    Ok(())
}

// the verdict on a task that has written x, behind these reads and beside these others
fn verdict_on_x(rt: &HostRuntime, reads: Interval, others: &[View]) -> Result<Verdict, Fail>
    requires { length others.now ≤ MAX_OTHERS }
{
    let Some(set) = small_set(rt)? else {
        return Err(Fail::new("the set is within its limits"));
    };
    let Some(versions) = table(rt, &set)? else {
        return Err(Fail::new("x has slots for two versions"));
    };
    let task = TaskRec {
        id: TaskId(4),
        program: ProgId(0),
        arg: 0,
    };
    let Some(attempt) = run(rt, &set, task)? else {
        return Err(Fail::new("the task comes to its end"));
    };
    if set.records() == 0 {
        return Err(Fail::new("there is room for a task"));
    }
    let queue = Queue::open(rt.alloc(), &set, &[task], TaskId(5))?;
    Ok(validate(&versions, &queue, &attempt, reads, others, Point(6), Seq(2)))
}

#[test]
fn a_finish_is_granted_behind_the_clock_or_told_why_not(rt: HostRuntime) -> Result<(), Fail> {
    let from = Interval::from(Point(4));
    let Verdict::Granted(plan) = verdict_on_x(&rt, from, &[])? else {
        return Err(Fail::new("nothing is in the way"));
    };
    assert!(rt; plan.granted.number == Seq(3) && plan.granted.task == TaskId(4));
    assert!(rt; plan.granted.point == Point(7) && plan.granted.first == TaskId(5));
    assert!(rt; plan.granted.outcome == Outcome::Exit(9) && plan.slots[0] == 0);
    let Verdict::Empty { lo, hi } = verdict_on_x(&rt, old_reads(), &[])? else {
        return Err(Fail::new("who read x stands behind the end"));
    };
    assert!(rt; lo == Point(6) && hi == Point(6));
    let reader = View {
        interval: old_reads(),
        copying: None,
    };
    let Verdict::Slots(object) = verdict_on_x(&rt, from, &[reader])? else {
        return Err(Fail::new("both versions are needed"));
    };
    assert!(rt; object == ObjId(0));
    Ok(())
}
