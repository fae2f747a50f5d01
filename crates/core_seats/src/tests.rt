//! Cores that read, copy, end, commit and are cut, worked out by hand.

ghost use Rattle.std.specs.Prelude.{◌≡◌, ◌<◌, IfOk, IfSome, IsTrue, false, true};
ghost use Rattle.kernel_model.specs.Intervals.{is_empty as has_no_point};
ghost use Rattle.kernel_model.specs.Room.{is_below};
ghost use Rattle.interval.specs.Ranges.{number_of, range_of};
ghost use Rattle.interval.specs.declared.ranges.Interval.{Interval as Reads};
ghost use Rattle.vol_copy.specs.Stages.{is_waiting};
ghost use Rattle.vol_copy.specs.Tries.{IsFor};
ghost use Rattle.core_seats.specs.Steps.{HasVersions};

use super::*;
use interval::{Interval, Pin};
use nv_base::limits::MAX_OBJECTS;
use nv_base::{Entry, NoMemory, ObjId, ObjSet, Outcome, Point, ProgId, Seq, TaskId, TaskRec};
use std::test::Fail;
use task_set::{
    Name, ObjPart, ObjectParts, ProgPart, ProgramParts, SetParts, TaskSet, Tasks, Words,
};
use validate::{Stale, View};
use ver_table::Versions;

const X: ObjId = ObjId(0);

const Y: ObjId = ObjId(1);

// reads x and then y, and finishes with their sum
const SUMS: [u32; 13] = [
    0x00000513, 0x20000593, 0x00100893, 0x00000073, 0x00100513, 0x20400593, 0x00100893, 0x00000073,
    0x20002283, 0x20402303, 0x00628533, 0x00400893, 0x00000073,
];

fn object(rt: &HostRuntime, name: &[u8]) -> Result<ObjPart, NoMemory> {
    Ok(ObjPart {
        name: Name::from_slice(rt.alloc(), name)?,
        size: 1,
        slots: 2,
        first: Words::from_slice(rt.alloc(), &[5])?,
    })
}

// x and y of one word, with slots for two versions, and the program
fn small_set(rt: &HostRuntime) -> Result<Option<TaskSet>, NoMemory> {
    let mut objects = ObjectParts::new(rt.alloc());
    objects.push(object(rt, b"x")?)?;
    objects.push(object(rt, b"y")?)?;
    let mut programs = ProgramParts::new(rt.alloc());
    programs.push(ProgPart {
        name: Name::from_slice(rt.alloc(), b"sums")?,
        fuel: 100,
        code: Words::from_slice(rt.alloc(), &SUMS)?,
    })?;
    let parts = SetParts {
        format: 1,
        cores: 3,
        memory: 1024,
        records: 3,
        objects,
        programs,
        tasks: Tasks::new(rt.alloc()),
    };
    Ok(TaskSet::build(rt.alloc(), parts).ok())
}

// its table: one version of each object, begun at 6 in slot 1
fn table(rt: &HostRuntime, set: &TaskSet) -> Result<Option<Versions>, NoMemory>
    ensures { IfOk result (λ o. IfSome o (λ v. (reads : Reads)
        → (has_no_point (range_of reads) ≡ false → is_below 6 (number_of reads.hi) ≡ true)
        → HasVersions set.now reads v)) }
{
    if set.objects() != 2 || set.slots(X) != 2 || set.slots(Y) != 2 {
        return Ok(None);
    }
    Ok(Some(Versions::open(rt.alloc(), set, &[1, 1], Point(6))?))
}

// whether the table has versions for an interval of reads
fn suits(reads: Interval) -> bool
    ensures { IsTrue result → has_no_point (range_of reads) ≡ false
        → is_below 6 (number_of reads.hi) ≡ true }
{
    if reads.is_empty() {
        return true;
    }
    match reads.hi {
        None => true,
        Some(hi) => 6 < hi.0,
    }
}

// a core that tries a task of the program, begun at this clock
fn begun(rt: &HostRuntime, set: &TaskSet, task: u32, clock: u32) -> Result<Option<Seat>, NoMemory>
    ensures { IfOk result (λ o. IfSome o (λ s. IsFor set.now s.attempt)) }
{
    let mut seat = Seat::new(rt.alloc(), set)?;
    if set.programs() == 0 {
        return Ok(None);
    }
    let task = TaskRec {
        id: TaskId(task),
        program: ProgId(0),
        arg: 0,
    };
    seat.start(set, task, Point(clock));
    Ok(Some(seat))
}

// runs until it copies, has ended or is stale, at most 20 steps
fn runs(seat: &mut Seat, set: &TaskSet, versions: &Versions) -> Option<Stale>
    requires kept { IsFor set.now seat.old.attempt }
    requires versions { (reads : Reads)
        → (has_no_point (range_of reads) ≡ false → is_below 6 (number_of reads.hi) ≡ true)
        → HasVersions set.now reads versions.now }
    ensures { IsFor set.now seat.new.attempt }
{
    for _ in 0..20 {
        if !seat.attempt.is_running() || seat.saving.is_some() || !suits(seat.reads) {
            return None;
        }
        if let Some(stale) = seat.run(set, versions) {
            return Some(stale);
        }
    }
    None
}

// copies the only word of an object: whether it is the one that the core copies
fn copies(seat: &mut Seat, set: &TaskSet, o: ObjId, word: u32) -> bool
    requires { IsFor set.now seat.old.attempt }
    ensures { IsFor set.now seat.new.attempt }
{
    let Some((object, _)) = seat.attempt.copying() else {
        return false;
    };
    if seat.saving.is_some() {
        return false;
    }
    seat.copy(word);
    object == o
}

// runs to its end, where x is 30 and y is 12
fn ends(seat: &mut Seat, set: &TaskSet, versions: &Versions) -> bool
    requires kept { IsFor set.now seat.old.attempt }
    requires versions { (reads : Reads)
        → (has_no_point (range_of reads) ≡ false → is_below 6 (number_of reads.hi) ≡ true)
        → HasVersions set.now reads versions.now }
    ensures { result ≡ is_waiting seat.new.attempt.stage }
{
    runs(seat, set, versions);
    copies(seat, set, X, 30);
    runs(seat, set, versions);
    copies(seat, set, Y, 12);
    runs(seat, set, versions);
    seat.attempt.is_ready()
}

// the end of its interval once another core's finish joins at a point, which wrote this object
fn cut_end(seat: &mut Seat, set: &TaskSet, point: u32, o: ObjId) -> Option<u32>
    requires kept { IsFor set.now seat.old.attempt }
    requires object { o.0 < MAX_OBJECTS }
    ensures { IsFor set.now seat.new.attempt }
{
    let mut written = ObjSet::empty();
    written.add(o);
    seat.cut(Point(point), written);
    seat.reads.hi.map(|p| p.0)
}

// what is kept of a try from a point on, which copies this object from slot 1, if it copies one
fn view_from(lo: u32, copied: Option<ObjId>) -> View {
    View {
        interval: Interval::from(Point(lo)),
        copying: copied.map(|object| Pin { object, slot: 1 }),
    }
}

#[test]
fn a_core_reads_copies_and_ends(rt: HostRuntime) -> Result<(), Fail> {
    let Some(set) = small_set(&rt)? else {
        return Err(Fail::new("the set is within its limits"));
    };
    let Some(versions) = table(&rt, &set)? else {
        return Err(Fail::new("both objects have slots for two versions"));
    };
    let Some(mut seat) = begun(&rt, &set, 4, 5)? else {
        return Err(Fail::new("the set has a program"));
    };
    assert!(rt; seat.task() == Some(TaskId(4)) && seat.view() == Some(view_from(5, None)));
    assert!(rt; runs(&mut seat, &set, &versions).is_none());
    assert!(rt; seat.view() == Some(view_from(6, Some(X))));
    assert!(rt; copies(&mut seat, &set, X, 30));
    assert!(rt; seat.view() == Some(view_from(6, None)));
    assert!(rt; runs(&mut seat, &set, &versions).is_none());
    assert!(rt; copies(&mut seat, &set, Y, 12));
    assert!(rt; runs(&mut seat, &set, &versions).is_none());
    assert!(rt; seat.attempt.outcome() == Some(Outcome::Exit(42)));
    Ok(())
}

#[test]
fn a_core_that_commits_is_held_but_not_viewed(rt: HostRuntime) -> Result<(), Fail> {
    let Some(set) = small_set(&rt)? else {
        return Err(Fail::new("the set is within its limits"));
    };
    let Some(versions) = table(&rt, &set)? else {
        return Err(Fail::new("both objects have slots for two versions"));
    };
    let Some(mut reader) = begun(&rt, &set, 4, 6)? else {
        return Err(Fail::new("the set has a program"));
    };
    let Some(mut saver) = begun(&rt, &set, 5, 6)? else {
        return Err(Fail::new("the set has a program"));
    };
    assert!(rt; runs(&mut reader, &set, &versions).is_none());
    if !ends(&mut saver, &set, &versions) {
        return Err(Fail::new("the task comes to its end"));
    }
    assert!(rt; saver.view() == Some(view_from(6, None)));
    saver.grant(Entry {
        number: Seq(1),
        task: TaskId(5),
        point: Point(6),
        first: TaskId(6),
        outcome: Outcome::Exit(42),
    });
    assert!(rt; saver.saving.map(|s| s.is_whole) == Some(false));
    let seats = [saver, Seat::new(rt.alloc(), &set)?, reader];
    let (tasks, count) = held(&seats);
    assert!(rt; count == 2 && tasks[0] == TaskId(5) && tasks[1] == TaskId(4));
    let all = &seats[..];
    assert!(rt; is_saving(all) && !is_saving(&all[1..]));
    let (views, count) = views_beside(&seats, 1);
    assert!(rt; count == 1 && views[0] == view_from(6, Some(X)));
    assert!(rt; views_beside(&seats, 2).1 == 0);
    Ok(())
}

#[test]
fn a_core_whose_interval_is_empty_at_a_read_is_stale(rt: HostRuntime) -> Result<(), Fail> {
    let Some(set) = small_set(&rt)? else {
        return Err(Fail::new("the set is within its limits"));
    };
    let Some(versions) = table(&rt, &set)? else {
        return Err(Fail::new("both objects have slots for two versions"));
    };
    let Some(mut seat) = begun(&rt, &set, 4, 6)? else {
        return Err(Fail::new("the set has a program"));
    };
    assert!(rt; runs(&mut seat, &set, &versions).is_none());
    assert!(rt; copies(&mut seat, &set, X, 30));
    assert!(rt; cut_end(&mut seat, &set, 8, Y).is_none());
    assert!(rt; cut_end(&mut seat, &set, 9, X) == Some(9));
    assert!(rt; cut_end(&mut seat, &set, 6, X) == Some(6));
    let stale = Stale {
        lo: Point(6),
        hi: Point(6),
    };
    assert!(rt; runs(&mut seat, &set, &versions) == Some(stale));
    assert!(rt; seat.task().is_none() && seat.view().is_none());
    Ok(())
}
