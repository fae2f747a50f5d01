//! A kernel by hand: opened on a new device, driven to a finish, cut off, and opened again on what it left.

ghost use Rattle.std.specs.Prelude.{◌≡◌, ◌<◌, ◌≤◌, IfSome, IsTrue, false, length};
ghost use Rattle.device_model.specs.Devices.{need_on};
ghost use Rattle.recovery.specs.Images.{device_at, words_of};
ghost use Rattle.schedule_model.specs.Parts.{IsOfCores};
ghost use Rattle.power_trace.specs.Events.{event_of};
ghost use Rattle.kernel_core.specs.Events.{Stands};

use super::*;
use fram_dev::{Fram, MemFram};
use nv_base::{CoreId, Entry, Line, NoMemory, Outcome, Point, ProgId, Seq, Spawn, TaskId};
use power_trace::Event;
use std::test::Fail;
use task_set::{
    Name, ObjPart, ObjectParts, ProgPart, ProgramParts, SetParts, TaskSet, Tasks, Words,
};

// reads x, writes it with 7 more, and finishes with it
const ADD: [u32; 12] = [
    0x0000_0513,
    0x2000_0593,
    0x0010_0893,
    0x0000_0073,
    0x2000_2283,
    0x0072_8293,
    0x2050_2023,
    0x0020_0893,
    0x0000_0073,
    0x0002_8513,
    0x0040_0893,
    0x0000_0073,
];

// two cores, x of one word in three slots, which is 5, and two tasks of the program
fn small_set(rt: &HostRuntime, format: u8) -> Result<Option<TaskSet>, NoMemory> {
    let mut objects = ObjectParts::new(rt.alloc());
    objects.push(ObjPart {
        name: Name::from_slice(rt.alloc(), b"x")?,
        size: 1,
        slots: 3,
        first: Words::from_slice(rt.alloc(), &[5])?,
    })?;
    let mut programs = ProgramParts::new(rt.alloc());
    programs.push(ProgPart {
        name: Name::from_slice(rt.alloc(), b"add")?,
        fuel: 100,
        code: Words::from_slice(rt.alloc(), &ADD)?,
    })?;
    let task = Spawn {
        program: ProgId(0),
        arg: 0,
    };
    let parts = SetParts {
        format,
        cores: 2,
        memory: 1024,
        records: 2,
        objects,
        programs,
        tasks: Tasks::from_slice(rt.alloc(), &[task, task])?,
    };
    Ok(TaskSet::build(rt.alloc(), parts).ok())
}

// whether an event is of the kernel's cores
fn is_of(kernel: &Kernel, event: Event) -> bool
    ensures { IsTrue result → IsOfCores kernel.now.set.cores (event_of event) }
{
    match event {
        Event::Fail => true,
        Event::Core(core) => core.0 < kernel.set.cores(),
    }
}

// whether the kernel may take one event more
fn may_turn<F: Fram>(kernel: &Kernel, dev: &mut F) -> bool
    requires { Stands kernel.now (words_of (F.log dev.old) (F.start dev.old)) }
    ensures few { IsTrue result → length kernel.now.listing.items < kernel.now.room }
    ensures room { let words = words_of (F.log dev.old) (F.start dev.old) in
        IsTrue result → need_on (device_at kernel.now.set words) ≤ length (F.start dev.old) }
    ensures boots { IsTrue result → words_of (F.log dev.old) (F.start dev.old) 2 < 4294967295 }
    ensures live { IsTrue result → kernel.now.lost ≡ false }
    ensures log { F.log dev.new ≡ F.log dev.old }
    ensures start { F.start dev.new ≡ F.start dev.old }
{
    if kernel.lost || kernel.listing.len() >= kernel.room as usize {
        return false;
    }
    if dev.len() < kernel.layout.need() {
        return false;
    }
    match dev.read(2) {
        Ok(boots) => boots < u32::MAX,
        Err(_) => false,
    }
}

// one event: its line
pub(crate) fn line_of<F: Fram>(kernel: &mut Kernel, dev: &mut F, event: Event) -> Option<Line>
    requires { Stands kernel.old (words_of (F.log dev.old) (F.start dev.old)) }
    ensures { let words = words_of (F.log dev.new) (F.start dev.new) in
        IfSome result (λ line. Stands kernel.new words) }
{
    if !is_of(kernel, event) || !may_turn(kernel, dev) {
        return None;
    }
    match kernel.turn(dev, event) {
        Ok(line) => Some(line),
        Err(_) => None,
    }
}

// the next line that tells more than a start, in steps of the cores by turns
fn next_line<F: Fram>(kernel: &mut Kernel, dev: &mut F) -> Option<Line>
    requires { Stands kernel.old (words_of (F.log dev.old) (F.start dev.old)) }
    ensures { let words = words_of (F.log dev.new) (F.start dev.new) in
        IfSome result (λ line. Stands kernel.new words) }
{
    for i in 0..400u32 {
        match line_of(kernel, dev, Event::Core(CoreId((i % 2) as u8)))? {
            Line::Nothing | Line::Start { .. } => {}
            line => return Some(line),
        }
    }
    None
}

// the first finish, the line of a failure, and the boot
fn first_lines<F: Fram>(kernel: &mut Kernel, dev: &mut F) -> Option<[Line; 3]>
    requires { Stands kernel.old (words_of (F.log dev.old) (F.start dev.old)) }
{
    let finish = next_line(kernel, dev)?;
    let fail = line_of(kernel, dev, Event::Fail)?;
    Some([finish, fail, next_line(kernel, dev)?])
}

// the next two lines
fn two_lines<F: Fram>(kernel: &mut Kernel, dev: &mut F) -> Option<[Line; 2]>
    requires { Stands kernel.old (words_of (F.log dev.old) (F.start dev.old)) }
{
    let first = next_line(kernel, dev)?;
    Some([first, next_line(kernel, dev)?])
}

// a finish of a task, with x as its exit code
fn finish(number: u32, task: u32, point: u32, x: u32) -> Entry {
    Entry {
        number: Seq(number),
        task: TaskId(task),
        point: Point(point),
        outcome: Outcome::Exit(x),
        first: TaskId(3),
    }
}

// a device of so many words after a format, a finish, a failure and a boot
fn left_behind(rt: &HostRuntime) -> Result<Option<MemFram>, NoMemory> {
    let Some(set) = small_set(rt, 1)? else {
        return Ok(None);
    };
    let mut dev = MemFram::new(rt.alloc(), &[0; 130], 400)?;
    let Ok(mut kernel) = Kernel::open(rt.alloc(), &mut dev, set, How::Fresh, 10) else {
        return Ok(None);
    };
    let lines = [
        Line::Finish(finish(1, 1, 1, 12)),
        Line::Fail,
        Line::Booted {
            found: None,
            boots: 1,
        },
    ];
    if first_lines(&mut kernel, &mut dev) != Some(lines) {
        return Ok(None);
    }
    Ok(Some(dev))
}

// what a kernel tells that goes on there, with the set in a format
fn told_again(rt: &HostRuntime, format: u8) -> Result<Option<[Line; 2]>, NoMemory> {
    let (Some(set), Some(dev)) = (small_set(rt, format)?, left_behind(rt)?) else {
        return Ok(None);
    };
    let mut dev = dev.restore(rt.alloc(), 400)?;
    match Kernel::open(rt.alloc(), &mut dev, set, How::Again, 10) {
        Ok(mut kernel) => Ok(two_lines(&mut kernel, &mut dev)),
        Err(_) => Ok(None),
    }
}

#[test]
fn a_kernel_goes_on_in_each_format(rt: HostRuntime) -> Result<(), Fail> {
    let lines = [
        Line::Booted {
            found: None,
            boots: 2,
        },
        Line::Finish(finish(2, 2, 2, 19)),
    ];
    assert!(rt; told_again(&rt, 1)? == Some(lines));
    assert!(rt; told_again(&rt, 2)? == Some(lines));
    Ok(())
}

// why no kernel begins on these words
fn refused(
    rt: &HostRuntime,
    words: &[u32],
    format: u8,
    how: How,
) -> Result<Option<OpenRefusal>, NoMemory>
    requires { length words.now ≤ 65536 }
{
    let Some(set) = small_set(rt, format)? else {
        return Ok(None);
    };
    let mut dev = MemFram::new(rt.alloc(), words, 400)?;
    Ok(Kernel::open(rt.alloc(), &mut dev, set, how, 10).err())
}

#[test]
fn other_words_are_refused(rt: HostRuntime) -> Result<(), Fail> {
    let small = OpenRefusal::Small { need: 57, len: 56 };
    assert!(rt; refused(&rt, &[0; 56], 1, How::Fresh)? == Some(small));
    assert!(rt; refused(&rt, &[0; 56], 1, How::Again)? == Some(small));
    assert!(rt; refused(&rt, &[0; 57], 1, How::Fresh)?.is_none());
    assert!(rt; refused(&rt, &[0; 57], 1, How::Again)? == Some(OpenRefusal::Blank));
    assert!(rt; refused(&rt, &[7; 57], 1, How::Again)? == Some(OpenRefusal::Damaged(0)));
    Ok(())
}

// why none goes on where a kernel left its words, on a device of so many, once the count of boots is another one
fn refused_there(
    rt: &HostRuntime,
    len: usize,
    format: u8,
    boots: u32,
) -> Result<Option<OpenRefusal>, NoMemory> {
    let Some(mut dev) = left_behind(rt)? else {
        return Ok(None);
    };
    if dev.words().len() < 3 {
        return Ok(None);
    }
    dev.poke(2, boots);
    match dev.words().get(..len) {
        Some(words) if len <= 65536 => refused(rt, words, format, How::Again),
        _ => Ok(None),
    }
}

#[test]
fn words_of_a_kernel_may_be_too_few_or_worn(rt: HostRuntime) -> Result<(), Fail> {
    let worn = Some(OpenRefusal::Worn);
    assert!(rt; refused_there(&rt, 57, 1, 4_000_000_001)? == worn);
    assert!(rt; refused_there(&rt, 125, 2, 4_000_000_001)? == worn);
    let first = OpenRefusal::Small { need: 90, len: 89 };
    assert!(rt; refused_there(&rt, 89, 2, 1)? == Some(first));
    let moved = OpenRefusal::Small {
        need: 125,
        len: 124,
    };
    assert!(rt; refused_there(&rt, 124, 2, 1)? == Some(moved));
    assert!(rt; refused_there(&rt, 125, 2, 1)?.is_none());
    Ok(())
}
