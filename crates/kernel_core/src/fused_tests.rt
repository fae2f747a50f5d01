//! A device that loses one write, at each place of a run: what is told before it and after it, once for each task.

ghost use Rattle.recovery.specs.Images.{words_of};
ghost use Rattle.kernel_core.specs.Events.{Stands};

use crate::tests::line_of;
use crate::{How, Kernel, OpenRefusal};
use fram_dev::{Fram, MemFram};
use nv_base::{CoreId, Entry, Line, NoMemory, ObjId, ProgId, Spawn, TaskId};
use power_trace::Event;
use recovery::read_object;
use shadow_index::need;
use std::test::Fail;
use task_set::{
    Name, ObjPart, ObjectParts, ProgPart, ProgramParts, SetParts, TaskSet, Tasks, Words,
};

// reads object a0 mod 16, and writes its word and 1 to object a0 / 16
const CP: [u32; 13] = [
    0x0045_5313,
    0x00f5_7513,
    0x2000_0593,
    0x0010_0893,
    0x0000_0073,
    0x0003_0513,
    0x2000_2283,
    0x0012_8293,
    0x2050_2023,
    0x0020_0893,
    0x0000_0073,
    0x0040_0893,
    0x0000_0073,
];

// writes a0 / 16 to object a0 mod 16
const PUT: [u32; 8] = [
    0x0045_5293,
    0x00f5_7513,
    0x2050_2023,
    0x2000_0593,
    0x0020_0893,
    0x0000_0073,
    0x0040_0893,
    0x0000_0073,
];

// the writes of a format: one for each of the 84 words that the set needs, and word 0 once more
const FORMAT: u32 = 85;

// the writes of a run: a format, 11 of the commit that the failure cuts, a boot's one, and 25 of each commit
const ALL: u32 = FORMAT + 11 + 1 + 25 + 25;

// at which event power fails: after 11 writes of put's commit, which come after its start, 8 instructions and a verdict
const FAILS: u32 = 42;

const NEVER: u32 = 400;

// an object of one word in two slots
fn object(rt: &HostRuntime, name: &[u8], first: u32) -> Result<ObjPart, NoMemory> {
    Ok(ObjPart {
        name: Name::from_slice(rt.alloc(), name)?,
        size: 1,
        slots: 2,
        first: Words::from_slice(rt.alloc(), &[first])?,
    })
}

// a program
fn program(rt: &HostRuntime, name: &[u8], code: &[u32]) -> Result<ProgPart, NoMemory> {
    Ok(ProgPart {
        name: Name::from_slice(rt.alloc(), name)?,
        fuel: 100,
        code: Words::from_slice(rt.alloc(), code)?,
    })
}

// two cores, x = 5 and y = 8, a task that copies x to y, and one that writes 9 to x
fn pair_set(rt: &HostRuntime) -> Result<Option<TaskSet>, NoMemory> {
    let mut objects = ObjectParts::new(rt.alloc());
    objects.push(object(rt, b"x", 5)?)?;
    objects.push(object(rt, b"y", 8)?)?;
    let mut programs = ProgramParts::new(rt.alloc());
    programs.push(program(rt, b"cp", &CP)?)?;
    programs.push(program(rt, b"put", &PUT)?)?;
    let cp = Spawn {
        program: ProgId(0),
        arg: 16,
    };
    let put = Spawn {
        program: ProgId(1),
        arg: 144,
    };
    let parts = SetParts {
        format: 1,
        cores: 2,
        memory: 1024,
        records: 4,
        objects,
        programs,
        tasks: Tasks::from_slice(rt.alloc(), &[cp, put])?,
    };
    Ok(TaskSet::build(rt.alloc(), parts).ok())
}

// what a kernel tells of a task
#[derive(Clone, Copy)]
struct Seen {
    starts: bool,
    finish: Option<Entry>,
    twice: bool,
}

impl Seen {
    fn none() -> Seen {
        Seen {
            starts: false,
            finish: None,
            twice: false,
        }
    }

    fn tell(&mut self, entry: Entry) {
        self.twice = self.finish.is_some();
        self.finish = Some(entry);
    }
}

// what a kernel tells of both, and the last finish that a boot finds on the device
#[derive(Clone, Copy)]
struct Told {
    cp: Seen,
    put: Seen,
    last: Option<Entry>,
}

impl Told {
    fn nothing() -> Told {
        Told {
            cp: Seen::none(),
            put: Seen::none(),
            last: None,
        }
    }

    fn tell(&mut self, entry: Entry) {
        if entry.task == TaskId(1) {
            self.cp.tell(entry);
        } else {
            self.put.tell(entry);
        }
    }

    fn start(&mut self, task: TaskId) {
        if task == TaskId(1) {
            self.cp.starts = true;
        } else {
            self.put.starts = true;
        }
    }

    // a line, and the last finish of the state after it
    fn note(&mut self, line: Line, last: Option<Entry>) {
        match line {
            Line::Start { task, .. } => self.start(task),
            Line::Finish(entry) | Line::Found(entry) => self.tell(entry),
            Line::Booted { found, .. } => {
                self.last = last;
                if let Some(entry) = found {
                    self.tell(entry);
                }
            }
            _ => {}
        }
    }
}

// steps of the cores by turns, with a failure of power at one, until a call is lost
fn drive<F: Fram>(kernel: &mut Kernel, dev: &mut F, fails: u32) -> Told
    requires { Stands kernel.old (words_of (F.log dev.old) (F.start dev.old)) }
{
    let mut told = Told::nothing();
    for i in 0..400u32 {
        let core = Event::Core(CoreId((i % 2) as u8));
        let event = if i == fails { Event::Fail } else { core };
        let Some(line) = line_of(kernel, dev, event) else {
            break;
        };
        told.note(line, kernel.committed.state.last);
    }
    told
}

// the word of an object, as the device has it
fn word_of<F: Fram>(kernel: &Kernel, dev: &mut F, o: ObjId) -> Option<u32> {
    let (set, state) = (&kernel.set, &kernel.committed.state);
    if set.objects() <= o.0 || state.slots.len() != usize::from(set.objects()) {
        return None;
    }
    if state.shift != 0 || dev.len() < need(set) {
        return None;
    }
    if set.size(o) == 0 || set.slots(o) <= state.slots[usize::from(o.0)] {
        return None;
    }
    read_object(dev, set, state, o, 0).ok()
}

// x and y, as the device has them
fn values<F: Fram>(kernel: &Kernel, dev: &mut F) -> Option<[u32; 2]> {
    let x = word_of(kernel, dev, ObjId(0))?;
    let y = word_of(kernel, dev, ObjId(1))?;
    Some([x, y])
}

// what is told until the device loses a call, if it loses none in the format
fn first_told(rt: &HostRuntime, dev: &mut MemFram, set: TaskSet) -> Option<Told> {
    let Ok(mut kernel) = Kernel::open(rt.alloc(), dev, set, How::Fresh, 10) else {
        return None;
    };
    let mut told = drive(&mut kernel, dev, FAILS);
    if let Some(entry) = kernel.close_line() {
        told.tell(entry);
    }
    Some(told)
}

// what is told from there on, and x and y at the end
fn rest_told(
    rt: &HostRuntime,
    dev: &mut MemFram,
    set: TaskSet,
) -> Result<(Told, Option<[u32; 2]>), OpenRefusal> {
    let mut kernel = Kernel::open(rt.alloc(), dev, set, How::Again, 10)?;
    let told = drive(&mut kernel, dev, NEVER);
    let values = values(&kernel, dev);
    Ok((told, values))
}

// the last finish on the device, if it is a task's
fn of_task(last: Option<Entry>, task: TaskId) -> Option<Entry> {
    match last {
        Some(entry) if entry.task == task => Some(entry),
        _ => None,
    }
}

// the one finish of a task: told before the loss or hidden by it, and then not begun again; or told after it
fn only(first: Seen, rest: Seen, hidden: Option<Entry>) -> Option<Entry> {
    if first.twice || rest.twice {
        return None;
    }
    match (first.finish.or(hidden), rest.finish) {
        (Some(entry), None) if !rest.starts => Some(entry),
        (None, Some(entry)) if rest.starts => Some(entry),
        _ => None,
    }
}

// x and y after both finishes, one by one in the order of their points and then of their numbers
fn replayed(cp: Entry, put: Entry) -> [u32; 2] {
    let first = put.point.0 < cp.point.0;
    let tied = put.point.0 == cp.point.0 && put.number.0 < cp.number.0;
    if first || tied { [9, 10] } else { [9, 6] }
}

// whether each task finished once, and x and y are what that makes; a lost write hides a finish only where it is made
fn is_one_run(first: Told, rest: Told, values: Option<[u32; 2]>, made: bool) -> bool {
    let last = if made { rest.last } else { None };
    let cp = only(first.cp, rest.cp, of_task(last, TaskId(1)));
    let put = only(first.put, rest.put, of_task(last, TaskId(2)));
    match (cp, put) {
        (Some(cp), Some(put)) => {
            let numbers = [cp.number.0, put.number.0];
            (numbers == [1, 2] || numbers == [2, 1]) && values == Some(replayed(cp, put))
        }
        _ => false,
    }
}

// whether all is right where so many writes are made, and the next one is lost
fn is_right(rt: &HostRuntime, passes: u32, made: bool) -> Result<bool, NoMemory> {
    let (Some(set), Some(again)) = (pair_set(rt)?, pair_set(rt)?) else {
        return Ok(false);
    };
    let mut dev = MemFram::fused(rt.alloc(), &[0; 84], passes, made)?;
    let first = first_told(rt, &mut dev, set);
    if first.is_some() != (passes >= FORMAT) || (dev.losses() == 0) != (passes >= ALL) {
        return Ok(false);
    }
    let mut dev = dev.restore(rt.alloc(), 400)?;
    let is_blank = passes < if made { FORMAT - 1 } else { FORMAT };
    Ok(match rest_told(rt, &mut dev, again) {
        Ok((rest, values)) => {
            !is_blank && is_one_run(first.unwrap_or(Told::nothing()), rest, values, made)
        }
        Err(refusal) => is_blank && refusal == OpenRefusal::Blank,
    })
}

#[test]
fn each_task_finishes_once_around_each_lost_write(rt: HostRuntime) -> Result<(), Fail> {
    for passes in 0..=ALL {
        let kept = is_right(&rt, passes, false)?;
        let made = is_right(&rt, passes, true)?;
        assert_eq!(rt; (passes, kept, made), (passes, true, true));
    }
    Ok(())
}
