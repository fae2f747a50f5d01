//! The small kernel beside the plain program: each step asks both, and they have to agree.

use interval::{Interval, Pin, Version};
use nv_base::{NoMemory, Point, TaskRec};
use plain_history::{Answer, OBJECTS, Plain, Run, Span, Start, bit, has, run_of};
use small_kernel::{Held, Kernel, Others};
use std::alloc::Global;
use validate::Stale;

/// What a step of a core told.
#[derive(Clone, Copy, PartialEq, Eq)]
pub enum Told {
    /// No task is ready.
    Nothing,
    /// It began this task.
    Began(u32),
    /// It reads the version in a slot, with this begin, which is the newest or an older one.
    Reads { slot: u8, begin: u32, newest: bool },
    /// It has copied what it read.
    Copied,
    /// It was stale, and has nothing more.
    Stale { lo: u32, hi: u32 },
    /// It asked for its finish.
    Asked(Answer),
}

/// Both.
#[derive(Drop)]
pub struct Pair {
    kernel: Kernel,
    plain: Plain,
}

// An end as the plain program has it.
fn end(hi: Option<Point>) -> Option<u32> {
    match hi {
        None => None,
        Some(hi) => Some(hi.0),
    }
}

// An interval as the plain program has it.
fn span(interval: Interval) -> Span {
    Span {
        lo: interval.lo.0,
        hi: end(interval.hi),
    }
}

// whether it is a task with this id, or none is wanted
fn is_task(task: Option<TaskRec>, wanted: Option<u32>) -> bool {
    match task {
        None => wanted.is_none(),
        Some(task) => wanted == Some(task.id.0),
    }
}

// the least object that a run reads and that is not yet read
fn unread(run: Run, read: u32) -> Option<u8> {
    for o in 0..OBJECTS {
        if has(run.reads, o) && !has(read, o) {
            return Some(o);
        }
    }
    None
}

// a core that has begun a task
fn begun(task: TaskRec, clock: Point) -> Held {
    Held {
        task,
        start: clock,
        interval: Interval::from(clock),
        read: 0,
        copying: None,
    }
}

// a core that reads this version, of whose interval this is left
fn reading(held: Held, version: Version, left: Interval) -> Held {
    Held {
        interval: left,
        read: held.read | bit(version.object.0),
        copying: Some(Pin {
            object: version.object,
            slot: version.slot,
        }),
        ..held
    }
}

impl Pair {
    /// Both, with these tasks from id 2 on, in order. None where these are not within the limits.
    pub fn opened(alloc: Global, start: Start, args: &[u32]) -> Result<Option<Pair>, NoMemory> {
        let tasks = u32::try_from(args.len()).unwrap_or(u32::MAX);
        let plain = Plain::opened(alloc, start, tasks)?;
        let Some(kernel) = Kernel::opened(alloc, start, args)? else {
            return Ok(None);
        };
        Ok(Some(Pair { kernel, plain }))
    }

    /// The greatest point.
    pub fn clock(&self) -> u32 {
        self.plain.clock()
    }

    /// Whether each finish has read what serial order gives it.
    pub fn is_serial(&self) -> bool {
        self.plain.is_serial()
    }

    // a vacant core begins the least task that is ready
    fn begin(&mut self, alloc: Global, core: u8) -> Result<Option<Told>, NoMemory> {
        let ready = self.kernel.ready(alloc)?;
        if !is_task(ready, self.plain.ready()) {
            return Ok(None);
        }
        let Some(task) = ready else {
            return Ok(Some(Told::Nothing));
        };
        let held = begun(task, self.kernel.clock);
        self.kernel.cores.hold(core, Some(held));
        self.plain.begin(core, task.id.0);
        Ok(Some(Told::Began(task.id.0)))
    }

    // a core has copied what it read
    fn copied(&mut self, core: u8, held: Held) -> Told {
        self.kernel.cores.hold(
            core,
            Some(Held {
                copying: None,
                ..held
            }),
        );
        self.plain.copied(core);
        Told::Copied
    }

    // a core gives its task up
    fn give_up(&mut self, core: u8) {
        self.kernel.cores.hold(core, None);
        self.plain.drop_try(core);
    }

    // a core reads an object from outside
    fn fetch(&mut self, core: u8, held: Held, object: u8) -> Option<Told> {
        match self.kernel.trial.table.read(object, held.interval)? {
            Err(stale) => self.is_stale(core, stale),
            Ok((version, left)) => self.opens(core, held, object, version, left),
        }
    }

    // a core is stale between these points
    fn is_stale(&mut self, core: u8, stale: Stale) -> Option<Told> {
        let (lo, hi) = (stale.lo.0, stale.hi.0);
        let interval = self.plain.interval(core);
        if hi > lo || interval != (Span { lo, hi: Some(hi) }) {
            return None;
        }
        self.give_up(core);
        Some(Told::Stale { lo, hi })
    }

    // a core reads this version, and this is left of its interval
    fn opens(
        &mut self,
        core: u8,
        held: Held,
        object: u8,
        version: Version,
        left: Interval,
    ) -> Option<Told> {
        let writer = self.chosen(core, object)?;
        self.plain.open(core, object, writer);
        self.kernel
            .cores
            .hold(core, Some(reading(held, version, left)));
        if version.object.0 != object || self.plain.interval(core) != span(left) {
            return None;
        }
        self.told_read(version, writer)
    }

    // the finish whose version of an object a core reads: None where no point is in its interval
    fn chosen(&self, core: u8, object: u8) -> Option<u32> {
        let interval = self.plain.interval(core);
        if interval.is_empty() {
            return None;
        }
        self.plain.chosen(object, interval.hi)
    }

    // what is told of a version that is read: None where it is not that of this finish
    fn told_read(&self, version: Version, writer: u32) -> Option<Told> {
        let object = version.object.0;
        if self.plain.slot_of(object, writer) != Some(version.slot)
            || self.plain.point(writer) != version.begin.0
        {
            return None;
        }
        Some(Told::Reads {
            slot: version.slot,
            begin: version.begin.0,
            newest: self.plain.chosen(object, None) == Some(writer),
        })
    }

    // a core asks for its finish, and finishes where it may
    fn ask(&mut self, alloc: Global, core: u8, held: Held) -> Result<Option<Told>, NoMemory> {
        let others = self.kernel.cores.others(alloc, core)?;
        let expected = self.plain.verdict(alloc, core, run_of(held.task.arg))?;
        if self.kernel.ask(&held, &others) != Some(expected) {
            return Ok(None);
        }
        if !self.ends(alloc, core, held, &others, expected)? {
            return Ok(None);
        }
        Ok(Some(Told::Asked(expected)))
    }

    // what follows an answer: whether each call could be made
    fn ends(
        &mut self,
        alloc: Global,
        core: u8,
        held: Held,
        others: &Others,
        answer: Answer,
    ) -> Result<bool, NoMemory> {
        let Answer::Granted {
            point,
            first,
            slots,
            ..
        } = answer
        else {
            self.give_up(core);
            return Ok(true);
        };
        let given = self
            .kernel
            .join(alloc, core, &held, others, Point(point), slots)?;
        self.plain
            .finish(core, run_of(held.task.arg), point, slots)?;
        Ok(given == Some(first))
    }

    /// One step of a core: what it told, or None where kernel and plain program disagree.
    pub fn step(&mut self, alloc: Global, core: u8) -> Result<Option<Told>, NoMemory> {
        let Some(held) = self.kernel.cores.on(core) else {
            return self.begin(alloc, core);
        };
        if held.copying.is_some() {
            return Ok(Some(self.copied(core, held)));
        }
        match unread(run_of(held.task.arg), held.read) {
            Some(object) => Ok(self.fetch(core, held, object)),
            None => self.ask(alloc, core, held),
        }
    }

    /// Whether bounds, versions, intervals and tasks are those of the plain program.
    pub fn agree(&self) -> bool {
        self.bounds_agree() && self.intervals_agree() && self.ends_agree() && self.counts_agree()
    }

    fn counts_agree(&self) -> bool {
        self.kernel.queue.next().0 == self.plain.next()
            && u32::from(self.kernel.queue.pending()) == self.plain.pending()
            && self.kernel.number.0 == self.plain.count()
            && self.kernel.clock.0 == self.plain.clock()
    }

    fn bounds_agree(&self) -> bool {
        for o in 0..OBJECTS {
            if self.kernel.trial.table.bound(o) != Some(self.plain.bound(o)) {
                return false;
            }
        }
        true
    }

    fn intervals_agree(&self) -> bool {
        for core in 0..8 {
            if !self.interval_agrees(core) {
                return false;
            }
        }
        true
    }

    // whether it is so of one core
    fn interval_agrees(&self, core: u8) -> bool {
        match self.kernel.cores.on(core) {
            None => true,
            Some(held) => span(held.interval) == self.plain.interval(core),
        }
    }

    // whether each version that stands in a slot is the last one that came into it, with the same life
    fn ends_agree(&self) -> bool {
        for (place, version) in self.kernel.trial.table.stands().iter().enumerate() {
            if !self.end_agrees(place, *version) {
                return false;
            }
        }
        true
    }

    // whether it is so of one
    fn end_agrees(&self, place: usize, version: Version) -> bool {
        let Some(writer) = self.plain.holder(version.object.0, version.slot) else {
            return false;
        };
        let Some(hi) = self.kernel.trial.table.end_of(place) else {
            return false;
        };
        self.plain.point(writer) == version.begin.0
            && self.plain.end(version.object.0, writer) == end(hi)
    }
}
