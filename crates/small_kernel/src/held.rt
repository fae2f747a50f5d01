//! What the cores of the small kernel hold, and what of it a verdict on another core sees.

use interval::{Interval, Pin};
use nv_base::{NoMemory, Point, TaskId, TaskRec};
use std::alloc::Global;
use validate::View;

/// What a core holds: a task, the interval of its reads, the objects that it has read, and the slot that it copies
/// from.
#[derive(Clone, Copy)]
pub struct Held {
    pub task: TaskRec,
    pub start: Point,
    pub interval: Interval,
    pub read: u32,
    pub copying: Option<Pin>,
}

/// What is kept of the attempts on all other cores, whole and in parts.
#[derive(Drop)]
pub struct Others {
    pub views: Vec<View>,
    pub intervals: Vec<Interval>,
    pub pins: Vec<Pin>,
}

/// What each core holds, by its number.
#[derive(Drop)]
pub struct Cores {
    held: [Option<Held>; 8],
}

impl Cores {
    /// Cores that hold nothing.
    pub fn new() -> Cores {
        Cores { held: [None; 8] }
    }

    /// What a core holds.
    pub fn on(&self, core: u8) -> Option<Held> {
        match self.held.get(usize::from(core)) {
            Some(held) => *held,
            None => None,
        }
    }

    /// A core holds this, or nothing.
    pub fn hold(&mut self, core: u8, held: Option<Held>) {
        if let Some(place) = self.held.get_mut(usize::from(core)) {
            *place = held;
        }
    }

    /// The tasks that are held.
    pub fn tasks(&self, alloc: Global) -> Result<Vec<TaskId>, NoMemory> {
        let mut tasks = Vec::new(alloc);
        for core in 0..8 {
            if let Some(held) = self.on(core) {
                tasks.push(held.task.id)?;
            }
        }
        Ok(tasks)
    }

    // what is kept of the attempts on all cores but this
    fn views(&self, alloc: Global, own: u8) -> Result<Vec<View>, NoMemory> {
        let mut views = Vec::new(alloc);
        for core in 0..8 {
            if core != own
                && let Some(held) = self.on(core)
            {
                views.push(View {
                    interval: held.interval,
                    copying: held.copying,
                })?;
            }
        }
        Ok(views)
    }

    /// What is kept of the attempts on all cores but this.
    pub fn others(&self, alloc: Global, own: u8) -> Result<Others, NoMemory> {
        let views = self.views(alloc, own)?;
        Ok(Others {
            intervals: intervals_of(alloc, views.as_slice())?,
            pins: pins_of(alloc, views.as_slice())?,
            views,
        })
    }

    // cuts the interval of a core, if it has read one of these objects
    fn cut_on(&mut self, core: u8, writes: u32, p: Point) {
        let Some(held) = self.on(core) else {
            return;
        };
        if held.read & writes != 0 {
            let mut interval = held.interval;
            interval.cut(p);
            self.hold(core, Some(Held { interval, ..held }));
        }
    }

    /// Cuts the intervals of those that have read what a finish at this point writes.
    pub fn cut(&mut self, writes: u32, p: Point) {
        for core in 0..8 {
            self.cut_on(core, writes, p);
        }
    }
}

// the intervals of some attempts
fn intervals_of(alloc: Global, views: &[View]) -> Result<Vec<Interval>, NoMemory> {
    let mut intervals = Vec::new(alloc);
    for view in views {
        intervals.push(view.interval)?;
    }
    Ok(intervals)
}

// the slots that some attempts copy from
fn pins_of(alloc: Global, views: &[View]) -> Result<Vec<Pin>, NoMemory> {
    let mut pins = Vec::new(alloc);
    for view in views {
        if let Some(pin) = view.copying {
            pins.push(pin)?;
        }
    }
    Ok(pins)
}
