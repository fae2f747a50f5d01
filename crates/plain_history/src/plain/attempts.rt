//! What the plain program keeps of the attempts on the cores.

use super::{Plain, Span, Try};
use crate::small_runs::OBJECTS;
use nv_base::NoMemory;
use std::alloc::Global;

impl Plain {
    /// The attempt on a core.
    pub(super) fn try_on(&self, core: u8) -> Option<Try> {
        match self.tries.get(usize::from(core)) {
            Some(attempt) => *attempt,
            None => None,
        }
    }

    // an attempt on a core, or none
    fn set_try(&mut self, core: u8, attempt: Option<Try>) {
        if let Some(place) = self.tries.get_mut(usize::from(core)) {
            *place = attempt;
        }
    }

    /// The finish that wrote the version of an object that an attempt has read.
    pub(super) fn read(&self, core: u8, object: u8) -> Option<u32> {
        match self.try_on(core)?.read.get(usize::from(object)) {
            Some(writer) => *writer,
            None => None,
        }
    }

    /// The task of an attempt.
    pub(super) fn task(&self, core: u8) -> u32 {
        match self.try_on(core) {
            None => 0,
            Some(attempt) => attempt.task,
        }
    }

    // all points that an attempt may read at
    fn from_start(&self, core: u8) -> Span {
        let start = match self.try_on(core) {
            None => 0,
            Some(attempt) => attempt.start,
        };
        Span {
            lo: start,
            hi: None,
        }
    }

    /// The interval of the reads of an attempt.
    pub fn interval(&self, core: u8) -> Span {
        let mut span = self.from_start(core);
        for object in 0..OBJECTS {
            if let Some(writer) = self.read(core, object) {
                span = span.within(self.point(writer), self.end(object, writer));
            }
        }
        span
    }

    /// The intervals of the attempts on all other cores.
    pub(super) fn others(&self, alloc: Global, own: u8) -> Result<Vec<Span>, NoMemory> {
        let mut others = Vec::new(alloc);
        for core in 0..8 {
            if core != own && self.try_on(core).is_some() {
                others.push(self.interval(core))?;
            }
        }
        Ok(others)
    }

    // whether the attempt on a core copies a version
    fn copies(&self, core: u8, object: u8, writer: u32) -> bool {
        match self.try_on(core) {
            None => false,
            Some(attempt) => {
                attempt.copying == Some(object) && self.read(core, object) == Some(writer)
            }
        }
    }

    /// Whether an attempt on another core copies a version.
    pub(super) fn is_copied(&self, own: u8, object: u8, writer: u32) -> bool {
        for core in 0..8 {
            if core != own && self.copies(core, object, writer) {
                return true;
            }
        }
        false
    }

    // whether a core holds a task
    fn is_held(&self, task: u32) -> bool {
        for core in 0..8 {
            if self.task(core) == task {
                return true;
            }
        }
        false
    }

    /// The least task that is open and that no core holds.
    pub fn ready(&self) -> Option<u32> {
        for task in 1..self.next() {
            if !self.has_finished(task) && !self.is_held(task) {
                return Some(task);
            }
        }
        None
    }

    /// An attempt begins.
    pub fn begin(&mut self, core: u8, task: u32) {
        let start = self.clock();
        self.set_try(
            core,
            Some(Try {
                task,
                start,
                read: [None; 3],
                copying: None,
            }),
        );
    }

    /// An attempt has nothing more.
    pub fn drop_try(&mut self, core: u8) {
        self.set_try(core, None);
    }

    /// An attempt has copied what it read last.
    pub fn copied(&mut self, core: u8) {
        if let Some(attempt) = self.try_on(core) {
            self.set_try(
                core,
                Some(Try {
                    copying: None,
                    ..attempt
                }),
            );
        }
    }

    /// An attempt reads an object.
    pub fn open(&mut self, core: u8, object: u8, writer: u32) {
        if let Some(attempt) = self.try_on(core) {
            self.set_try(core, Some(reading(attempt, object, writer)));
        }
    }
}

// an attempt that reads the version of an object that this finish wrote
fn reading(attempt: Try, object: u8, writer: u32) -> Try {
    let mut read = attempt.read;
    if let Some(place) = read.get_mut(usize::from(object)) {
        *place = Some(writer);
    }
    Try {
        read,
        copying: Some(object),
        ..attempt
    }
}
