//! A plain program in place of the tables: it keeps the finishes and what each attempt has read, and walks them for each
//! answer.

mod attempts;
mod room;
mod serial;
mod span;
mod verdict;

use crate::small_runs::{Start, has};
use nv_base::NoMemory;
pub use span::Span;
use std::alloc::Global;
pub use verdict::Answer;

// A finish. Its number is its place in the list; the first one made the tasks and the versions of the beginning.
#[derive(Clone, Copy)]
struct Finish {
    task: u32,
    point: u32,
    reads: u32,
    writes: u32,
    spawns: u32,
}

// An attempt: its task, the point that it reads from, the finishes that wrote what it has read, by object, and whether it
// copies what it read last.
#[derive(Clone, Copy)]
struct Try {
    task: u32,
    start: u32,
    read: [Option<u32>; 3],
    copying: Option<u8>,
}

// A version that a finish has read.
#[derive(Clone, Copy)]
struct Seen {
    reader: u32,
    object: u8,
    writer: u32,
}

// The slot that a version came into.
#[derive(Clone, Copy)]
struct Put {
    object: u8,
    slot: u8,
    writer: u32,
}

/// All that happened. Every answer is a walk.
#[derive(Drop)]
pub struct Plain {
    slots: [u8; 3],
    records: u32,
    finishes: Vec<Finish>,
    tries: [Option<Try>; 8],
    seen: Vec<Seen>,
    puts: Vec<Put>,
}

// A number of 32 bits, or the greatest one.
fn number(place: usize) -> u32 {
    u32::try_from(place).unwrap_or(u32::MAX)
}

// the finish that so many tasks come from
fn first_finish(clock: u32, tasks: u32) -> Finish {
    Finish {
        task: 1,
        point: clock,
        reads: 0,
        writes: 7,
        spawns: tasks.saturating_add(1),
    }
}

// the version of an object that a history begins with
fn first_put(object: u8) -> Put {
    Put {
        object,
        slot: 0,
        writer: 0,
    }
}

impl Plain {
    /// So many open tasks, which are the children of task 1, and a version of each object in slot 0 that begins at the clock.
    pub fn opened(alloc: Global, start: Start, tasks: u32) -> Result<Plain, NoMemory> {
        Ok(Plain {
            slots: start.slots,
            records: u32::from(start.records),
            finishes: Vec::from_slice(alloc, &[first_finish(start.clock, tasks)])?,
            tries: [None; 8],
            seen: Vec::new(alloc),
            puts: Vec::from_slice(alloc, &[first_put(0), first_put(1), first_put(2)])?,
        })
    }

    /// How many finishes there are behind the first one.
    pub fn count(&self) -> u32 {
        number(self.finishes.len()).wrapping_sub(1)
    }

    /// The greatest point.
    pub fn clock(&self) -> u32 {
        let mut clock = 0;
        for finish in &self.finishes {
            if clock < finish.point {
                clock = finish.point;
            }
        }
        clock
    }

    /// The point of a finish.
    pub fn point(&self, number: u32) -> u32 {
        match self.finishes.get(number as usize) {
            None => 0,
            Some(finish) => finish.point,
        }
    }

    /// The greatest point that read or wrote an object.
    pub fn bound(&self, object: u8) -> u32 {
        let mut bound = 0;
        for finish in &self.finishes {
            if has(finish.reads | finish.writes, object) && bound < finish.point {
                bound = finish.point;
            }
        }
        bound
    }

    /// The point of the next finish that wrote an object.
    pub fn end(&self, object: u8, writer: u32) -> Option<u32> {
        for (place, finish) in self.finishes.iter().enumerate() {
            if writer < number(place) && has(finish.writes, object) {
                return Some(finish.point);
            }
        }
        None
    }

    /// The newest finish that wrote an object and stands before an end.
    pub fn chosen(&self, object: u8, hi: Option<u32>) -> Option<u32> {
        let mut chosen = None;
        for (place, finish) in self.finishes.iter().enumerate() {
            if span::is_before(finish.point, hi) && has(finish.writes, object) {
                chosen = Some(number(place));
            }
        }
        chosen
    }

    /// The slot that a version came into.
    pub fn slot_of(&self, object: u8, writer: u32) -> Option<u8> {
        for put in &self.puts {
            if put.object == object && put.writer == writer {
                return Some(put.slot);
            }
        }
        None
    }

    /// The writer of the version that came into a slot last.
    pub fn holder(&self, object: u8, slot: u8) -> Option<u32> {
        let mut holder = None;
        for put in &self.puts {
            if put.object == object && put.slot == slot {
                holder = Some(put.writer);
            }
        }
        holder
    }

    /// The id of the next task.
    pub fn next(&self) -> u32 {
        let mut next = 1u32;
        for finish in &self.finishes {
            next = next.saturating_add(finish.spawns);
        }
        next
    }

    // whether a task has finished
    fn has_finished(&self, task: u32) -> bool {
        for finish in &self.finishes {
            if finish.task == task {
                return true;
            }
        }
        false
    }

    /// How many tasks are open.
    pub fn pending(&self) -> u32 {
        let mut pending = 0u32;
        for task in 1..self.next() {
            if !self.has_finished(task) {
                pending = pending.saturating_add(1);
            }
        }
        pending
    }
}
