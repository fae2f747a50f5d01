//! The plain program's verdict.

use super::{Plain, Span, number};
use crate::small_runs::{OBJECTS, Run, has};
use nv_base::NoMemory;
use std::alloc::Global;

/// The answer to an attempt that has ended. A slot counts where the object is written, and is 255 elsewhere.
#[derive(Clone, Copy, PartialEq, Eq)]
pub enum Answer {
    /// It finishes so.
    Granted {
        point: u32,
        number: u32,
        first: u32,
        slots: [u8; 3],
    },
    /// No point is left for it.
    Empty {
        lo: u32,
        hi: u32,
    },
    /// This object has no slot for its new version.
    Slots(u8),
    /// The open tasks, and those that it spawns, find no records.
    Records {
        pending: u32,
        spawns: u32,
    },
}

impl Plain {
    // the interval of a finish
    fn finish_interval(&self, core: u8, run: Run) -> Span {
        let mut span = self.interval(core);
        for object in 0..OBJECTS {
            if has(run.writes, object) {
                span = span.within(self.bound(object), None);
            }
        }
        span
    }

    // where a finish in this interval stands
    fn place(&self, span: Span, run: Run) -> u32 {
        if run.writes == 0 {
            return span.lo;
        }
        match span.hi {
            None => self.clock().saturating_add(1),
            Some(hi) => hi.saturating_sub(1),
        }
    }

    // whether the tasks that a run spawns find records
    fn has_records(&self, run: Run) -> bool {
        let left = self.pending().saturating_sub(1);
        left.saturating_add(run.spawns) <= self.records
    }

    // the answer where a point is in the interval of the finish
    fn verdict_in(&self, span: Span, run: Run, slots: Result<[u8; 3], u8>) -> Answer {
        match slots {
            Err(object) => Answer::Slots(object),
            Ok(_) if !self.has_records(run) => Answer::Records {
                pending: self.pending(),
                spawns: run.spawns,
            },
            Ok(slots) => Answer::Granted {
                point: self.place(span, run),
                number: number(self.finishes.len()),
                first: self.next(),
                slots,
            },
        }
    }

    /// The answer to an attempt that has ended with this run.
    pub fn verdict(&self, alloc: Global, core: u8, run: Run) -> Result<Answer, NoMemory> {
        let span = self.finish_interval(core, run);
        if span.is_empty() {
            return Ok(Answer::Empty {
                lo: span.lo,
                hi: span.hi.unwrap_or(0),
            });
        }
        let others = self.others(alloc, core)?;
        let slots = self.free_slots(core, others.as_slice(), run);
        Ok(self.verdict_in(span, run, slots))
    }
}
