//! The table of a set, and an attempt with room for its tasks: each core's run is made in it, to its end.

use crate::held::{Held, Others};
use crate::running::{has_done, runs};
use crate::small_set::small_set;
use crate::standing::Table;
use nv_base::{NoMemory, Point, Seq, Spawn};
use plain_history::{Run, Start, run_of};
use std::alloc::Global;
use std::marker::Model;
use task_queue::Queue;
use task_set::TaskSet;
use validate::{MAX_OTHERS, Verdict, validate};
use vol_copy::Attempt;

/// The three, for one set.
#[derive(Drop)]
pub struct Trial {
    pub set: TaskSet,
    pub table: Table,
    attempt: Attempt,
}

impl Model for Trial {
    ghost use Rattle.set_model.specs.Sets.{TaskSet as Set};
    ghost use Rattle.validate.specs.Answers.{AreForOne};

    ghost Value = { Set };

    ghost view = { λ t. t.set };

    ghost invariant = { λ t. AreForOne t.set t.table t.attempt };
}

impl Trial {
    /// The table of the small set that begins so. None where there is no such set.
    pub fn opened(alloc: Global, start: Start) -> Result<Option<Trial>, NoMemory> {
        let Some(set) = small_set(alloc, start)? else {
            return Ok(None);
        };
        let Some(table) = Table::opened(alloc, &set, Point(start.clock))? else {
            return Ok(None);
        };
        let attempt = Attempt::new(alloc, &set)?;
        Ok(Some(Trial {
            set,
            table,
            attempt,
        }))
    }

    /// The verdict on a core whose task has read all that it reads, once its run was made. None where the run is another
    /// than its argument says, or where a number is too great to ask.
    pub fn ask(
        &mut self,
        queue: &Queue,
        held: &Held,
        others: &Others,
        clock: Point,
        number: Seq,
    ) -> Option<Verdict> {
        if others.views.len() > MAX_OTHERS || clock.0 > 1_000_000 || number.0 > 1_000_000 {
            return None;
        }
        if !runs(&self.set, &mut self.attempt, held.task, held.start) {
            return None;
        }
        if !has_done(&self.attempt, run_of(held.task.arg)) {
            return None;
        }
        Some(validate(
            &self.table.versions,
            queue,
            &self.attempt,
            held.interval,
            others.views.as_slice(),
            clock,
            number,
        ))
    }

    /// The tasks that the last run has spawned.
    pub fn spawns(&self, alloc: Global) -> Result<Vec<Spawn>, NoMemory> {
        Ok(Vec::from_slice(alloc, self.attempt.spawns())?)
    }

    /// The table after a finish at this point, into these slots. False where one of them is not the least free one.
    pub fn join(
        &mut self,
        run: Run,
        slots: [u8; 3],
        p: Point,
        others: &Others,
    ) -> Result<bool, NoMemory> {
        self.table.join(run, slots, p, others)
    }
}
