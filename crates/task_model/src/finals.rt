//! What a listing leaves, and what a replay of it answers.

ghost use Rattle.std.specs.Prelude.{◌≡◌, IfOk};
ghost use Rattle.set_model.specs.Formatted.{formatted};
ghost use Rattle.task_model.specs.Finals.{IsFit, state_of};

use crate::objects::{Objects, first_objects};
use crate::spawn_counts::SpawnCounts;
use crate::task_list::TaskList;
use nv_base::{NoMemory, Point, Seq, TaskId};
use set_model::laws::formatted_state_is_fit;
use std::alloc::Global;
use task_set::TaskSet;

/// The state that a listing leaves.
#[derive(Debug, Drop)]
pub struct Final {
    /// The words of each object.
    pub objects: Objects,
    /// The open tasks, by id.
    pub tasks: TaskList,
    /// The greatest point so far.
    pub clock: Point,
    /// The number of the last finish.
    pub number: Seq,
    /// Above all ids so far.
    pub next: TaskId,
}

/// What the serial replay of a listing comes to.
#[derive(Debug, Drop)]
pub enum Replay {
    /// Each entry's task was open and ended as the entry says: the state that they leave.
    Good(Final),
    /// The place in the listing, from 0, of the first entry in serial order whose task is not open or ends otherwise.
    Wrong(u32),
}

/// The same, with how many tasks each finish spawned.
#[derive(Debug, Drop)]
pub enum Replayed {
    /// The state that the entries leave, and how many tasks each one's run spawned.
    Good(Final, SpawnCounts),
    /// The place in the listing, from 0, of the first entry in serial order whose task is not open or ends otherwise.
    Wrong(u32),
}

impl Final {
    /// The state that a format leaves.
    pub(crate) fn at_first(alloc: Global, set: &TaskSet) -> Result<Final, NoMemory>
        ensures exact { IfOk result (λ f. state_of f ≡ formatted set.now) }
        ensures fit { IfOk result (λ f. IsFit set.now (state_of f)) }
    {
        let objects = first_objects(alloc, set)?;
        let mut tasks = TaskList::new(alloc);
        tasks.push_children(TaskId(1), set.tasks())?;
        let next = set.tasks().len() as u32 + 1;
        formatted_state_is_fit();
        Ok(Final {
            objects,
            tasks,
            clock: Point(0),
            number: Seq(0),
            next: TaskId(next),
        })
    }
}
