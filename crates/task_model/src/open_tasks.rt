//! The open tasks of a replay, each under its id, however many there are.

ghost use Rattle.std.specs.Prelude.{◌≡◌, ◌==◌, ◌≤◌, ℕ, IfOk, OnOk, Some, None, if◌then◌else◌, length, map};
ghost use Rattle.std.specs.Option.{option_map, option_or};
ghost use Rattle.kernel_model.specs.Replay.{task_under, with_children, without};
ghost use Rattle.kernel_model.specs.Serial.{InIdOrder};
ghost use Rattle.set_model.specs.Formatted.{formatted};
ghost use Rattle.set_model.specs.Views.{spawn_of, task_of};
ghost use Rattle.task_model.specs.Tables.{AreOfSet, open_under};

use crate::task_list::TaskList;
use nv_base::limits::MAX_RECORDS;
use nv_base::{NoMemory, ProgId, Spawn, TaskId, TaskRec};
use set_model::laws::formatted_state_is_fit;
use std::alloc::Global;
use std::collections::BTreeMap;
use task_set::TaskSet;

/// The open tasks, each under its id.
#[derive(Drop)]
pub(crate) struct OpenTasks {
    pub(crate) tasks: BTreeMap<u32, Spawn>,
}

impl OpenTasks {
    /// The tasks that a set begins with, under the ids from 1 on.
    pub(crate) fn at_first(alloc: Global, set: &TaskSet) -> Result<OpenTasks, NoMemory>
        ensures tasks { (id : ℕ)
            → IfOk result (λ o. open_under o id ≡ task_under (formatted set.now).tasks id) }
        ensures programs { IfOk result (λ o. AreOfSet set.now (open_under o)) }
    {
        let mut open = OpenTasks {
            tasks: BTreeMap::new(alloc),
        };
        open.join(TaskId(1), set.tasks())?;
        formatted_state_is_fit();
        Ok(open)
    }

    /// Takes out the task that is open under an id: none where there is none.
    pub(crate) fn take(&mut self, id: TaskId) -> Option<Spawn>
        ensures taken { option_map spawn_of result ≡ open_under self.old id.0 }
        ensures others { (q : ℕ) → open_under self.new q ≡ without id.0 (open_under self.old) q }
    {
        self.tasks.remove(&id.0)
    }

    // A task joins under an id, unless one is open there.
    fn join_one(&mut self, id: u32, spawn: Spawn) -> Result<(), NoMemory>
        ensures { (q : ℕ) → OnOk result (open_under self.new q
            ≡ option_or (open_under self.old q) (if id == q then Some (spawn_of spawn) else None)) }
    {
        if !self.tasks.contains_key(&id) {
            self.tasks.insert(id, spawn)?;
        }
        Ok(())
    }

    /// Tasks join under the ids from `first` on, each unless a task is open there, or the id is more than 32 bits hold.
    pub(crate) fn join(&mut self, first: TaskId, spawns: &[Spawn]) -> Result<(), NoMemory>
        requires { length spawns.now ≤ MAX_RECORDS }
        ensures { (q : ℕ) → OnOk result (open_under self.new q
            ≡ with_children first.0 (map spawn_of spawns.now) (open_under self.old) q) }
    {
        for (i, spawn) in spawns.iter().enumerate() {
            let Some(id) = first.0.checked_add(i as u32) else {
                return Ok(());
            };
            self.join_one(id, *spawn)?;
        }
        Ok(())
    }

    /// All of them, by id.
    pub(crate) fn list(&self, alloc: Global) -> Result<TaskList, NoMemory>
        ensures tasks { (q : ℕ)
            → IfOk result (λ l. task_under (map task_of l) q ≡ open_under self.now q) }
        ensures by_id { IfOk result (λ l. InIdOrder (map task_of l)) }
    {
        let mut list = TaskList::new(alloc);
        for (id, spawn) in &self.tasks {
            list.push(TaskRec {
                id: TaskId(*id),
                program: spawn.program,
                arg: spawn.arg,
            })?;
        }
        Ok(list)
    }
}
