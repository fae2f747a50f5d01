//! Open tasks as a list, by id.

ghost use Rattle.std.specs.Prelude.{◌≡◌, ◌+◌, ◌<◌, ◌++◌, ◌∷◌, [], MatchResult, OnOk, length, map, slice_get};
ghost use Rattle.kernel_model.specs.OpenTasks.{children, others_than};
ghost use Rattle.set_model.specs.Views.{spawn_of, task_of};

use nv_base::{NoMemory, Spawn, TaskId, TaskRec};
use std::alloc::Global;
use std::marker::Model;

/// Open tasks. Contracts see their list.
#[derive(Debug, Drop)]
pub struct TaskList {
    items: Vec<TaskRec>,
}

impl Model for TaskList {
    ghost use Rattle.std.specs.Prelude.{List};
    ghost use Rattle.nv_base.specs.declared.lines.TaskRec.{TaskRec};

    ghost Value = { List TaskRec };

    ghost view = { λ t. t.items.items };
}

impl TaskList {
    /// No tasks.
    pub fn new(alloc: Global) -> TaskList
        ensures { result ≡ [] }
    {
        TaskList {
            items: Vec::new(alloc),
        }
    }

    /// All of them, in order.
    pub fn as_slice(&self) -> &[TaskRec]
        ensures { result.now ≡ self.now }
    {
        self.items.as_slice()
    }

    /// How many there are.
    pub fn len(&self) -> usize
        ensures { result ≡ length self.now }
    {
        self.items.len()
    }

    /// The first of them: none where there is no task.
    pub fn first(&self) -> Option<TaskRec>
        ensures { result ≡ slice_get self.now 0 }
    {
        self.items.first().copied()
    }

    /// Adds a task behind the others. `NoMemory` leaves the list as it was.
    pub fn push(&mut self, task: TaskRec) -> Result<(), NoMemory>
        ensures { MatchResult result (λ _. self.new ≡ self.old ++ task ∷ [])
            (λ _. self.new ≡ self.old) }
    {
        self.items.push(task)?;
        Ok(())
    }

    /// Adds tasks behind the others, under the ids from `first` on. `NoMemory` leaves some of them.
    pub(crate) fn push_children(&mut self, first: TaskId, spawns: &[Spawn]) -> Result<(), NoMemory>
        requires { first.0 + length spawns.now < 4294967296 }
        ensures { let all = map task_of self.old ++ children first.0 (map spawn_of spawns.now) in
            OnOk result (map task_of self.new ≡ all) }
    {
        let mut id = first.0;
        for spawn in spawns {
            self.push(TaskRec {
                id: TaskId(id),
                program: spawn.program,
                arg: spawn.arg,
            })?;
            id += 1;
        }
        Ok(())
    }

    /// Takes a task out, by its id.
    pub(crate) fn remove(&mut self, task: TaskId)
        ensures { map task_of self.new ≡ others_than task.0 (map task_of self.old) }
    {
        self.items.retain(|t| t.id.0 != task.0);
    }
}
