//! The open tasks by id, with room for all that a set may have.

ghost use Rattle.std.specs.Prelude.{◌≡◌, ◌≢◌, ◌+◌, ◌<◌, ◌≤◌, ◌++◌, ◌∷◌, [], ◌==◌, not, filter, vec_capacity, None, IfErr, IfOk, OnErr, OnOk, false, true, length, map};
ghost use Rattle.std.specs.Option.{option_map};
ghost use Rattle.kernel_model.specs.OpenTasks.{children};
ghost use Rattle.kernel_model.specs.Replay.{task_under};
ghost use Rattle.set_model.specs.Views.{spawn_of, task_of};
ghost use Rattle.task_queue.specs.Queues.{IsQueued, is_held, queue_of};

use crate::records::Records;
use nv_base::limits::MAX_SPAWNS;
use nv_base::{NoMemory, Spawn, TaskId, TaskRec};
use std::alloc::Global;
use std::marker::Model;
use task_set::TaskSet;

/// The open tasks by id, and the id of the next one. Contracts see the definitions' records of them.
#[derive(Debug, Drop)]
pub struct Queue {
    tasks: Vec<TaskRec>,
    next: TaskId,
    records: u16,
}

impl Model for Queue {
    ghost use Rattle.std.specs.Prelude.{◌≤◌, vec_capacity};
    ghost use Rattle.task_queue.specs.Queues.{IsQueued, Queued, queue_of};

    ghost Value = { Queued };

    ghost view = { λ q. queue_of q.tasks.items q.next.0 q.records };

    ghost invariant = { λ q. IsQueued (queue_of q.tasks.items q.next.0 q.records)
        × (q.records ≤ vec_capacity q.tasks) };
}

// All tasks but this one.
fn keep_others(tasks: &mut Vec<TaskRec>, task: u32)
    ensures kept { tasks.new.items ≡ filter (λ t. not (t.id.0 == task)) tasks.old.items }
    ensures room { vec_capacity tasks.new ≡ vec_capacity tasks.old }
{
    tasks.retain(|t| t.id.0 != task);
}

// Puts tasks in place of others, for which there is room.
fn replace(tasks: &mut Vec<TaskRec>, others: &[TaskRec])
    requires room { length others.now ≤ vec_capacity tasks.old }
    ensures replaced { tasks.new.items ≡ others.now }
    ensures room { vec_capacity tasks.new ≡ vec_capacity tasks.old }
{
    tasks.clear();
    for task in others {
        tasks.push_reserved(*task);
    }
}

// Adds children under the ids from `first` on, for which there is room.
fn append(tasks: &mut Vec<TaskRec>, first: u32, spawns: &[Spawn])
    requires room { length tasks.old.items + length spawns.now ≤ vec_capacity tasks.old }
    requires ids { first + length spawns.now ≤ 4294967295 }
    ensures added { map task_of tasks.new.items
        ≡ map task_of tasks.old.items ++ children first (map spawn_of spawns.now) }
    ensures room { vec_capacity tasks.new ≡ vec_capacity tasks.old }
{
    let mut id = first;
    for spawn in spawns {
        tasks.push_reserved(TaskRec {
            id: TaskId(id),
            program: spawn.program,
            arg: spawn.arg,
        });
        id += 1;
    }
}

// Whether a core holds a task.
#[inline(always)]
fn holds(held: &[TaskId], task: TaskId) -> bool
    ensures { result ≡ is_held (map (λ id. id.0) held.now) task.0 }
{
    for id in held {
        if *id == task {
            return true;
        }
    }
    false
}

impl Queue {
    ghost use Rattle.task_queue.specs.Queues.{after_finish, has_room, next_ready};

    /// The queue of these tasks of a set. All memory is taken here. `NoMemory` where there is none.
    pub fn open(
        alloc: Global,
        set: &TaskSet,
        tasks: &[TaskRec],
        next: TaskId,
    ) -> Result<Queue, NoMemory>
        requires { IsQueued (queue_of tasks.now next.0 set.now.records) }
        ensures { IfOk result (λ q. q ≡ queue_of tasks.now next.0 set.now.records) }
    {
        let mut room = Vec::with_capacity(alloc, usize::from(set.records()))?;
        replace(&mut room, tasks);
        Ok(Queue {
            tasks: room,
            next,
            records: set.records(),
        })
    }

    /// The queue of other tasks of the same set.
    pub fn reopen(&mut self, tasks: &[TaskRec], next: TaskId)
        requires { IsQueued (queue_of tasks.now next.0 self.old.records) }
        ensures { self.new ≡ queue_of tasks.now next.0 self.old.records }
    {
        replace(&mut self.tasks, tasks);
        self.next = next;
    }

    /// The least open task that no core holds, where these are held: None exactly where each is.
    pub fn next_ready(&self, held: &[TaskId]) -> Option<TaskRec>
        ensures { option_map task_of result
            ≡ next_ready (map (λ id. id.0) held.now) self.now.tasks }
    {
        for task in &self.tasks {
            if !holds(held, task.id) {
                return Some(*task);
            }
        }
        None
    }

    /// Takes a task away that finished, and puts its children behind all others. The first of their ids; `Records`
    /// exactly where these find none, and then nothing changes.
    pub fn finish(&mut self, task: TaskId, spawns: &[Spawn]) -> Result<TaskId, Records>
        requires open { task_under self.old.tasks task.0 ≢ None }
        requires spawns { length spawns.now ≤ MAX_SPAWNS }
        requires ids { self.old.next + length spawns.now ≤ 4294967295 }
        ensures first { IfOk result (λ id. id.0 ≡ self.old.next) }
        ensures finished { OnOk result (self.new
            ≡ after_finish task.0 (map spawn_of spawns.now) self.old) }
        ensures room { OnOk result (has_room (length spawns.now) self.old ≡ true) }
        ensures full { OnErr result (has_room (length spawns.now) self.old ≡ false) }
        ensures counts { IfErr result (λ r. (r.pending ≡ length self.old.tasks)
            × (r.spawns ≡ length spawns.now)) }
        ensures kept { OnErr result (self.new ≡ self.old) }
    {
        let count = spawns.len() as u32;
        if !self.room_for(count as u8) {
            let pending = self.tasks.len() as u32;
            return Err(Records {
                pending,
                spawns: count,
            });
        }
        keep_others(&mut self.tasks, task.0);
        let first = self.next;
        append(&mut self.tasks, first.0, spawns);
        self.next = TaskId(first.0 + count);
        Ok(first)
    }

    /// Whether so many children of an open task would find records.
    #[inline(always)]
    pub fn room_for(&self, spawns: u8) -> bool
        ensures { result ≡ has_room spawns self.now }
    {
        self.tasks.len().saturating_sub(1) + usize::from(spawns) <= usize::from(self.records)
    }

    /// How many tasks are open.
    #[inline(always)]
    pub fn pending(&self) -> u16
        ensures { result ≡ length self.now.tasks }
    {
        // there are no more tasks than records
        let _most = self.records;
        self.tasks.len() as u16
    }

    /// The open tasks, in order of id.
    #[inline(always)]
    pub fn open_tasks(&self) -> &[TaskRec]
        ensures { map task_of result.now ≡ self.now.tasks }
    {
        self.tasks.as_slice()
    }

    /// The id of the next task.
    #[inline(always)]
    pub fn next(&self) -> TaskId
        ensures { result.0 ≡ self.now.next }
    {
        self.next
    }
}
