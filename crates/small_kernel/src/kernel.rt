//! A kernel in small, with real tables, a real queue and a real attempt.

ghost use Rattle.std.specs.Prelude.{◌≡◌, ◌≢◌, ◌==◌, IsTrue, None};
ghost use Rattle.std.specs.List.{list_any};
ghost use Rattle.kernel_model.specs.Replay.{task_under};

use crate::held::{Cores, Held, Others};
use crate::trial::Trial;
use nv_base::{NoMemory, Point, ProgId, Seq, Spawn, TaskId, TaskRec};
use plain_history::{Answer, OBJECTS, Run, Start, has, run_of};
use shadow_index::Plan;
use std::alloc::Global;
use task_queue::Queue;
use task_set::TaskSet;
use validate::Verdict;

/// The table, the open tasks, what the cores hold, and the clock and the number of the last finish.
#[derive(Drop)]
pub struct Kernel {
    pub trial: Trial,
    pub queue: Queue,
    pub cores: Cores,
    pub clock: Point,
    pub number: Seq,
}

// whether a task is among some
fn is_under(tasks: &[TaskRec], task: u32) -> bool
    ensures { result ≡ list_any (λ t. t.id.0 == task) tasks.now }
{
    tasks.iter().any(|t| t.id.0 == task)
}

// whether a task is open
fn is_open(queue: &Queue, task: TaskId) -> bool
    ensures { IsTrue result → task_under queue.now.tasks task.0 ≢ None }
{
    is_under(queue.open_tasks(), task.0)
}

// takes a task away that finished: the id of its first child
fn finish_task(queue: &mut Queue, task: TaskId, spawns: &[Spawn]) -> Option<u32> {
    if spawns.len() > 8 || queue.next().0 > 1_000_000 {
        return None;
    }
    if !is_open(queue, task) {
        return None;
    }
    match queue.finish(task, spawns) {
        Ok(first) => Some(first.0),
        Err(_) => None,
    }
}

// tasks of the one program with these arguments
fn tasks_of(alloc: Global, args: &[u32]) -> Result<Vec<Spawn>, NoMemory> {
    let mut tasks = Vec::new(alloc);
    for arg in args {
        tasks.push(Spawn {
            program: ProgId(0),
            arg: *arg,
        })?;
    }
    Ok(tasks)
}

// task 1 alone
fn first_queue(alloc: Global, set: &TaskSet) -> Result<Option<Queue>, NoMemory> {
    if set.records() < 1 {
        return Ok(None);
    }
    let first = TaskRec {
        id: TaskId(1),
        program: ProgId(0),
        arg: 0,
    };
    Ok(Some(Queue::open(alloc, set, &[first], TaskId(2))?))
}

// the queue of tasks from id 2 on, as the children of task 1, which has finished
fn queue_of(alloc: Global, set: &TaskSet, args: &[u32]) -> Result<Option<Queue>, NoMemory> {
    let Some(mut queue) = first_queue(alloc, set)? else {
        return Ok(None);
    };
    let tasks = tasks_of(alloc, args)?;
    Ok(match finish_task(&mut queue, TaskId(1), tasks.as_slice()) {
        Some(_) => Some(queue),
        None => None,
    })
}

impl Kernel {
    /// The kernel of these tasks, which begins so. None where the set or its tasks are not within the limits.
    pub fn opened(alloc: Global, start: Start, args: &[u32]) -> Result<Option<Kernel>, NoMemory> {
        let Some(trial) = Trial::opened(alloc, start)? else {
            return Ok(None);
        };
        let Some(queue) = queue_of(alloc, &trial.set, args)? else {
            return Ok(None);
        };
        Ok(Some(Kernel {
            trial,
            queue,
            cores: Cores::new(),
            clock: Point(start.clock),
            number: Seq(0),
        }))
    }

    /// The least task that is ready.
    pub fn ready(&self, alloc: Global) -> Result<Option<TaskRec>, NoMemory> {
        let held = self.cores.tasks(alloc)?;
        Ok(self.queue.next_ready(held.as_slice()))
    }

    /// The answer to a core that asks for its finish. None where its run is another than its argument says.
    pub fn ask(&mut self, held: &Held, others: &Others) -> Option<Answer> {
        let verdict = self
            .trial
            .ask(&self.queue, held, others, self.clock, self.number)?;
        answer(&verdict, held)
    }

    // the clock and the number after a finish at this point
    fn count(&mut self, p: Point) {
        if self.clock.0 < p.0 {
            self.clock = p;
        }
        self.number = Seq(self.number.0.wrapping_add(1));
    }

    /// A core finishes at this point, into these slots: the id of its first child. None where a call could not be made.
    pub fn join(
        &mut self,
        alloc: Global,
        core: u8,
        held: &Held,
        others: &Others,
        p: Point,
        slots: [u8; 3],
    ) -> Result<Option<u32>, NoMemory> {
        let run = run_of(held.task.arg);
        let spawns = self.trial.spawns(alloc)?;
        if !self.trial.join(run, slots, p, others)? {
            return Ok(None);
        }
        self.count(p);
        self.cores.hold(core, None);
        self.cores.cut(run.writes, p);
        Ok(finish_task(&mut self.queue, held.task.id, spawns.as_slice()))
    }
}

// the slots of a plan, where the objects are written
fn slots_in(plan: &Plan, run: Run) -> [u8; 3] {
    let mut slots = [255u8; 3];
    for o in 0..OBJECTS {
        if has(run.writes, o) {
            slots[usize::from(o)] = plan.slots[usize::from(o)];
        }
    }
    slots
}

// A verdict on a core as the plain program has it. None where it is on another task.
fn answer(verdict: &Verdict, held: &Held) -> Option<Answer> {
    Some(match verdict {
        Verdict::Granted(plan) if plan.granted.task != held.task.id => return None,
        Verdict::Granted(plan) => Answer::Granted {
            point: plan.granted.point.0,
            number: plan.granted.number.0,
            first: plan.granted.first.0,
            slots: slots_in(plan, run_of(held.task.arg)),
        },
        Verdict::Empty { lo, hi } => Answer::Empty { lo: lo.0, hi: hi.0 },
        Verdict::Slots(o) => Answer::Slots(o.0),
        Verdict::Records { pending, spawns } => Answer::Records {
            pending: *pending,
            spawns: *spawns,
        },
    })
}
