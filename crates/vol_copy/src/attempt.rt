//! What is kept of an attempt, how it begins, and what a verdict asks of it.

ghost use Rattle.std.specs.Prelude.{◌≡◌, ℕ, ◌<◌, IfOk, IfSome, IsTrue, [], Some, length};
ghost use Rattle.rv_core.specs.Machine.{first_state};
ghost use Rattle.kernel_model.specs.Intervals.{Interval};
ghost use Rattle.set_model.specs.Sets.{TaskSet, program_at};
ghost use Rattle.set_model.specs.Views.{task_of};
ghost use Rattle.task_model.specs.TaskSteps.{task_steps};
ghost use Rattle.table_machine.specs.Tables.{Vacant};
ghost use Rattle.table_machine.specs.Seats.{start_try};
ghost use Rattle.vol_copy.specs.declared.want.Want.{Want};
ghost use Rattle.vol_copy.specs.Stages.{copying_in, is_running_in, is_waiting, outcome_in};
ghost use Rattle.vol_copy.specs.Tries.{IsFor, IsSeat};

use crate::copied::CopiedWords;
use crate::want::Want;
use nv_base::{NoMemory, ObjId, ObjSet, Outcome, Point, Spawn, TaskId, TaskRec};
use rv_core::Machine;
use std::alloc::Global;
use task_model::{Objects, Spawns, first_objects};
use task_set::TaskSet;

/// How far an attempt is.
#[derive(Clone, Copy, Debug)]
pub(crate) enum Stage {
    /// It has no task.
    Blank,
    /// It runs.
    Running,
    /// A service wants the words of this object so, and their version is to be chosen.
    Fetching {
        object: ObjId,
        want: Want,
    },
    /// They come one by one. So many are copied.
    Copying {
        object: ObjId,
        want: Want,
        copied: u8,
    },
    /// It has ended so, and asks for its finish.
    Ready(Outcome),
}

/// One try of a task on one core: the machine, copies of the objects that it has read, the words that it has written,
/// and the tasks that it has spawned. Its memory is taken once, for all tries of a set's tasks.
#[derive(Debug, Drop)]
pub struct Attempt {
    pub(crate) machine: Machine,
    pub(crate) task: TaskId,
    pub(crate) start: Point,

    // the objects that were read from outside, and their copies
    pub(crate) reads: ObjSet,
    pub(crate) copies: CopiedWords,

    // the objects that were written, and the words that were written last
    pub(crate) written: ObjSet,
    pub(crate) words: Objects,

    pub(crate) spawns: Spawns,
    pub(crate) stage: Stage,
}

impl Attempt {
    /// An attempt with no task. All room is taken here: the machine, a copy of each object, words for each, and the
    /// spawns.
    pub fn new(alloc: Global, set: &TaskSet) -> Result<Attempt, NoMemory>
        ensures kept { IfOk result (IsFor set.now) }
        ensures blank { IfOk result (λ a. a.stage ≡ Stage.Blank) }
    {
        let machine = Machine::new(alloc, set.memory())?;
        let copies = CopiedWords::of_set(alloc, set)?;
        let words = first_objects(alloc, set)?;
        let spawns = Spawns::with_room(alloc)?;
        Ok(Attempt {
            machine,
            task: TaskId(0),
            start: Point(0),
            reads: ObjSet::empty(),
            copies,
            written: ObjSet::empty(),
            words,
            spawns,
            stage: Stage::Blank,
        })
    }

    /// Begins a try of a task, whose reads may be from `start` on. No memory is touched that the last try left alone.
    pub fn load(&mut self, set: &TaskSet, task: TaskRec, start: Point)
        requires kept { IsFor set.now self.old }
        requires program { task.program.0 < length set.now.programs }
        ensures kept { IsFor set.now self.new }
        ensures exact { let program = program_at set.now task.program.0 in
            self.new ≡ record self.old {
              machine = first_state program.code task.arg program.fuel set.now.memory;
              task = task.id;
              start = start;
              reads = [];
              written = [];
              spawns = [];
              stage = Stage.Running;
            } }
        ensures begins { (n : ℕ) → IsSeat self.new (record { lo = start.0; hi = None })
            (start_try (task_steps set.now) start.0 n (Some (task_of task))).seat }
    {
        self.machine
            .load(set.code(task.program), task.arg, set.fuel(task.program));
        self.task = task.id;
        self.start = start;
        self.reads = ObjSet::empty();
        self.written = ObjSet::empty();
        self.spawns.clear();
        self.stage = Stage::Running;
    }

    /// Gives its task up, if it has one.
    pub fn clear(&mut self)
        ensures exact { self.new ≡ record self.old { stage = Stage.Blank } }
        ensures kept { (set : TaskSet) → IsFor set self.old → IsFor set self.new }
        ensures vacant { (i : Interval) → IsSeat self.new i Vacant }
    {
        self.stage = Stage::Blank;
    }

    /// The task that was loaded last.
    #[inline(always)]
    pub fn task(&self) -> TaskId
        ensures { result ≡ self.now.task }
    {
        self.task
    }

    /// The point from which the last try may read.
    #[inline(always)]
    pub fn start(&self) -> Point
        ensures { result ≡ self.now.start }
    {
        self.start
    }

    /// Whether it runs: then `advance` is its next turn.
    #[inline(always)]
    pub fn is_running(&self) -> bool
        ensures exact { result ≡ is_running_in self.now.stage }
        ensures running { IsTrue result → self.now.stage ≡ Stage.Running }
    {
        matches!(self.stage, Stage::Running)
    }

    /// The object whose words come next, and how many of them are copied: None exactly where none come.
    pub fn copying(&self) -> Option<(ObjId, u8)>
        ensures exact { result ≡ copying_in self.now.stage }
        ensures copying { IfSome result (λ p. (w : Want)
            × (self.now.stage ≡ Stage.Copying p.0 w p.1)) }
    {
        match self.stage {
            Stage::Copying { object, copied, .. } => Some((object, copied)),
            _ => None,
        }
    }

    /// Whether it has ended, and asks for its finish.
    #[inline(always)]
    pub fn is_ready(&self) -> bool
        ensures { result ≡ is_waiting self.now.stage }
    {
        if let Stage::Ready(_) = self.stage {
            return true;
        }
        false
    }

    /// How it has ended: None exactly where it has not.
    pub fn outcome(&self) -> Option<Outcome>
        ensures exact { result ≡ outcome_in self.now.stage }
        ensures ready { IfSome result (λ o. self.now.stage ≡ Stage.Ready o) }
    {
        match self.stage {
            Stage::Ready(outcome) => Some(outcome),
            _ => None,
        }
    }

    /// The objects that it has read from outside.
    #[inline(always)]
    pub fn reads(&self) -> ObjSet
        ensures { result ≡ self.now.reads }
    {
        self.reads
    }

    /// The objects that it has written: none, where it has ended by a trap.
    #[inline(always)]
    pub fn written(&self) -> ObjSet
        ensures { result ≡ self.now.written }
    {
        self.written
    }

    /// The tasks that it has spawned, in order: none, where it has ended by a trap.
    #[inline(always)]
    pub fn spawns(&self) -> &[Spawn]
        ensures { result.now ≡ self.now.spawns }
    {
        self.spawns.as_slice()
    }
}
