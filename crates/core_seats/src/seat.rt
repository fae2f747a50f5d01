//! What one core holds, and what its own steps make of it.

ghost use Rattle.std.specs.Prelude.{◌≡◌, ◌<◌, ◌≤◌, ℕ, IfOk, IsTrue, List, Some, None, false, length, true};
ghost use Rattle.std.specs.Option.{option_map};
ghost use Rattle.std.specs.List.{list_any};
ghost use Rattle.object_sets.specs.ObjectSets.{is_among};
ghost use Rattle.rv_core.specs.State.{MachineState, Next};
ghost use Rattle.rv_core.specs.Machine.{step_of};
ghost use Rattle.set_model.specs.Sets.{TaskSet};
ghost use Rattle.set_model.specs.Views.{task_of};
ghost use Rattle.device_model.specs.IndexWords.{Index};
ghost use Rattle.task_model.specs.TaskSteps.{task_steps};
ghost use Rattle.table_machine.specs.Tables.{Vacant};
ghost use Rattle.table_machine.specs.Seats.{start_try};
ghost use Rattle.kernel_model.specs.Chain.{cut as cut_at};
ghost use Rattle.interval.specs.Ranges.{range_of};
ghost use Rattle.validate.specs.Views.{view_of};
ghost use Rattle.ver_table.specs.Chains.{Chain};
ghost use Rattle.vol_copy.specs.Tries.{IsFor};
ghost use Rattle.vol_copy.specs.Stages.{IsCopying, IsFetching, is_waiting};
ghost use Rattle.vol_copy.specs.declared.attempt.Stage.{Stage};
ghost use Rattle.core_seats.specs.declared.seat.Saving.{Saving as Granted};
ghost use Rattle.core_seats.specs.Holding.{StandsFor};
ghost use Rattle.core_seats.specs.Others.{task_in, view_in};
ghost use Rattle.core_seats.specs.Steps.{Completes, CopiesOn, Fetches, Grants, HasVersions, IsCutBy, RunsOn};

use interval::{Interval, Pin};
use nv_base::{Entry, NoMemory, ObjId, ObjSet, Point, TaskId, TaskRec};
use std::alloc::Global;
use task_set::TaskSet;
use validate::{Stale, View, admit, opened};
use ver_table::Versions;
use vol_copy::laws::seat_is_cut;
use vol_copy::{Attempt, Doing, Need};

/// A finish that commits.
#[derive(Clone, Copy, Debug)]
pub struct Saving {
    /// The finish.
    pub entry: Entry,
    /// Whether all its writes are made.
    pub is_whole: bool,
}

/// What one core holds. Its memory is taken once.
#[derive(Debug, Drop)]
pub struct Seat {
    /// Its try of a task, if it has one.
    pub attempt: Attempt,
    /// The points at which the attempt may stand, by what it has read.
    pub reads: Interval,
    /// The slot that it copies from, if it copies.
    pub slot: u8,
    /// Its finish, once it was granted.
    pub saving: Option<Saving>,
}

impl Seat {
    /// A core without a task. `NoMemory` where there is none for an attempt.
    pub fn new(alloc: Global, set: &TaskSet) -> Result<Seat, NoMemory>
        ensures kept { IfOk result (λ s. IsFor set.now s.attempt) }
        ensures vacant { (after : Index) → IfOk result (λ s. StandsFor s after Vacant) }
    {
        Ok(Seat {
            attempt: Attempt::new(alloc, set)?,
            reads: Interval::from(Point(0)),
            slot: 0,
            saving: None,
        })
    }

    /// The core gives its task up, if it has one.
    pub fn clear(&mut self)
        ensures kept { (set : TaskSet) → IsFor set self.old.attempt → IsFor set self.new.attempt }
        ensures vacant { (after : Index) → StandsFor self.new after Vacant }
    {
        self.attempt.clear();
        self.saving = None;
    }

    /// The try of a task begins at the clock.
    pub fn start(&mut self, set: &TaskSet, task: TaskRec, clock: Point)
        requires kept { IsFor set.now self.old.attempt }
        requires program { task.program.0 < length set.now.programs }
        ensures kept { IsFor set.now self.new.attempt }
        ensures stands { (after : Index) (n : ℕ) → StandsFor self.new after
            (start_try (task_steps set.now) clock.0 n (Some (task_of task))).seat }
    {
        self.attempt.load(set, task, clock);
        self.reads = Interval::from(clock);
        self.saving = None;
    }

    /// One step of a try that runs: an outside read takes a version, or drops the try where none is left for it, and
    /// tells so. It takes no memory.
    pub fn run(&mut self, set: &TaskSet, versions: &Versions) -> Option<Stale>
        requires kept { IsFor set.now self.old.attempt }
        requires running { self.old.attempt.stage ≡ Stage.Running }
        requires trying { self.old.saving ≡ None }
        requires versions { HasVersions set.now self.old.reads versions.now }
        ensures kept { IsFor set.now self.new.attempt }
        ensures runs { RunsOn set.now versions.now self.old self.new result }
    {
        match self.attempt.advance(set) {
            Need::Went => None,
            Need::Ready => None,
            Need::Fetch(object) => self.fetch(versions, object),
        }
    }

    /// One step of a try that runs and runs on behind it, of a core of which no finish commits. Else nothing has changed,
    /// and the turn is that of another call. It takes no memory, and asks nothing of the set and of the versions.
    #[inline(always)]
    pub fn go(&mut self) -> bool
        ensures rests { result ≡ false → self.new ≡ self.old }
        ensures stops { result ≡ false → self.old.saving ≡ None
            → self.old.attempt.stage ≡ Stage.Running
            → (s : MachineState) → step_of self.old.attempt.machine ≡ Next s → ⊥ }
        ensures running { IsTrue result → self.old.attempt.stage ≡ Stage.Running }
        ensures trying { IsTrue result → self.old.saving ≡ None }
        ensures kept { (set : TaskSet) → IsFor set self.old.attempt → IsFor set self.new.attempt }
        ensures runs { IsTrue result
            → (set : TaskSet) (chains : List Chain) → RunsOn set chains self.old self.new None }
    {
        if self.saving.is_some() {
            return false;
        }
        self.attempt.go()
    }

    // An outside read of an object.
    fn fetch(&mut self, versions: &Versions, object: ObjId) -> Option<Stale>
        requires kept { (set : TaskSet) × IsFor set self.old.attempt
            × HasVersions set self.old.reads versions.now }
        requires fetching { IsFetching object self.old.attempt.stage }
        requires trying { self.old.saving ≡ None }
        ensures kept { (set : TaskSet) → IsFor set self.old.attempt → IsFor set self.new.attempt }
        ensures fetches { Fetches versions.now self.old object self.new result }
    {
        match admit(versions, self.reads, object) {
            Err(stale) => {
                self.clear();
                Some(stale)
            }
            Ok(version) => {
                self.reads = opened(versions, self.reads, version);
                self.slot = version.slot;
                self.attempt.open_read(version);
                None
            }
        }
    }

    /// The next word of a copy. With the last one the try runs on.
    pub fn copy(&mut self, word: u32)
        requires kept { (set : TaskSet) × IsFor set self.old.attempt }
        requires copying { IsCopying self.old.attempt.stage }
        requires trying { self.old.saving ≡ None }
        ensures kept { (set : TaskSet) → IsFor set self.old.attempt → IsFor set self.new.attempt }
        ensures copies { CopiesOn self.old word self.new }
    {
        self.attempt.copy_word(word);
    }

    /// The finish of the core's try was granted: its writes come next.
    pub fn grant(&mut self, entry: Entry)
        requires waits { is_waiting self.old.attempt.stage ≡ true }
        ensures attempt { self.new.attempt ≡ self.old.attempt }
        ensures grants { Grants self.old entry self.new }
    {
        self.saving = Some(Saving {
            entry,
            is_whole: false,
        });
    }

    /// All writes of the core's finish are made.
    pub fn complete(&mut self)
        requires { (v : Granted) × (self.old.saving ≡ Some v) }
        ensures attempt { self.new.attempt ≡ self.old.attempt }
        ensures completes { Completes self.old self.new }
    {
        if let Some(saving) = &mut self.saving {
            saving.is_whole = true;
        }
    }

    /// A finish joins at a point, which wrote these objects: a try that has read one of them can't stand behind it.
    pub fn cut(&mut self, point: Point, written: ObjSet)
        ensures attempt { self.new.attempt ≡ self.old.attempt }
        ensures cuts { IsCutBy point.0 written self.old self.new }
    {
        self.reads = self.reads_before(point, written);
        seat_is_cut();
    }

    // The interval of its reads then.
    fn reads_before(&self, point: Point, written: ObjSet) -> Interval
        ensures { let read = list_any (λ o. is_among o written) self.now.attempt.reads in
            range_of result ≡ cut_at point.0 read (range_of self.now.reads) }
    {
        let mut reads = self.reads;
        if has_common(self.attempt.reads(), written) {
            reads.cut(point);
        }
        reads
    }

    /// The task that the core holds, if it holds one.
    #[inline(always)]
    pub fn task(&self) -> Option<TaskId>
        ensures { option_map (λ id. id.0) result ≡ task_in self.now }
    {
        match self.attempt.doing() {
            Doing::Nothing => None,
            _ => Some(self.attempt.task()),
        }
    }

    /// What is kept of the core's try, where it has one that no verdict has granted.
    pub fn view(&self) -> Option<View>
        ensures { option_map view_of result ≡ view_in self.now }
    {
        if self.saving.is_some() {
            return None;
        }
        match self.attempt.doing() {
            Doing::Nothing => None,
            Doing::Copies { object, .. } => Some(View {
                interval: self.reads,
                copying: Some(Pin {
                    object,
                    slot: self.slot,
                }),
            }),
            _ => Some(View {
                interval: self.reads,
                copying: None,
            }),
        }
    }
}

// Whether two sets of objects have a common one.
fn has_common(reads: ObjSet, written: ObjSet) -> bool
    ensures { result ≡ list_any (λ o. is_among o written) reads }
{
    let mut left = reads;
    while let Some(o) = left.take_least() {
        if written.has(o) {
            return true;
        }
    }
    false
}
