//! The least open task again and again.

ghost use Rattle.std.specs.Prelude.{◌≡◌, ◌+◌, ◌-◌, ◌<◌, ◌≤◌, ℕ, IfOk, OnOk, List, length, map, nat_le};
ghost use Rattle.kernel_model.specs.Effects.{Run, Write};
ghost use Rattle.kernel_model.specs.Serial.{Serial};
ghost use Rattle.set_model.specs.Formatted.{formatted};
ghost use Rattle.set_model.specs.Sets.{TaskSet as Parts};
ghost use Rattle.set_model.specs.Limits.{IsTaskSet};
ghost use Rattle.set_model.specs.Views.{entry_of};
ghost use Rattle.task_model.specs.WholeRun.{IsWholeRun};
ghost use Rattle.task_model.specs.Finals.{IsFit, runs_of, state_of};
ghost use Rattle.task_model.specs.FirstFinishes.{Advances, AreFirst, HasRoom, IsFinished, first_finishes, point_after};

use crate::finals::Final;
use crate::laws::tasks_are_a_machine;
use crate::whole_run::{Whole, run_whole};
use kernel_model::one_after_another::{next_finish_is_serial, no_finish_is_serial};
use kernel_model::whole_runs::run_is_fit;
use nv_base::{Entry, NoMemory, ObjSet, Point, Seq, TaskId};
use rv_core::Machine;
use set_model::laws::{any_format_is_below, formatted_state_is_fit};
use std::alloc::Global;
use task_set::TaskSet;

/// The most entries of a listing that is replayed, and the most finishes that are made.
pub const MAX_FINISHES: u32 = 1_000_000;

// The point of a finish that wrote these objects: the one after the clock, or the clock where it wrote none.
fn point_after(clock: Point, written: ObjSet) -> Point
    requires { clock.0 + 1 < 4294967296 }
    ensures { (writes : List Write) → written ≡ map (λ w. w.object) writes
        → result.0 ≡ point_after clock.0 writes }
{
    if written == ObjSet::empty() {
        clock
    } else {
        Point(clock.0 + 1)
    }
}

impl Final {
    /// Takes over what the whole run of an open task makes, run on these objects: the entry of its finish. After
    /// `NoMemory` the state is of no more use.
    fn finish(&mut self, task: TaskId, whole: Whole) -> Result<Entry, NoMemory>
        requires { HasRoom 1 (state_of self.old) }
        ensures { (run : Run) → IsWholeRun whole run self.old.objects
            → IfOk result (IsFinished (state_of self.old) (state_of self.new) task.0 run) }
    {
        let point = point_after(self.clock, whole.written);
        let number = Seq(self.number.0 + 1);
        let first = self.next;
        let count = whole.spawns.len() as u32;
        self.tasks.remove(task);
        self.tasks.push_children(first, whole.spawns.as_slice())?;
        self.objects = whole.values;
        self.clock = point;
        self.number = number;
        self.next = TaskId(first.0 + count);
        Ok(Entry {
            number,
            task,
            point,
            first,
            outcome: whole.outcome,
        })
    }

    // Whether there are records for so many tasks more, once an open one is gone.
    fn has_records(&self, set: &TaskSet, spawned: usize) -> bool
        ensures { result ≡ nat_le (length self.now.tasks - 1 + spawned) set.now.records }
    {
        let records = usize::from(set.records());
        spawned <= records && self.tasks.len().saturating_sub(1) <= records - spawned
    }

    /// Runs the least open task whole: the entry of its finish. None exactly where no task is open, or where there
    /// are no records for the tasks that its finish would leave open; then the state is as it was. After `NoMemory` it
    /// is of no more use.
    fn advance(
        &mut self,
        alloc: Global,
        machine: &mut Machine,
        set: &TaskSet,
    ) -> Result<Option<Entry>, NoMemory>
        requires memory { length machine.old.memory ≡ set.now.memory }
        requires fit { IsFit set.now (state_of self.old) }
        requires room { HasRoom 1 (state_of self.old) }
        ensures advances { IfOk result (Advances set.now (state_of self.old) (state_of self.new)) }
        ensures fit { OnOk result (IsFit set.now (state_of self.new)) }
        ensures room { (turns : ℕ) → HasRoom (turns + 1) (state_of self.old)
            → OnOk result (HasRoom turns (state_of self.new)) }
        ensures memory { length machine.new.memory ≡ set.now.memory }
    {
        let Some(task) = self.tasks.first() else {
            return Ok(None);
        };
        let whole = run_whole(alloc, machine, set, task.program, task.arg, &self.objects)?;
        if !self.has_records(set, whole.spawns.len()) {
            return Ok(None);
        }
        run_is_fit::<Machine>();
        tasks_are_a_machine();
        Ok(Some(self.finish(task.id, whole)?))
    }
}

/// The finishes that the least open task makes again and again are serial from the formatted state.
fn first_finishes_are_serial()
    ensures { (set : Parts) (n : ℕ) → IsTaskSet set → n ≤ MAX_FINISHES
        → (let f = first_finishes set n (formatted set) in
        Serial (runs_of set) (formatted set) f.entries f.state) }
{
    any_format_is_below();
    formatted_state_is_fit();
    tasks_are_a_machine();
    run_is_fit::<Machine>();
    no_finish_is_serial();
    next_finish_is_serial();
}

/// The finishes of a set's tasks where the least open task runs, whole and alone, again and again from the formatted
/// state, and the state that they leave: at most `n`, and fewer exactly where no task is open, or where there are no
/// records for what the next one would leave open.
pub fn serial_first(alloc: Global, set: &TaskSet, n: u32) -> Result<(Vec<Entry>, Final), NoMemory>
    requires { n ≤ MAX_FINISHES }
    ensures exact { IfOk result (λ r. AreFirst set.now n (map entry_of r.0.items) (state_of r.1)) }
    ensures serial { IfOk result (λ r. Serial (runs_of set.now) (formatted set.now)
        (map entry_of r.0.items) (state_of r.1)) }
{
    let mut state = Final::at_first(alloc, set)?;
    let mut machine = Machine::new(alloc, set.memory())?;
    let mut entries = Vec::new(alloc);
    first_finishes_are_serial();
    for _ in 0..n {
        let Some(entry) = state.advance(alloc, &mut machine, set)? else {
            return Ok((entries, state));
        };
        entries.push(entry)?;
    }
    Ok((entries, state))
}
