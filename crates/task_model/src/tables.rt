//! The tables of a replay, and the turn of one entry.

ghost use Rattle.std.specs.Prelude.{◌≡◌, IfOk, IfSome, OnOk, Some, length, ◌≤◌};
ghost use Rattle.std.specs.Result.{};
ghost use Rattle.kernel_model.specs.EntryReplay.{is_same_outcome};
ghost use Rattle.kernel_model.specs.Replay.{tables_of};
ghost use Rattle.set_model.specs.Formatted.{formatted};
ghost use Rattle.set_model.specs.Views.{entry_of, outcome_of};
ghost use Rattle.task_model.specs.Tables.{AreFit, TakesTurn, tables_seen};

use crate::laws::tasks_are_a_machine;
use crate::objects::{Objects, first_objects};
use crate::open_tasks::OpenTasks;
use crate::whole_run::run_whole;
use kernel_model::whole_runs::run_is_fit;
use nv_base::{Entry, NoMemory, Outcome};
use rv_core::Machine;
use set_model::laws::formatted_state_is_fit;
use std::alloc::Global;
use task_set::TaskSet;

/// One copy of each object, and the open tasks.
#[derive(Drop)]
pub(crate) struct Tables {
    pub(crate) objects: Objects,
    pub(crate) open: OpenTasks,
}

// Whether two runs end alike.
fn is_same_outcome(one: Outcome, other: Outcome) -> bool
    ensures { result ≡ is_same_outcome (outcome_of one) (outcome_of other) }
{
    match (one, other) {
        (Outcome::Exit(code), Outcome::Exit(wanted)) => code == wanted,
        (Outcome::Trap(cause), Outcome::Trap(wanted)) => cause.number() == wanted.number(),
        _ => false,
    }
}

impl Tables {
    /// Those that a format leaves.
    pub(crate) fn at_first(alloc: Global, set: &TaskSet) -> Result<Tables, NoMemory>
        ensures exact { IfOk result (λ t. tables_seen t ≡ tables_of (formatted set.now)) }
        ensures fit { IfOk result (λ t. AreFit set.now (tables_seen t)) }
    {
        let objects = first_objects(alloc, set)?;
        let open = OpenTasks::at_first(alloc, set)?;
        formatted_state_is_fit();
        Ok(Tables { objects, open })
    }

    /// The turn of an entry: its task, if it is open, runs whole, and where it ends as the entry says, its writes are
    /// put in, and the tasks that it spawned join: how many these are. None exactly where the task is not open or
    /// ends otherwise; then, and after `NoMemory`, the tables are of no more use.
    pub(crate) fn turn(
        &mut self,
        alloc: Global,
        machine: &mut Machine,
        set: &TaskSet,
        entry: &Entry,
    ) -> Result<Option<u8>, NoMemory>
        requires memory { length machine.old.memory ≡ set.now.memory }
        requires fit { AreFit set.now (tables_seen self.old) }
        ensures turn { let e = entry_of entry.now in
            IfOk result (TakesTurn set.now (tables_seen self.old) (tables_seen self.new) e) }
        ensures fit { IfOk result (λ r. IfSome r (λ _. AreFit set.now (tables_seen self.new))) }
        ensures few { IfOk result (λ r. IfSome r (λ spawned. spawned ≤ 8)) }
        ensures memory { length machine.new.memory ≡ set.now.memory }
    {
        run_is_fit::<Machine>();
        tasks_are_a_machine();
        let Some(task) = self.open.take(entry.task) else {
            return Ok(None);
        };
        let whole = run_whole(alloc, machine, set, task.program, task.arg, &self.objects)?;
        if !is_same_outcome(whole.outcome, entry.outcome) {
            return Ok(None);
        }
        let spawned = whole.spawns.len() as u8;
        self.open.join(entry.first, whole.spawns.as_slice())?;
        self.objects = whole.values;
        Ok(Some(spawned))
    }
}
