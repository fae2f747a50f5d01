//! A task from its first state to its end.

ghost use Rattle.std.specs.Prelude.{◌≡◌, ◌<◌, IfOk, OnErr, length};
ghost use Rattle.kernel_model.specs.Effects.{Effects, ended};
ghost use Rattle.kernel_model.specs.Runs.{whole_run};
ghost use Rattle.set_model.specs.Sets.{TaskSet as Parts};
ghost use Rattle.set_model.specs.Views.{outcome_of};
ghost use Rattle.task_model.specs.TaskSteps.{task_steps};
ghost use Rattle.task_model.specs.Shape.{AreAlike, HasShape};
ghost use Rattle.task_model.specs.Progress.{HasBegun, Stands};
ghost use Rattle.task_model.specs.WholeRun.{IsWholeRun};

use crate::objects::Objects;
use crate::progress::Progress;
use crate::spawns::Spawns;
use nv_base::{NoMemory, ObjSet, Outcome, ProgId, TrapCause};
use rv_core::Machine;
use std::alloc::Global;
use task_set::TaskSet;

/// What the whole run of a task comes to.
#[derive(Debug, Drop)]
pub struct Whole {
    /// How it ended.
    pub outcome: Outcome,
    /// The objects that it read from outside.
    pub reads: ObjSet,
    /// The objects that it wrote, none after a trap.
    pub written: ObjSet,
    /// All objects, with its writes put in.
    pub values: Objects,
    /// The tasks that it spawned, none after a trap.
    pub spawns: Spawns,
}

/// A trap leaves no writes and no spawns, but its reads stay. The run was on these objects.
fn whole_of(progress: Progress, outcome: Outcome, objects: &Objects) -> Whole
    requires { AreAlike progress.values objects.now }
    ensures alike { AreAlike result.values objects.now }
    ensures exact { (set : Parts) (e : Effects) → Stands set objects.now e progress
        → IsWholeRun result (ended e (outcome_of outcome)) objects.now }
{
    let Progress {
        mut values,
        reads,
        written,
        mut spawns,
    } = progress;
    match outcome {
        Outcome::Exit(_) => Whole {
            outcome,
            reads,
            written,
            values,
            spawns,
        },
        Outcome::Trap(_) => {
            values.restore(objects);
            spawns.clear();
            Whole {
                outcome,
                reads,
                written: ObjSet::empty(),
                values,
                spawns,
            }
        }
    }
}

/// Runs the task from its first state to its end, with the room that was taken for it.
fn run_in_room(
    mut progress: Progress,
    machine: &mut Machine,
    set: &TaskSet,
    program: ProgId,
    arg: u32,
    objects: &Objects,
) -> Whole
    requires begun { HasBegun progress objects.now }
    requires memory { length machine.old.memory ≡ set.now.memory }
    requires program { program.0 < length set.now.programs }
    requires shape { HasShape set.now objects.now }
    ensures exact { let run = whole_run (task_steps set.now) program.0 arg objects.now in
        IsWholeRun result run objects.now }
    ensures shape { HasShape set.now result.values }
    ensures room { length machine.new.memory ≡ set.now.memory }
{
    let fuel = set.fuel(program);
    let programs = set.programs();
    machine.load(set.code(program), arg, fuel);
    for _ in 0..fuel {
        if let Some(outcome) = progress.turn(machine, programs) {
            return whole_of(progress, outcome, objects);
        }
    }
    whole_of(progress, Outcome::Trap(TrapCause::Fuel), objects)
}

/// Runs the task of a program of the set from its first state to its end, on objects that nobody else changes. All
/// memory is taken before the first step: `NoMemory` where there is too little, and then the machine is as it was.
pub fn run_whole(
    alloc: Global,
    machine: &mut Machine,
    set: &TaskSet,
    program: ProgId,
    arg: u32,
    objects: &Objects,
) -> Result<Whole, NoMemory>
    requires memory { length machine.old.memory ≡ set.now.memory }
    requires program { program.0 < length set.now.programs }
    requires shape { HasShape set.now objects.now }
    ensures exact { let run = whole_run (task_steps set.now) program.0 arg objects.now in
        IfOk result (λ w. IsWholeRun w run objects.now) }
    ensures shape { IfOk result (λ w. HasShape set.now w.values) }
    ensures room { length machine.new.memory ≡ set.now.memory }
    ensures kept { OnErr result (machine.new ≡ machine.old) }
{
    let progress = Progress::begin(alloc, objects)?;
    Ok(run_in_room(progress, machine, set, program, arg, objects))
}
