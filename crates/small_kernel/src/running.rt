//! One run of a small task, from its begin to its end.

ghost use Rattle.std.specs.Prelude.{◌≡◌, true, false, Some};
ghost use Rattle.vol_copy.specs.Stages.{is_waiting};
ghost use Rattle.vol_copy.specs.declared.attempt.Stage.TheVariants.{Running};
ghost use Rattle.vol_copy.specs.Tries.{IsFor};

use interval::Version;
use nv_base::{ObjId, Outcome, Point, TaskRec, TrapCause};
use plain_history::{OBJECTS, Run, has};
use task_set::TaskSet;
use vol_copy::{Attempt, Need};

// One turn, with all that a read brings: whether the attempt has ended. None where more than a word of a version is left
// to copy.
fn turn(set: &TaskSet, attempt: &mut Attempt) -> Option<bool>
    requires kept { IsFor set.now attempt.old }
    requires running { attempt.old.stage ≡ Running }
    ensures kept { IsFor set.now attempt.new }
    ensures running { result ≡ Some false → attempt.new.stage ≡ Running }
    ensures ended { result ≡ Some true → is_waiting attempt.new.stage ≡ true }
{
    match attempt.advance(set) {
        Need::Went => Some(false),
        Need::Ready => Some(true),
        Need::Fetch(object) => {
            attempt.open_read(Version {
                object,
                slot: 0,
                begin: Point(0),
            });
            if attempt.copy_word(7) {
                Some(false)
            } else {
                None
            }
        }
    }
}

/// Runs a task until it has ended. False where it does not end.
pub fn runs(set: &TaskSet, attempt: &mut Attempt, task: TaskRec, start: Point) -> bool
    requires kept { IsFor set.now attempt.old }
    ensures kept { IsFor set.now attempt.new }
    ensures ended { result ≡ true → is_waiting attempt.new.stage ≡ true }
{
    if task.program.0 >= set.programs() {
        return false;
    }
    attempt.load(set, task, start);
    for _ in 0..200 {
        match turn(set, attempt) {
            None => return false,
            Some(true) => return true,
            Some(false) => {}
        }
    }
    false
}

// whether it has ended so
fn has_ended(attempt: &Attempt, traps: bool) -> bool {
    let outcome = if traps {
        Outcome::Trap(TrapCause::Break)
    } else {
        Outcome::Exit(0)
    };
    attempt.outcome() == Some(outcome)
}

// whether it has read and written these objects
fn has_touched(attempt: &Attempt, run: Run) -> bool {
    for o in 0..OBJECTS {
        if attempt.reads().has(ObjId(o)) != has(run.reads, o) {
            return false;
        }
        if attempt.written().has(ObjId(o)) != has(run.writes, o) {
            return false;
        }
    }
    true
}

/// Whether an attempt has done just this.
pub fn has_done(attempt: &Attempt, run: Run) -> bool {
    has_touched(attempt, run)
        && has_ended(attempt, run.traps)
        && attempt.spawns().len() == run.spawns as usize
}
