//! The index words of a state that is written anew: those of a set's first state, and those of a state that is moved.

ghost use Rattle.std.specs.Prelude.{ℕ, ◌≡◌, ◌+◌, ◌<◌, ◌≤◌, ◌^◌, length, map, slice_index};
ghost use Rattle.set_model.specs.Sets as sets;
ghost use Rattle.set_model.specs.Views.{spawn_of};
ghost use Rattle.kernel_model.specs.OpenTasks.{children};
ghost use Rattle.device_model.specs.IndexWords.{Index, index_word, task_words};
ghost use Rattle.device_format.specs.Forms.{first_number_word, first_task_word};

use nv_base::Spawn;
use shadow_index::State;
use task_set::TaskSet;

/// A state that is written anew.
pub(crate) trait Fresh {
    /// Its index, for a set.
    ghost index: { Self → sets.TaskSet → Index };

    /// It is a state of a set.
    ghost fits: { Self → sets.TaskSet → Type 0 };

    /// Word i of its index.
    fn fresh_word(&self, set: &TaskSet, i: u32) -> u32
        requires { fits self.now set.now }
        ensures { result ≡ index_word (index self.now set.now) i };
}

/// The first state of a set.
impl Fresh for TaskSet {
    ghost use Rattle.device_model.specs.Formats.{formatted_index};

    ghost index = { λ own set. formatted_index set };

    ghost fits = { λ own set. own ≡ set };

    fn fresh_word(&self, set: &TaskSet, i: u32) -> u32 {
        let n = u32::from(set.objects());
        if i < 9 {
            return first_number(set, i);
        }
        if i < 9 + n {
            return 0;
        }
        first_record(set.tasks(), i - (9 + n))
    }
}

/// A state that stands elsewhere.
impl Fresh for State {
    ghost use Rattle.device_format.specs.Shown.{IsStateOf};
    ghost use Rattle.shadow_index.specs.States.{index_of};
    ghost use Rattle.device_model.specs.Migrations.{moved_index};

    ghost index = { λ s set. moved_index set (index_of s) };

    ghost fits = { λ s set. IsStateOf set s };

    fn fresh_word(&self, set: &TaskSet, i: u32) -> u32 {
        let n = u32::from(set.objects());
        if i < 9 {
            return self.word(set, i);
        }
        if i < 9 + n {
            return 0;
        }
        self.word(set, i)
    }
}

/// One of the first nine words of a first state.
fn first_number(set: &TaskSet, i: u32) -> u32
    requires { i < 9 }
    ensures { result ≡ first_number_word (length set.now.tasks) i }
{
    let tasks = set.tasks().len() as u32;
    match i {
        2 => tasks + 1,
        8 => tasks,
        _ => 0,
    }
}

/// Word k of the records of a first state: 0 behind them.
fn first_record(tasks: &[Spawn], k: u32) -> u32
    ensures { result ≡ slice_index (task_words (children 1 (map spawn_of tasks.now))) k }
{
    let r = k / 3;
    if r as usize >= tasks.len() {
        return 0;
    }
    record_word(tasks[r as usize], r, k % 3)
}

/// A word of the record number r.
fn record_word(task: Spawn, r: u32, field: u32) -> u32
    requires { r + 1 < 2 ^ 32 }
    ensures { result ≡ first_task_word task r field }
{
    match field {
        0 => r + 1,
        1 => u32::from(task.program.0),
        _ => task.arg,
    }
}
