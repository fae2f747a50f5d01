//! The state of a device, without the words of its objects.

ghost use Rattle.std.specs.Prelude.{◌≡◌, ◌<◌, ◌≤◌, IfOk, length, slice_index};
ghost use Rattle.shadow_index.specs.States.{HasTaken, word_of};
ghost use Rattle.shadow_index.specs.Forms.{last_word, number_word, record_word};

use nv_base::{Entry, NoMemory, Outcome, Point, Seq, TaskId, TaskRec};
use std::alloc::Global;
use task_set::TaskSet;

/// What the index words stand for, with the count of boots, the root, and how far a migration moved the words.
#[derive(Drop)]
pub struct State {
    /// The clock.
    pub clock: Point,
    /// The number of the last finish.
    pub number: Seq,
    /// The id of the next task.
    pub next: TaskId,
    /// The last finish, if there was one.
    pub last: Option<Entry>,
    /// The slot of each object's newest version.
    pub slots: Vec<u8>,
    /// The open tasks, by id.
    pub tasks: Vec<TaskRec>,
    /// How many open tasks index word 8 told, while words are taken: the tasks are added record by record up to this.
    pub told: u32,
    /// How often the device was booted.
    pub boots: u32,
    /// The root.
    pub root: u32,
    /// How far a migration moved the words: 0 where there was none.
    pub shift: u32,
}

impl State {
    /// Room for the state of a set. `NoMemory` where there is none.
    pub fn room(alloc: Global, set: &TaskSet) -> Result<State, NoMemory>
        ensures room { IfOk result (HasTaken set.now 0) }
        ensures shift { IfOk result (λ s. s.shift ≡ 0) }
    {
        let mut slots = Vec::with_capacity(alloc, usize::from(set.objects()))?;
        for _ in 0..set.objects() {
            slots.push(0)?;
        }
        Ok(State {
            clock: Point(0),
            number: Seq(0),
            next: TaskId(1),
            last: None,
            slots,
            tasks: Vec::with_capacity(alloc, usize::from(set.records()))?,
            told: 0,
            boots: 0,
            root: 0,
            shift: 0,
        })
    }

    /// Word i of the index. Later records are 0.
    pub fn word(&self, set: &TaskSet, i: u32) -> u32
        requires slots { length self.now.slots.items ≡ length set.now.objects }
        requires tasks { length self.now.tasks.items ≤ set.now.records }
        ensures { result ≡ word_of self.now i }
    {
        let n = u32::from(set.objects());
        if i < 9 {
            return self.number_word(set, i);
        }
        if i < 9 + n {
            return self.slot_word((i - 9) as usize);
        }
        self.record_word(i - (9 + n))
    }

    // One of the first nine words.
    fn number_word(&self, set: &TaskSet, i: u32) -> u32
        requires index { i < 9 }
        requires tasks { length self.now.tasks.items ≤ set.now.records }
        ensures { result ≡ number_word self.now i }
    {
        match i {
            0 => self.clock.0,
            1 => self.number.0,
            2 => self.next.0,
            8 => self.task_count(set),
            _ => match &self.last {
                None => 0,
                Some(last) => last_word(last, i),
            },
        }
    }

    // The slot of an object's newest version.
    fn slot_word(&self, o: usize) -> u32
        requires { o < length self.now.slots.items }
        ensures { result ≡ slice_index self.now.slots.items o }
    {
        u32::from(self.slots[o])
    }

    // How many tasks are open.
    fn task_count(&self, set: &TaskSet) -> u32
        requires { length self.now.tasks.items ≤ set.now.records }
        ensures { result ≡ length self.now.tasks.items }
    {
        // that they fit a word is the records' limit
        let _ = set.records();
        self.tasks.len() as u32
    }

    // Word k of the records.
    fn record_word(&self, k: u32) -> u32
        ensures { result ≡ record_word self.now.tasks.items k }
    {
        match self.tasks.get((k / 3) as usize) {
            None => 0,
            Some(task) => match k % 3 {
                0 => task.id.0,
                1 => u32::from(task.program.0),
                _ => task.arg,
            },
        }
    }
}

// One of the words 3 to 7 of a last finish.
fn last_word(last: &Entry, i: u32) -> u32
    ensures { result ≡ last_word last.now i }
{
    match i {
        3 => last.task.0,
        4 => last.point.0,
        5 => match last.outcome {
            Outcome::Exit(_) => 0,
            Outcome::Trap(cause) => cause.number(),
        },
        6 => match last.outcome {
            Outcome::Exit(code) => code,
            Outcome::Trap(_) => 0,
        },
        _ => last.first.0,
    }
}
