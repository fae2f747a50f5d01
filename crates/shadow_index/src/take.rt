//! A state is taken from index words, one by one, up to the first faulty one.

ghost use Rattle.std.specs.Prelude.{ℕ, ◌≡◌, ◌+◌, ◌-◌, ◌/◌, ◌<◌, ◌≤◌, ◌==◌, ◌&&◌, IsTrue, length, min, nat_le, not, set, vec_capacity};
ghost use Rattle.set_model.specs.Views.{outcome_of};
ghost use Rattle.device_model.specs.IndexWords.{exit_word, is_faulty, is_faulty_last, is_faulty_number, trap_word};
ghost use Rattle.shadow_index.specs.States.{HasOpened, HasRoom, HasTaken, IsNumbered, KeepsRest, taken_word};
ghost use Rattle.shadow_index.specs.Forms.{is_faulty_task, last_word, no_task, record_word, told_number};

use crate::state::State;
use nv_base::{Entry, ObjId, Outcome, Point, ProgId, Seq, TaskId, TaskRec, TrapCause};
use task_set::TaskSet;

impl State {
    /// Takes word i of the index, after those before it: false exactly where it is faulty. A state that refused a word
    /// has room yet, and nothing else is told of its index.
    pub fn take(&mut self, set: &TaskSet, i: u32, word: u32) -> bool
        requires { HasTaken set.now i self.old }
        ensures fault { result ≡ not (is_faulty set.now (taken_word self.old) i word) }
        ensures taken { IsTrue result → HasTaken set.now (i + 1) self.new }
        ensures word { IsTrue result → taken_word self.new i ≡ word }
        ensures before { IsTrue result → (k : ℕ) → k < i
            → taken_word self.new k ≡ taken_word self.old k }
        ensures room { HasRoom set.now self.new }
        ensures rest { KeepsRest self.old self.new }
    {
        let n = u32::from(set.objects());
        let records = u32::from(set.records());
        if i < 9 {
            return self.take_number(records, i, word);
        }
        if i < 9 + n {
            return self.take_slot(set.slots(ObjId((i - 9) as u8)), (i - 9) as usize, word);
        }
        if i < 9 + n + 3 * records {
            return self.take_record(set.programs(), i - (9 + n), word);
        }
        word == 0
    }

    // One of the first nine words.
    fn take_number(&mut self, records: u32, i: u32, word: u32) -> bool
        requires index { i < 9 }
        requires last { 1 < i → IsNumbered self.old.number.0 self.old.last }
        ensures fault { result ≡ not (is_faulty_number records (told_number self.old) i word) }
        ensures room { vec_capacity self.new.tasks ≡ vec_capacity self.old.tasks }
        ensures last { IsTrue result → 0 < i → IsNumbered self.new.number.0 self.new.last }
        ensures tasks { IsTrue result → 7 < i → HasOpened records 0 self.new }
        ensures word { IsTrue result → told_number self.new i ≡ word }
        ensures before { IsTrue result → (k : ℕ) → k < i
            → told_number self.new k ≡ told_number self.old k }
        ensures slots { self.new.slots ≡ self.old.slots }
        ensures rest { KeepsRest self.old self.new }
    {
        match i {
            0 => {
                self.clock = Point(word);
                true
            }
            1 => {
                self.number = Seq(word);
                self.last = numbered(word);
                word >= self.clock.0
            }
            2 => {
                self.next = TaskId(word);
                word != 0
            }
            8 => self.open(records, word),
            _ => self.take_last(i, word),
        }
    }

    // So many records are told, and none has begun.
    fn open(&mut self, records: u32, count: u32) -> bool
        ensures fault { result ≡ nat_le count records }
        ensures room { vec_capacity self.new.tasks ≡ vec_capacity self.old.tasks }
        ensures told { IsTrue result → self.new.told ≡ count }
        ensures tasks { IsTrue result → HasOpened records 0 self.new }
        ensures clock { self.new.clock ≡ self.old.clock }
        ensures number { self.new.number ≡ self.old.number }
        ensures next { self.new.next ≡ self.old.next }
        ensures last { self.new.last ≡ self.old.last }
        ensures slots { self.new.slots ≡ self.old.slots }
        ensures rest { KeepsRest self.old self.new }
    {
        if count > records {
            return false;
        }
        self.told = count;
        self.tasks.clear();
        true
    }

    // One of the words of the last finish.
    fn take_last(&mut self, i: u32, word: u32) -> bool
        requires low { 3 ≤ i }
        requires high { i < 8 }
        requires last { IsNumbered self.old.number.0 self.old.last }
        ensures fault { result ≡ not (is_faulty_number 0 (told_number self.old) i word) }
        ensures last { IsNumbered self.new.number.0 self.new.last }
        ensures word { IsTrue result → told_number self.new i ≡ word }
        ensures before { IsTrue result → (k : ℕ) → k < i
            → told_number self.new k ≡ told_number self.old k }
        ensures tasks { self.new.tasks ≡ self.old.tasks }
        ensures told { self.new.told ≡ self.old.told }
        ensures slots { self.new.slots ≡ self.old.slots }
        ensures rest { KeepsRest self.old self.new }
    {
        match self.last {
            None => word == 0,
            Some(mut last) => {
                let fits = take_entry(&mut last, self.clock.0, self.next.0, i, word);
                self.last = Some(last);
                fits
            }
        }
    }

    // The slot of an object's newest version.
    fn take_slot(&mut self, slots: u8, o: usize, word: u32) -> bool
        requires { o < length self.old.slots.items }
        ensures fault { result ≡ not (nat_le slots word) }
        ensures slots { IsTrue result → self.new.slots.items ≡ set self.old.slots.items o word }
        ensures count { length self.new.slots.items ≡ length self.old.slots.items }
        ensures tasks { self.new.tasks ≡ self.old.tasks }
        ensures told { self.new.told ≡ self.old.told }
        ensures clock { self.new.clock ≡ self.old.clock }
        ensures number { self.new.number ≡ self.old.number }
        ensures next { self.new.next ≡ self.old.next }
        ensures last { self.new.last ≡ self.old.last }
        ensures rest { KeepsRest self.old self.new }
    {
        if word >= u32::from(slots) {
            return false;
        }
        self.slots[o] = word as u8;
        true
    }

    // Word k of the records: the first word of one begins it.
    fn take_record(&mut self, programs: u8, k: u32, word: u32) -> bool
        requires room { self.old.told ≤ vec_capacity self.old.tasks }
        requires begun { length self.old.tasks.items ≡ min self.old.told ((k + 2) / 3) }
        ensures fault { result
            ≡ not (is_faulty_task self.old.told self.old.next.0 self.old.tasks.items
            programs k word) }
        ensures room { vec_capacity self.new.tasks ≡ vec_capacity self.old.tasks }
        ensures word { IsTrue result → record_word self.new.tasks.items k ≡ word }
        ensures before { IsTrue result → (j : ℕ) → j < k
            → record_word self.new.tasks.items j ≡ record_word self.old.tasks.items j }
        ensures begun { IsTrue result
            → length self.new.tasks.items ≡ min self.new.told ((k + 3) / 3) }
        ensures told { self.new.told ≡ self.old.told }
        ensures clock { self.new.clock ≡ self.old.clock }
        ensures number { self.new.number ≡ self.old.number }
        ensures next { self.new.next ≡ self.old.next }
        ensures last { self.new.last ≡ self.old.last }
        ensures slots { self.new.slots ≡ self.old.slots }
        ensures rest { KeepsRest self.old self.new }
    {
        if k / 3 >= self.told {
            return word == 0;
        }
        let r = (k / 3) as usize;
        match k % 3 {
            0 => {
                if word == 0 || word >= self.next.0 {
                    return false;
                }
                if k >= 3 && word <= self.tasks[r - 1].id.0 {
                    return false;
                }
                self.tasks.push_reserved(begun(TaskId(word)));
                true
            }
            1 => {
                if word >= u32::from(programs) {
                    return false;
                }
                self.tasks[r].program = ProgId(word as u8);
                true
            }
            _ => {
                self.tasks[r].arg = word;
                true
            }
        }
    }
}

// A record of which its id alone is known.
fn begun(id: TaskId) -> TaskRec
    ensures { result ≡ record no_task { id = id } }
{
    TaskRec {
        id,
        program: ProgId(0),
        arg: 0,
    }
}

// A last finish of which its number alone is known: none where that is 0.
fn numbered(number: u32) -> Option<Entry>
    ensures { IsNumbered number result }
{
    if number == 0 {
        return None;
    }
    Some(Entry {
        number: Seq(number),
        task: TaskId(0),
        point: Point(0),
        first: TaskId(0),
        outcome: Outcome::Exit(0),
    })
}

// One of the words 3 to 7 of a last finish.
fn take_entry(last: &mut Entry, clock: u32, next: u32, i: u32, word: u32) -> bool
    requires low { 3 ≤ i }
    requires high { i < 8 }
    ensures fault { let trap = trap_word (outcome_of last.old.outcome) in
        result ≡ not (is_faulty_last clock next last.old.task.0 trap i word) }
    ensures word { IsTrue result → last_word last.new i ≡ word }
    ensures before { IsTrue result → (k : ℕ) → 3 ≤ k → k < i
        → last_word last.new k ≡ last_word last.old k }
    ensures number { last.new.number ≡ last.old.number }
{
    match i {
        3 => {
            last.task = TaskId(word);
            word != 0 && word < next
        }
        4 => {
            last.point = Point(word);
            word <= clock
        }
        5 => take_trap(&mut last.outcome, word),
        6 => take_exit(&mut last.outcome, word),
        _ => {
            last.first = TaskId(word);
            word > last.task.0 && word <= next && next - word <= 8
        }
    }
}

// The number of a trap, 0 for an exit.
fn take_trap(outcome: &mut Outcome, word: u32) -> bool
    ensures fault { result ≡ nat_le word 15 }
    ensures word { IsTrue result → trap_word (outcome_of outcome.new) ≡ word }
{
    if word == 0 {
        *outcome = Outcome::Exit(0);
        return true;
    }
    match TrapCause::from_number(word) {
        None => false,
        Some(cause) => {
            *outcome = Outcome::Trap(cause);
            true
        }
    }
}

// The code of an exit, 0 for a trap.
fn take_exit(outcome: &mut Outcome, word: u32) -> bool
    ensures fault { let trap = trap_word (outcome_of outcome.old) in
        result ≡ not (not (trap == 0) && not (word == 0)) }
    ensures word { IsTrue result → exit_word (outcome_of outcome.new) ≡ word }
    ensures trap { trap_word (outcome_of outcome.new) ≡ trap_word (outcome_of outcome.old) }
{
    match *outcome {
        Outcome::Exit(_) => {
            *outcome = Outcome::Exit(word);
            true
        }
        Outcome::Trap(_) => word == 0,
    }
}
