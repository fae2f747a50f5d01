//! Some of an object's words, and how they are given to a service that waits for them.

ghost use Rattle.std.specs.Prelude.{◌≡◌, ◌+◌, ◌≤◌, length};
ghost use Rattle.rv_core.specs.Machine.{IsPlace, put_words};
ghost use Rattle.task_model.specs.TaskSteps.{part_of, past};

use rv_core::Machine;

/// Some words of an object, from one of them on, and where they stand in a machine's memory.
#[derive(Clone, Copy, Debug)]
pub struct Part {
    /// The address in memory.
    pub at: u32,
    /// The number of the first of them.
    pub first: u32,
    /// How many there are.
    pub count: u32,
}

/// Puts words into a machine's memory.
pub(crate) fn give_words(machine: &mut Machine, at: u32, words: &[u32])
    requires { IsPlace machine.old at (length words.now) }
    ensures exact { machine.new
        ≡ record machine.old { memory = put_words machine.old.memory at words.now } }
    ensures room { length machine.new.memory ≡ length machine.old.memory }
{
    let mut place = at;
    for word in words {
        machine.copy_in(place, *word);
        place += 4;
    }
}

/// A part of an object's words is given to a service that waits on it.
pub fn give(machine: &mut Machine, part: Part, words: &[u32])
    requires inside { part.first + part.count ≤ length words.now }
    requires place { IsPlace machine.old part.at part.count }
    requires waits { machine.old.pc + 4 ≤ length machine.old.memory }
    ensures exact { let given = part_of part.first part.count words.now in
        let memory = put_words machine.old.memory part.at given in
        machine.new ≡ past (record machine.old { memory = memory }) }
    ensures room { length machine.new.memory ≡ length machine.old.memory }
{
    let first = part.first as usize;
    give_words(machine, part.at, &words[first..first + part.count as usize]);
    machine.resume(None);
}
