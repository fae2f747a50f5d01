// The lines of events: those of attempts, finishes and power.

ghost use Rattle.std.specs.Prelude.{◌≡◌, option_map};
ghost use Rattle.std.specs.Option.{is_some};
ghost use Rattle.set_model.specs.Sets.{TaskSet as Set};
ghost use Rattle.set_model.specs.Views.{entry_of};
ghost use Rattle.report.specs.Fields.{fits, values_in};
ghost use Rattle.report.specs.LineReading.{start_shape, pair_shape, slots_shape, boot_shape, is_attempt as attempt_told, is_refusal as refusal_told, is_power as power_told, is_quiet as quiet, exit_shape, trap_shape, exit_entry, trap_entry, entry_in, finish_in};

use crate::fields::{cause, core, end, number, object};
use nv_base::{Entry, Outcome, Point, Seq, TaskId};
use task_set::TaskSet;

/// Whether a line is that of a core that begins a task.
fn start(set: &TaskSet, text: &[u8]) -> Option<()>
    ensures { is_some result ≡ fits set.now start_shape text.now }
{
    let (_, rest) = core(set, b"start core ", text)?;
    let (_, rest) = number(b" task ", rest)?;
    let (_, rest) = number(b" at ", rest)?;
    end(rest)?;
    Some(())
}

/// A word, two numbers, and the core and the task of an attempt.
fn pair(set: &TaskSet, word: &[u8], text: &[u8]) -> Option<()>
    ensures { is_some result ≡ fits set.now (pair_shape word.now) text.now }
{
    let (_, rest) = number(word, text)?;
    let (_, rest) = number(b" ", rest)?;
    let (_, rest) = core(set, b" core ", rest)?;
    let (_, rest) = number(b" task ", rest)?;
    end(rest)?;
    Some(())
}

/// The line of a finish that found no slot for an object.
fn refused_slots(set: &TaskSet, text: &[u8]) -> Option<()>
    ensures { is_some result ≡ fits set.now slots_shape text.now }
{
    let (_, rest) = object(set, b"refuse slots ", text)?;
    let (_, rest) = core(set, b" core ", rest)?;
    let (_, rest) = number(b" task ", rest)?;
    end(rest)?;
    Some(())
}

fn boot(text: &[u8]) -> Option<()>
    ensures { (set : Set) → is_some result ≡ fits set boot_shape text.now }
{
    let (_, rest) = number(b"boot ", text)?;
    end(rest)?;
    Some(())
}

/// Whether a line is that of an attempt that begins, or that finds nothing to read.
fn is_attempt(set: &TaskSet, text: &[u8]) -> bool
    ensures { result ≡ attempt_told set.now text.now }
{
    start(set, text).is_some() || pair(set, b"stale ", text).is_some()
}

/// Whether a line is that of a finish that was refused.
fn is_refusal(set: &TaskSet, text: &[u8]) -> bool
    ensures { result ≡ refusal_told set.now text.now }
{
    pair(set, b"refuse empty ", text).is_some()
        || refused_slots(set, text).is_some()
        || pair(set, b"refuse records ", text).is_some()
}

/// Whether a line tells that power failed, or that it came back.
fn is_power(text: &[u8]) -> bool
    ensures { (set : Set) → result ≡ power_told set text.now }
{
    boot(text).is_some() || text == b"fail".as_slice()
}

/// Whether a line is that of an event that tells no finish.
pub(crate) fn is_quiet(set: &TaskSet, text: &[u8]) -> bool
    ensures { result ≡ quiet set.now text.now }
{
    is_attempt(set, text) || is_refusal(set, text) || is_power(text)
}

/// A finish with an exit code, behind this word.
fn exited(word: &[u8], text: &[u8]) -> Option<Entry>
    ensures { (set : Set) → option_map entry_of result
        ≡ option_map exit_entry (values_in set (exit_shape word.now) text.now) }
{
    let (number_told, rest) = number(word, text)?;
    let (task, rest) = number(b" task ", rest)?;
    let (point, rest) = number(b" point ", rest)?;
    let (code, rest) = number(b" exit ", rest)?;
    let (first, rest) = number(b" first ", rest)?;
    end(rest)?;
    Some(Entry {
        number: Seq(number_told),
        task: TaskId(task),
        point: Point(point),
        first: TaskId(first),
        outcome: Outcome::Exit(code),
    })
}

/// A finish with the cause of a trap, behind this word.
fn trapped(word: &[u8], text: &[u8]) -> Option<Entry>
    ensures { (set : Set) → option_map entry_of result
        ≡ option_map trap_entry (values_in set (trap_shape word.now) text.now) }
{
    let (number_told, rest) = number(word, text)?;
    let (task, rest) = number(b" task ", rest)?;
    let (point, rest) = number(b" point ", rest)?;
    let (trap, rest) = cause(b" trap ", rest)?;
    let (first, rest) = number(b" first ", rest)?;
    end(rest)?;
    Some(Entry {
        number: Seq(number_told),
        task: TaskId(task),
        point: Point(point),
        first: TaskId(first),
        outcome: Outcome::Trap(trap),
    })
}

/// The finish of a line behind this word.
fn entry(word: &[u8], text: &[u8]) -> Option<Entry>
    ensures { (set : Set) → option_map entry_of result ≡ entry_in set word.now text.now }
{
    match exited(word, text) {
        Some(entry) => Some(entry),
        None => trapped(word, text),
    }
}

/// The finish that a line tells, where it tells one.
pub(crate) fn finish(text: &[u8]) -> Option<Entry>
    ensures { (set : Set) → option_map entry_of result ≡ finish_in set text.now }
{
    match entry(b"finish ", text) {
        Some(entry) => Some(entry),
        None => entry(b"found ", text),
    }
}
