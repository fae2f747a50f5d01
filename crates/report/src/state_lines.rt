// The lines of the state at the end of a report.

ghost use Rattle.std.specs.Prelude.{◌≡◌, ◌<◌, ◌≤◌, length, option_map};
ghost use Rattle.set_model.specs.Sets.{TaskSet as Set, object_at};
ghost use Rattle.set_model.specs.Views.{task_of};
ghost use Rattle.report.specs.Fields.{values_in};
ghost use Rattle.report.specs.LineReading.{end_in, words_shape, object_in, open_in, is_done as done};
ghost use Rattle.report.specs.Ends.{end_of, end_told};

use crate::fields::{behind, end, number, program};
use arrayvec::ArrayVec;
use nv_base::{ObjId, Point, Seq, TaskId, TaskRec};
use task_set::TaskSet;

/// The numbers of the `end` line that the report keeps: that of the boots is read, and dropped.
#[derive(Clone, Copy, Debug, PartialEq, Eq)]
pub(crate) struct End {
    pub clock: Point,
    pub number: Seq,
    pub next: TaskId,
}

/// The `end` line.
pub(crate) fn end_line(text: &[u8]) -> Option<End>
    ensures { (set : Set) → option_map end_of result ≡ option_map end_told (end_in set text.now) }
{
    let (clock, rest) = number(b"end clock ", text)?;
    let (last, rest) = number(b" number ", rest)?;
    let (next, rest) = number(b" next ", rest)?;
    let (_, rest) = number(b" boots ", rest)?;
    end(rest)?;
    Some(End {
        clock: Point(clock),
        number: Seq(last),
        next: TaskId(next),
    })
}

/// The words of an object, as many as there may be.
pub(crate) type ObjectWords = ArrayVec<u32, 64>;

/// So many words, each behind a space, and nothing else.
fn words(size: u8, text: &[u8]) -> Option<ObjectWords>
    requires { size ≤ 64 }
    ensures { (set : Set) → option_map (λ w. w.items) result
        ≡ values_in set (words_shape size) text.now }
{
    let mut words = ArrayVec::new();
    let mut rest = text;
    for _ in 0..size {
        let (word, left) = number(b" ", rest)?;
        words.push(word);
        rest = left;
    }
    if rest.is_empty() { Some(words) } else { None }
}

/// The words of this object, where it is the object of the line.
pub(crate) fn object_words(set: &TaskSet, o: ObjId, text: &[u8]) -> Option<ObjectWords>
    requires { o.0 < length set.now.objects }
    ensures { option_map (λ w. w.items) result
        ≡ object_in set.now (object_at set.now o.0) text.now }
{
    let named = behind(b"object ", text)?;
    let values = behind(set.object_name(o), named)?;
    words(set.size(o), values)
}

/// An open task.
pub(crate) fn open(set: &TaskSet, text: &[u8]) -> Option<TaskRec>
    ensures { option_map task_of result ≡ open_in set.now text.now }
{
    let (id, rest) = number(b"open ", text)?;
    let (program, rest) = program(set, b" ", rest)?;
    let (arg, rest) = number(b" ", rest)?;
    end(rest)?;
    Some(TaskRec {
        id: TaskId(id),
        program,
        arg,
    })
}

/// The last line.
pub(crate) fn is_done(text: &[u8]) -> bool
    ensures { result ≡ done text.now }
{
    text == b"done".as_slice()
}
