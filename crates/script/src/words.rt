//! What the words of a line say, one by one.

ghost use Rattle.std.specs.Prelude.{◌≡◌, ◌≤◌, IfOk};
ghost use Rattle.plain_text.specs.Left.{words_left};
ghost use Rattle.nv_base.specs.Refusals.{Gives};
ghost use Rattle.script.specs.Results.{each};
ghost use Rattle.script.specs.Words.{allowed as allowed_stage, number as number_word, one as one_word, three as three_words, two as two_words, value as value_word};

use crate::keyword::{Stage, may_follow};
use crate::refusals::{LineRefusal, ScriptCause, cause_of};
use plain_text::{Words, number_in, word_value};

/// A number within its limits.
pub(crate) fn number(low: u32, high: u32, word: &[u8]) -> Result<u32, LineRefusal>
    ensures exact { Gives (λ n. n) result (number_word low high word.now) }
    ensures within { IfOk result (λ n. (low ≤ n) × (n ≤ high)) }
{
    match number_in(low, high, word) {
        Ok(number) => Ok(number),
        Err(fault) => Err(LineRefusal::At(cause_of(fault))),
    }
}

/// A word value.
pub(crate) fn value(word: &[u8]) -> Result<u32, LineRefusal>
    ensures { Gives (λ n. n) result (value_word word.now) }
{
    match word_value(word) {
        Ok(value) => Ok(value),
        Err(fault) => Err(LineRefusal::At(cause_of(fault))),
    }
}

/// The one word there is.
pub(crate) fn one(mut words: Words<'_>) -> Result<&[u8], LineRefusal>
    ensures { Gives (λ w. w.now) result (one_word (words_left words.entry)) }
{
    match (words.next(), words.next()) {
        (Some(word), None) => Ok(word),
        _ => Err(LineRefusal::At(ScriptCause::Count)),
    }
}

/// The two words there are.
pub(crate) fn two(mut words: Words<'_>) -> Result<(&[u8], &[u8]), LineRefusal>
    ensures { Gives (λ w. (w.0.now, w.1.now)) result (two_words (words_left words.entry)) }
{
    match (words.next(), words.next(), words.next()) {
        (Some(first), Some(second), None) => Ok((first, second)),
        _ => Err(LineRefusal::At(ScriptCause::Count)),
    }
}

/// Three words, and those after them.
pub(crate) fn three(mut words: Words<'_>) -> Result<(&[u8], &[u8], &[u8], Words<'_>), LineRefusal>
    ensures { Gives (λ w. (w.0.now, w.1.now, w.2.now, words_left w.3)) result
        (three_words (words_left words.entry)) }
{
    match (words.next(), words.next(), words.next()) {
        (Some(first), Some(second), Some(third)) => Ok((first, second, third, words)),
        _ => Err(LineRefusal::At(ScriptCause::Count)),
    }
}

/// The stage of a line, where it may stand here.
pub(crate) fn allowed(last: Option<Stage>, stage: Stage) -> Result<Stage, LineRefusal>
    ensures { Gives (λ s. s) result (allowed_stage last stage) }
{
    if !may_follow(last, stage) {
        return Err(LineRefusal::At(ScriptCause::Word));
    }
    Ok(stage)
}
