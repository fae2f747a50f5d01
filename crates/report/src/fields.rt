// A line of a report, taken from its front: bytes as they stand, and a value behind them up to the next space.

ghost use Rattle.std.specs.Prelude.{◌≡◌, ◌≤◌, ◌<◌, IfSome, position, option_map, [], length, nat_eq, find};
ghost use Rattle.report.specs.Fields.{behind as behind_front, cut, word_behind as word_of, has_leading_zero as leads_zero, number_of as number_told, is_space, field_in, value_of, nothing_in, cause_number_of, Core, Object, Program};
ghost use Rattle.nv_base.specs.Causes.{cause_number, cause_word};
ghost use Rattle.report_text.specs.Causes.{causes};
ghost use Rattle.std.specs.Cmp.Lexicographic.{pointwise};
ghost use Rattle.std.specs.List.{position_or_len};

use nv_base::{CoreId, ObjId, ProgId, TrapCause};
use plain_text::number_in;
use task_set::TaskSet;

/// What stands behind these bytes. None where the text does not begin with them.
pub(crate) fn behind<'a>(front: &[u8], text: &'a [u8]) -> Option<&'a [u8]>
    ensures { option_map (λ rest. rest.now) result ≡ behind_front front.now text.now }
{
    text.strip_prefix(front)
}

fn space_at(text: &[u8]) -> Option<usize>
    ensures at { result ≡ position is_space text.now }
    ensures within { IfSome result (λ at. at < length text.now) }
{
    text.iter().position(|b| *b == b' ')
}

/// Where the first space stands, or the end.
fn word_end(text: &[u8]) -> usize
    ensures at { result ≡ position_or_len is_space text.now }
    ensures within { result ≤ length text.now }
{
    space_at(text).unwrap_or(text.len())
}

/// A text up to the next space, and from there.
fn cut_at_space(text: &[u8]) -> (&[u8], &[u8])
    ensures { (result.0.now, result.1.now) ≡ cut text.now }
{
    text.split_at(word_end(text))
}

/// The word behind these bytes, and what is left behind it.
fn word_behind<'a>(front: &[u8], text: &'a [u8]) -> Option<(&'a [u8], &'a [u8])>
    ensures { option_map (λ p. (p.0.now, p.1.now)) result ≡ word_of front.now text.now }
{
    let rest = behind(front, text)?;
    Some(cut_at_space(rest))
}

fn has_leading_zero(word: &[u8]) -> bool
    ensures { result ≡ leads_zero word.now }
{
    word.len() > 1 && word[0] == b'0'
}

/// The number that a word is, as it is written: with no zero before its first digit.
fn number_of(word: &[u8]) -> Option<u32>
    ensures { result ≡ number_told word.now }
{
    if has_leading_zero(word) {
        return None;
    }
    number_in(0, u32::MAX, word).ok()
}

/// A number behind these bytes, and what is left.
pub(crate) fn number<'a>(front: &[u8], text: &'a [u8]) -> Option<(u32, &'a [u8])>
    ensures { option_map (λ p. (p.0, p.1.now)) result ≡ field_in number_told front.now text.now }
{
    let (word, rest) = word_behind(front, text)?;
    Some((number_of(word)?, rest))
}

/// The number of a core of the set.
fn core_of(set: &TaskSet, word: &[u8]) -> Option<u32>
    ensures { result ≡ value_of set.now Core word.now }
{
    let core = number_of(word)?;
    if core < u32::from(set.cores()) {
        Some(core)
    } else {
        None
    }
}

/// A core of the set behind these bytes, and what is left.
pub(crate) fn core<'a>(set: &TaskSet, front: &[u8], text: &'a [u8]) -> Option<(u32, &'a [u8])>
    ensures { option_map (λ p. (p.0, p.1.now)) result
        ≡ field_in (value_of set.now Core) front.now text.now }
{
    let (word, rest) = word_behind(front, text)?;
    Some((core_of(set, word)?, rest))
}

/// The object of the set that has this name.
fn object_of(set: &TaskSet, name: &[u8]) -> Option<ObjId>
    ensures { option_map (λ o. o.0) result ≡ value_of set.now Object name.now }
{
    for object in 0..set.objects() {
        if set.object_name(ObjId(object)) == name {
            return Some(ObjId(object));
        }
    }
    None
}

/// An object of the set behind these bytes, by its name, and what is left.
pub(crate) fn object<'a>(set: &TaskSet, front: &[u8], text: &'a [u8]) -> Option<(ObjId, &'a [u8])>
    ensures { option_map (λ p. (p.0.0, p.1.now)) result
        ≡ field_in (value_of set.now Object) front.now text.now }
{
    let (word, rest) = word_behind(front, text)?;
    Some((object_of(set, word)?, rest))
}

/// The program of the set that has this name.
fn program_of(set: &TaskSet, name: &[u8]) -> Option<ProgId>
    ensures { option_map (λ p. p.0) result ≡ value_of set.now Program name.now }
{
    for program in 0..set.programs() {
        if set.program_name(ProgId(program)) == name {
            return Some(ProgId(program));
        }
    }
    None
}

/// A program of the set behind these bytes, by its name, and what is left.
pub(crate) fn program<'a>(set: &TaskSet, front: &[u8], text: &'a [u8]) -> Option<(ProgId, &'a [u8])>
    ensures { option_map (λ p. (p.0.0, p.1.now)) result
        ≡ field_in (value_of set.now Program) front.now text.now }
{
    let (word, rest) = word_behind(front, text)?;
    Some((program_of(set, word)?, rest))
}

/// The causes of traps, by their numbers from 1 on.
const CAUSES: [TrapCause; 15] = [
    TrapCause::Illegal,
    TrapCause::Jump,
    TrapCause::Fetch,
    TrapCause::LoadAlign,
    TrapCause::Load,
    TrapCause::StoreAlign,
    TrapCause::Store,
    TrapCause::Break,
    TrapCause::Call,
    TrapCause::Object,
    TrapCause::CallAlign,
    TrapCause::CallRange,
    TrapCause::Program,
    TrapCause::Spawns,
    TrapCause::Fuel,
];

/// The cause that has this word.
fn cause_of(word: &[u8]) -> Option<TrapCause>
    ensures { result ≡ find (λ cause. pointwise nat_eq (cause_word cause) word.now) causes }
{
    CAUSES
        .iter()
        .copied()
        .find(|cause| cause.word().as_bytes() == word)
}

/// The cause of a trap behind these bytes, by its word, and what is left.
pub(crate) fn cause<'a>(front: &[u8], text: &'a [u8]) -> Option<(TrapCause, &'a [u8])>
    ensures { option_map (λ p. (cause_number p.0, p.1.now)) result
        ≡ field_in cause_number_of front.now text.now }
{
    let (word, rest) = word_behind(front, text)?;
    Some((cause_of(word)?, rest))
}

/// Nothing, where nothing is left of the line.
pub(crate) fn end(text: &[u8]) -> Option<()>
    ensures { option_map (λ _. []) result ≡ nothing_in text.now }
{
    if text.is_empty() { Some(()) } else { None }
}
