//! The operands of a line, and how they fill an instruction.

ghost use Rattle.std.specs.Prelude.{◌≡◌, ◌∷◌, [], ◌==◌, ◌<◌, length, option_map, position, Some, None, MatchOption};
ghost use Rattle.std.specs.List.{before_first, after_first, slice_split};
ghost use Rattle.plain_text.specs.Words.{words_in};
ghost use Rattle.rv_asm.specs.Operands.{address_of as address_in, before_end as before, comma, fill as filled_by, filled as filled_in, operand_in, parenthesis, pieces_left, pieces_of, target_of as target_in, two_from, worded as worded_in};
ghost use Rattle.rv_asm.specs.Seen.{open_seen, value_seen};

use crate::fields::{with_rd, with_rs1, with_rs2};
use crate::numbers::number_of;
use crate::registers::register_of;
use plain_text::{Words, first_word, is_name};
use rv_isa::{Instr, Operand, Reg};

/// What is to be put into an instruction.
#[derive(Clone, Copy, Debug)]
pub enum Value<'a> {
    /// Nothing.
    Absent,
    /// A number, as the immediate or the offset.
    Number(i64),
    /// How far away the label of this name is.
    Label(&'a [u8]),
}

/// An instruction, and the value that is still to be put into it.
#[derive(Clone, Copy, Debug)]
pub struct Open<'a> {
    pub instr: Instr,
    pub value: Value<'a>,
}

/// What stands before a byte at the end of a word.
pub fn before_end(byte: u8, word: &[u8]) -> Option<&[u8]>
    requires { 0 < byte }
    ensures { option_map (λ front. front.now) result ≡ before byte word.now }
{
    let [front @ .., last] = word else {
        return None;
    };
    if *last == byte { Some(front) } else { None }
}

fn target_of(word: &[u8]) -> Option<Value<'_>>
    ensures { option_map value_seen result ≡ target_in word.entry.now }
{
    if is_name(word) {
        return Some(Value::Label(word));
    }
    match number_of(word) {
        Some(number) => Some(Value::Number(number)),
        None => None,
    }
}

fn opening_at(word: &[u8]) -> Option<usize>
    ensures { result ≡ position parenthesis word.now }
{
    word.iter().position(|b| *b == b'(')
}

fn cut_address(word: &[u8]) -> Option<(&[u8], &[u8])>
    ensures { MatchOption result (after_first parenthesis word.now
        ≡ []) (λ p. (p.0.now ≡ before_first parenthesis word.now)
        × (p.1.now ≡ after_first parenthesis word.now)) }
{
    let at = opening_at(word)?;
    Some((&word[..at], &word[at + 1..]))
}

#[tactic(auto, unfolding(crate::specs::Operands::address_of))]
fn address_of(word: &[u8]) -> Option<(i64, Reg)>
    ensures { result ≡ address_in word.now }
{
    let (number, rest) = cut_address(word)?;
    let name = before_end(b')', rest)?;
    let number = number_of(number)?;
    Some((number, register_of(name)?))
}

#[tactic(auto, unfolding(crate::specs::Operands::fill))]
fn fill<'a>(operand: Operand, word: &'a [u8], partial: Open<'a>) -> Option<Open<'a>>
    ensures { option_map open_seen result
        ≡ filled_by operand word.entry.now (open_seen partial.entry) }
{
    let Open { instr, value } = partial;
    match operand {
        Operand::Rd => Some(Open {
            instr: with_rd(register_of(word)?, instr),
            value,
        }),
        Operand::Rs1 => Some(Open {
            instr: with_rs1(register_of(word)?, instr),
            value,
        }),
        Operand::Rs2 => Some(Open {
            instr: with_rs2(register_of(word)?, instr),
            value,
        }),
        Operand::Immediate => Some(Open {
            instr,
            value: Value::Number(number_of(word)?),
        }),
        Operand::Target => Some(Open {
            instr,
            value: target_of(word)?,
        }),
        Operand::Memory => {
            let (number, rs1) = address_of(word)?;
            Some(Open {
                instr: with_rs1(rs1, instr),
                value: Value::Number(number),
            })
        }
    }
}

fn comma_at(text: &[u8]) -> Option<usize>
    ensures { result ≡ position comma text.now }
{
    text.iter().position(|b| *b == b',')
}

/// What stands before the first comma, and behind it where there is one.
pub fn cut(text: &[u8]) -> (&[u8], Option<&[u8]>)
    ensures { slice_split comma text.now
        ≡ result.0.now ∷ pieces_left (option_map (λ rest. rest.now) result.1) }
{
    match comma_at(text) {
        Some(end) => (&text[..end], Some(&text[end + 1..])),
        None => (text, None),
    }
}

/// The one word between commas; none where there are none or more.
pub fn operand_of(piece: &[u8]) -> Option<&[u8]>
    ensures { option_map (λ word. word.now) result ≡ operand_in piece.now }
{
    let mut words = Words::within(piece);
    match (words.next(), words.next()) {
        (Some(word), None) => Some(word),
        _ => None,
    }
}

/// The text of operands, none where it has no word.
pub fn worded(text: &[u8]) -> Option<&[u8]>
    ensures { option_map (λ t. t.now) result ≡ worded_in text.now }
{
    match first_word(text) {
        Some(_) => Some(text),
        None => None,
    }
}

/// The two operands of a text; none where there are fewer or more.
#[tactic(auto, using(crate::proofs::Cuts::two_too_many))]
pub fn two(text: &[u8]) -> Option<(&[u8], &[u8])>
    ensures { option_map (λ w. (w.0.now, w.1.now)) result ≡ two_from (pieces_of text.now) }
{
    let (first, rest) = cut(worded(text)?);
    let (second, more) = cut(rest?);
    match more {
        Some(_) => None,
        None => Some((operand_of(first)?, operand_of(second)?)),
    }
}

/// An instruction with an operand filled in from each piece of a text, as many as there are operands.
pub fn filled<'a>(operands: &[Operand], text: &'a [u8], partial: Open<'a>) -> Option<Open<'a>>
    ensures { option_map open_seen result
        ≡ filled_in operands.now (pieces_of text.entry.now) (open_seen partial.entry) }
{
    let mut rest = worded(text);
    let mut partial = partial;
    for operand in operands {
        let (piece, more) = cut(rest?);
        partial = fill(*operand, operand_of(piece)?, partial)?;
        rest = more;
    }
    match rest {
        None => Some(partial),
        Some(_) => None,
    }
}
