//! The words of one line.

ghost use Rattle.std.specs.Prelude.{◌≡◌, ◌≤◌, length, map};
ghost use Rattle.rv_isa.specs.Ranges.{IsInstr, IsReg};
ghost use Rattle.rv_isa.specs.Words.{instruction_word};
ghost use Rattle.rv_asm.specs.Assembly.{distance as distance_in, instruction_words, offset_to, valued as valued_in, body_words};
ghost use Rattle.rv_asm.specs.Labels.{body_count};
ghost use Rattle.rv_asm.specs.Found.{find_in};
ghost use Rattle.rv_asm.specs.Loads.{loads};
ghost use Rattle.rv_asm.specs.Seen.{IsWhole, body_seen, code_seen, code_words, load_seen, result_seen, value_seen};

use crate::cause::AsmCause;
use crate::fields::{fits, with_value};
use crate::labels::Labels;
use crate::lines::Body;
use crate::loads::{Load, load_of};
use crate::numbers::{is_word, word_of};
use crate::operands::{Open, Value};
use rv_isa::{Instr, Reg, encode};

/// The words of a line.
#[derive(Clone, Copy, Debug)]
pub enum Code {
    Nothing,
    One(u32),
    Two(u32, u32),
}

impl Code {
    /// How many words these are.
    pub fn count(self) -> u32
        ensures exact { result ≡ length (code_words self) }
        ensures few { result ≤ 2 }
    {
        match self {
            Code::Nothing => 0,
            Code::One(_) => 1,
            Code::Two(..) => 2,
        }
    }
}

fn load_words(rd: Reg, value: u32) -> Code
    requires { IsReg rd }
    ensures { code_words result ≡ map instruction_word (loads rd value) }
{
    match load_of(rd, value) {
        Load::One(instr) => Code::One(encode(instr)),
        Load::Two(first, second) => Code::Two(encode(first), encode(second)),
    }
}

/// How many words a line has beside its label, before labels are known.
pub fn count(body: Result<Body<'_>, AsmCause>) -> u32
    requires { IsWhole (result_seen body) }
    ensures exact { result ≡ body_count (result_seen body.entry) }
    ensures few { result ≤ 2 }
{
    match body {
        Ok(Body::Load { rd, value }) if is_word(value) => load_words(rd, word_of(value)).count(),
        Ok(Body::Instruction(_) | Body::Word(_)) => 1,
        Ok(Body::Nothing | Body::Load { .. }) | Err(_) => 0,
    }
}

/// How far it is from one place to another, in bytes.
fn distance(here: u32, there: u32) -> i64
    ensures { result ≡ distance_in here there }
{
    4 * i64::from(there) - 4 * i64::from(here)
}

fn offset(labels: &Labels<'_>, here: u32, name: &[u8]) -> Result<i64, AsmCause>
    ensures { result ≡ offset_to here (find_in labels.now name.now) }
{
    match labels.find(name) {
        Some(spot) => Ok(distance(here, spot.place)),
        None => Err(AsmCause::Label),
    }
}

#[tactic(auto, using(crate::proofs::Ranges::value_is_whole))]
fn valued(instr: Instr, value: i64) -> Result<Code, AsmCause>
    requires { IsInstr instr }
    ensures { code_seen result ≡ valued_in instr value }
{
    if !fits(instr, value) {
        return Err(AsmCause::Range);
    }
    Ok(Code::One(encode(with_value(value, instr))))
}

fn instruction(labels: &Labels<'_>, here: u32, partial: Open<'_>) -> Result<Code, AsmCause>
    requires { IsInstr partial.instr }
    ensures { code_seen result
        ≡ instruction_words (find_in labels.now) here partial.entry.instr
        (value_seen partial.entry.value) }
{
    match partial.value {
        Value::Absent => Ok(Code::One(encode(partial.instr))),
        Value::Number(number) => valued(partial.instr, number),
        Value::Label(name) => valued(partial.instr, offset(labels, here, name)?),
    }
}

/// The words of a line at a place.
#[tactic(auto, unfolding(crate::specs::Assembly::body_words))]
pub fn code_of(labels: &Labels<'_>, here: u32, body: Body<'_>) -> Result<Code, AsmCause>
    requires { IsWhole (Ok (body_seen body)) }
    ensures { code_seen result ≡ body_words (find_in labels.now) here (body_seen body.entry) }
{
    match body {
        Body::Nothing => Ok(Code::Nothing),
        Body::Instruction(partial) => instruction(labels, here, partial),
        Body::Word(value) if is_word(value) => Ok(Code::One(word_of(value))),
        Body::Load { rd, value } if is_word(value) => Ok(load_words(rd, word_of(value))),
        Body::Word(_) | Body::Load { .. } => Err(AsmCause::Range),
    }
}
