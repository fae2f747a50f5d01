//! What a line says, before labels are known.

ghost use Rattle.std.specs.Prelude.{◌≡◌, option_map};
ghost use Rattle.rv_asm.specs.Forms.{form_named as form_in};
ghost use Rattle.rv_asm.specs.Lines.{body_in, body_of as body_by, by_form, instruction_in, labelled as labelled_in, load_in, parsed, word_in};
ghost use Rattle.rv_asm.specs.Seen.{IsWhole, body_seen, line_seen, result_seen};

use crate::cause::AsmCause;
use crate::forms::{Form, form_named};
use crate::numbers::number_of;
use crate::operands::{Open, Value, before_end, filled, operand_of, two};
use crate::registers::register_of;
use plain_text::{first_word, is_name, without_comment};
use rv_isa::Reg;

/// What stands on a line beside its label.
#[derive(Clone, Copy, Debug)]
pub enum Body<'a> {
    /// Nothing.
    Nothing,
    /// An instruction.
    Instruction(Open<'a>),
    /// `.word` with its number.
    Word(i64),
    /// `li` with its register and its number.
    Load { rd: Reg, value: i64 },
}

/// A line: its label and what stands beside it, or the first thing that is wrong with that.
#[derive(Clone, Copy, Debug)]
pub struct Line<'a> {
    pub label: Option<&'a [u8]>,
    pub body: Result<Body<'a>, AsmCause>,
}

fn instruction(form: Form, text: &[u8]) -> Option<Body<'_>>
    ensures { option_map body_seen result
        ≡ instruction_in form.operands.now form.template text.entry.now }
{
    let partial = Open {
        instr: form.template,
        value: Value::Absent,
    };
    Some(Body::Instruction(filled(form.operands, text, partial)?))
}

fn word(text: &[u8]) -> Option<Body<'_>>
    ensures { option_map body_seen result ≡ word_in text.entry.now }
{
    Some(Body::Word(number_of(operand_of(text)?)?))
}

fn load(text: &[u8]) -> Option<Body<'_>>
    ensures { option_map body_seen result ≡ load_in text.entry.now }
{
    let (register, number) = two(text)?;
    Some(Body::Load {
        rd: register_of(register)?,
        value: number_of(number)?,
    })
}

fn formed<'a>(mnemonic: &[u8], text: &'a [u8]) -> Result<Body<'a>, AsmCause>
    ensures { result_seen result ≡ by_form (form_in mnemonic.now) text.entry.now }
{
    match form_named(mnemonic) {
        None => Err(AsmCause::Mnemonic),
        Some(form) => instruction(form, text).ok_or(AsmCause::Operand),
    }
}

fn body_of<'a>(mnemonic: &[u8], text: &'a [u8]) -> Result<Body<'a>, AsmCause>
    ensures { result_seen result ≡ body_by mnemonic.now text.entry.now }
{
    if mnemonic == b"li".as_slice() {
        load(text).ok_or(AsmCause::Operand)
    } else if mnemonic == b".word".as_slice() {
        word(text).ok_or(AsmCause::Operand)
    } else {
        formed(mnemonic, text)
    }
}

fn unlabelled(text: &[u8]) -> Result<Body<'_>, AsmCause>
    ensures { result_seen result ≡ body_in text.entry.now }
{
    match first_word(text) {
        None => Ok(Body::Nothing),
        Some((mnemonic, rest)) => body_of(mnemonic, rest),
    }
}

fn labelled<'a>(name: &'a [u8], rest: &'a [u8]) -> Line<'a>
    ensures { line_seen result ≡ labelled_in name.entry.now rest.entry.now }
{
    if is_name(name) {
        Line {
            label: Some(name),
            body: unlabelled(rest),
        }
    } else {
        Line {
            label: None,
            body: Err(AsmCause::Mnemonic),
        }
    }
}

fn read_line(bytes: &[u8]) -> Line<'_>
    ensures { line_seen result ≡ parsed bytes.entry.now }
{
    let text = without_comment(bytes);
    let Some((word, rest)) = first_word(text) else {
        return Line {
            label: None,
            body: Ok(Body::Nothing),
        };
    };
    match before_end(b':', word) {
        Some(name) => labelled(name, rest),
        None => Line {
            label: None,
            body: unlabelled(text),
        },
    }
}

/// What the bytes of a line say. Its registers and fields are within their ranges, but for its value.
pub fn parse(bytes: &[u8]) -> Line<'_>
    ensures exact { line_seen result ≡ parsed bytes.entry.now }
    ensures whole { IsWhole (result_seen result.body) }
{
    read_line(bytes)
}
