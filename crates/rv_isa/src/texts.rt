// Words as lines of assembler text.

ghost use Rattle.std.specs.Prelude.{◌≡◌, ◌≤◌, ◌++◌, IfOk, OnErr, OnOk, string_bytes};
ghost use Rattle.std.specs.Fmt.{signed_decimal};
ghost use Rattle.rv_isa.specs.Ranges.{IsInstr, IsReg};
ghost use Rattle.rv_isa.specs.Texts.{HasFront, address_text, hexadecimal, instruction_text, operand_text, raw_text, row_text, text_of};

use crate::decoding::decode;
use crate::instruction::{Instr, Reg};
use crate::mnemonics::{mnemonic, register_name};
use crate::syntax::{Operand, destination, first_source, number, operands, second_source};
use nv_base::NoMemory;
use std::alloc::{AllocError, Global};

/// The one FENCE that is written by its name: before and after it, all reads and writes.
const FENCE: u32 = 0x0FF0000F;

fn push_number(out: &mut String, n: i32) -> Result<(), AllocError>
    ensures whole { OnOk result (string_bytes out.new ≡ string_bytes out.old ++ signed_decimal n) }
    ensures cut_off { let text = signed_decimal n in
        OnErr result (HasFront (string_bytes out.old) text (string_bytes out.new)) }
{
    let mut digits = itoa::Buffer::new();
    out.push_str(digits.format(n))
}

fn push_address(out: &mut String, offset: i32, base: Reg) -> Result<(), AllocError>
    requires { IsReg base }
    ensures whole { let text = address_text offset base in
        OnOk result (string_bytes out.new ≡ string_bytes out.old ++ text) }
    ensures cut_off { let text = address_text offset base in
        OnErr result (HasFront (string_bytes out.old) text (string_bytes out.new)) }
{
    push_number(out, offset)?;
    out.push_str("(")?;
    out.push_str(register_name(base))?;
    out.push_str(")")
}

fn push_operand(out: &mut String, i: Instr, operand: Operand) -> Result<(), AllocError>
    requires { IsInstr i }
    ensures whole { let text = operand_text i operand in
        OnOk result (string_bytes out.new ≡ string_bytes out.old ++ text) }
    ensures cut_off { let text = operand_text i operand in
        OnErr result (HasFront (string_bytes out.old) text (string_bytes out.new)) }
{
    match operand {
        Operand::Rd => out.push_str(register_name(destination(i))),
        Operand::Rs1 => out.push_str(register_name(first_source(i))),
        Operand::Rs2 => out.push_str(register_name(second_source(i))),
        Operand::Immediate | Operand::Target => push_number(out, number(i)),
        Operand::Memory => push_address(out, number(i), first_source(i)),
    }
}

fn push_row(out: &mut String, i: Instr) -> Result<(), AllocError>
    requires { IsInstr i }
    ensures whole { OnOk result (string_bytes out.new ≡ string_bytes out.old ++ row_text i) }
    ensures cut_off { let text = row_text i in
        OnErr result (HasFront (string_bytes out.old) text (string_bytes out.new)) }
{
    out.push_str(mnemonic(i))?;
    if let [first, others @ ..] = operands(i) {
        out.push_str(" ")?;
        push_operand(out, i, *first)?;
        for operand in others {
            out.push_str(", ")?;
            push_operand(out, i, *operand)?;
        }
    }
    Ok(())
}

/// So many hexadecimal digits of a number, in lower case, behind what is there: 8 at most, those of a word. An error
/// where they found no memory; then a front of them was put.
#[tactic(auto, unfolding(crate::specs::Texts::hexadecimal))]
pub fn push_hexadecimal(out: &mut String, digits: u32, n: u32) -> Result<(), AllocError>
    requires { digits ≤ 8 }
    ensures whole { let text = hexadecimal digits n in
        OnOk result (string_bytes out.new ≡ string_bytes out.old ++ text) }
    ensures cut_off { let text = hexadecimal digits n in
        OnErr result (HasFront (string_bytes out.old) text (string_bytes out.new)) }
{
    if digits == 0 {
        return Ok(());
    }
    push_hexadecimal(out, digits - 1, n / 16)?;
    out.push(char::from_digit(n % 16, 16).unwrap())
}

fn push_raw(out: &mut String, word: u32) -> Result<(), AllocError>
    ensures whole { OnOk result (string_bytes out.new ≡ string_bytes out.old ++ raw_text word) }
    ensures cut_off { let text = raw_text word in
        OnErr result (HasFront (string_bytes out.old) text (string_bytes out.new)) }
{
    out.push_str(".word 0x")?;
    push_hexadecimal(out, 8, word)
}

/// Puts the text of a word, by `text`, behind what is there. `NoMemory` where no room for it was found;
/// then a front of it was put.
#[tactic(auto, unfolding(crate::specs::Texts::text_of))]
pub fn push_text(out: &mut String, word: u32) -> Result<(), NoMemory>
    ensures whole { OnOk result (string_bytes out.new ≡ string_bytes out.old ++ text_of word) }
    ensures cut_off { let text = text_of word in
        OnErr result (HasFront (string_bytes out.old) text (string_bytes out.new)) }
{
    match decode(word) {
        Some(Instr::Fence { .. }) if word != FENCE => push_raw(out, word)?,
        Some(instruction) => push_row(out, instruction)?,
        None => push_raw(out, word)?,
    }
    Ok(())
}

/// The text of a word: the mnemonic of its instruction, and behind one space its operands, with a comma
/// and a space between them; registers by the ABI's names, numbers in decimal, targets as offsets. A word
/// that is no instruction, and a FENCE other than 0x0FF0000F, is `.word 0x` and 8 hexadecimal digits.
/// `NoMemory` where no room for the text was found.
pub fn text(alloc: Global, word: u32) -> Result<String, NoMemory>
    ensures { IfOk result (λ line. string_bytes line ≡ text_of word) }
{
    let mut line = String::new(alloc);
    push_text(&mut line, word)?;
    Ok(line)
}
