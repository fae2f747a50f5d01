//! `li`: one or two instructions that load a value.

ghost use Rattle.std.specs.Prelude.{◌≡◌, ◌%◌, ℤ};
ghost use Rattle.std.specs.List.{AllByRecursion};
ghost use Rattle.rv_isa.specs.Fields.{signed};
ghost use Rattle.rv_isa.specs.Ranges.{IsInstr, IsReg};
ghost use Rattle.rv_isa.specs.declared.instruction.Instr.TheVariants.{OpImm};
ghost use Rattle.rv_isa.specs.declared.instruction.ImmOp.TheVariants.{Addi};
ghost use Rattle.rv_asm.specs.Loads.{loads};
ghost use Rattle.rv_asm.specs.Seen.{load_seen};

use crate::numbers::is_within;
use rv_isa::{ImmOp, Instr, Reg};

/// What loads a value: one instruction, or two.
#[derive(Clone, Copy, Debug)]
pub enum Load {
    One(Instr),
    Two(Instr, Instr),
}

/// The bits 11 to 0 of a value, as a signed number.
fn low_part(value: u32) -> i32
    ensures { result ≡ signed 12 (value % 4096) }
{
    let low = (value % 4096) as i32;
    if low < 2048 { low } else { low - 4096 }
}

fn number_of(value: u32) -> i32
    ensures { result ≡ signed 32 value }
{
    value.cast_signed()
}

fn addi(rd: Reg, rs1: Reg, imm: i32) -> Instr
    ensures { result ≡ OpImm Addi rd rs1 imm }
{
    Instr::OpImm {
        op: ImmOp::Addi,
        rd,
        rs1,
        imm,
    }
}

/// The instructions of `li`.
#[tactic(auto, unfolding(crate::specs::Loads::loads))]
pub fn load_of(rd: Reg, value: u32) -> Load
    requires { IsReg rd }
    ensures exact { load_seen result ≡ loads rd value }
    ensures whole { AllByRecursion IsInstr (load_seen result) }
{
    let number = number_of(value);
    if is_within(2048, 2047, i64::from(number)) {
        return Load::One(addi(rd, Reg(0), number));
    }
    let upper = Instr::Lui {
        rd,
        imm: value.wrapping_add(2048) / 4096,
    };
    if value % 4096 == 0 {
        Load::One(upper)
    } else {
        Load::Two(upper, addi(rd, rd, low_part(value)))
    }
}
