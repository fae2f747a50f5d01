//! The operands of an instruction as text, and which fields each writes.

ghost use Rattle.std.specs.Prelude.{◌≡◌};
ghost use Rattle.rv_isa.specs.Ranges.{IsInstr, IsReg};
ghost use Rattle.rv_isa.specs.Texts.{operands_of, rd_of, rs1_of, rs2_of, number_of};

use crate::instruction::{Instr, Reg};

/// An operand of an instruction's text: which fields it writes.
#[derive(Clone, Copy, PartialEq, Eq, Debug)]
pub enum Operand {
    /// The register that is written.
    Rd,
    /// The first register that is read.
    Rs1,
    /// The second register that is read.
    Rs2,
    /// The immediate, or the amount of a shift.
    Immediate,
    /// The offset, from this instruction.
    Target,
    /// An address, `imm(rs1)`.
    Memory,
}

/// The operands that the text of an instruction writes, in order. FENCE is written without any.
pub fn operands(i: Instr) -> &'static [Operand]
    ensures { result.now ≡ operands_of i }
{
    match i {
        Instr::Lui { .. } | Instr::Auipc { .. } => &[Operand::Rd, Operand::Immediate],
        Instr::Jal { .. } => &[Operand::Rd, Operand::Target],
        Instr::Jalr { .. } | Instr::Load { .. } => &[Operand::Rd, Operand::Memory],
        Instr::Branch { .. } => &[Operand::Rs1, Operand::Rs2, Operand::Target],
        Instr::Store { .. } => &[Operand::Rs2, Operand::Memory],
        Instr::OpImm { .. } => &[Operand::Rd, Operand::Rs1, Operand::Immediate],
        Instr::Op { .. } => &[Operand::Rd, Operand::Rs1, Operand::Rs2],
        Instr::Fence { .. } | Instr::Ecall | Instr::Ebreak => &[],
    }
}

/// The register that an instruction writes; register 0 where it writes none.
pub(crate) fn destination(i: Instr) -> Reg
    requires { IsInstr i }
    ensures value { result ≡ rd_of i }
    ensures fits { IsReg result }
{
    match i {
        Instr::Lui { rd, .. }
        | Instr::Auipc { rd, .. }
        | Instr::Jal { rd, .. }
        | Instr::Jalr { rd, .. }
        | Instr::Load { rd, .. }
        | Instr::OpImm { rd, .. }
        | Instr::Op { rd, .. }
        | Instr::Fence { rd, .. } => rd,
        Instr::Branch { .. } | Instr::Store { .. } | Instr::Ecall | Instr::Ebreak => Reg(0),
    }
}

/// The first register that an instruction reads; register 0 where it reads none.
pub(crate) fn first_source(i: Instr) -> Reg
    requires { IsInstr i }
    ensures value { result ≡ rs1_of i }
    ensures fits { IsReg result }
{
    match i {
        Instr::Jalr { rs1, .. }
        | Instr::Branch { rs1, .. }
        | Instr::Load { rs1, .. }
        | Instr::Store { rs1, .. }
        | Instr::OpImm { rs1, .. }
        | Instr::Op { rs1, .. }
        | Instr::Fence { rs1, .. } => rs1,
        _ => Reg(0),
    }
}

/// The second register that an instruction reads; register 0 where it reads one at most.
pub(crate) fn second_source(i: Instr) -> Reg
    requires { IsInstr i }
    ensures value { result ≡ rs2_of i }
    ensures fits { IsReg result }
{
    match i {
        Instr::Branch { rs2, .. } | Instr::Store { rs2, .. } | Instr::Op { rs2, .. } => rs2,
        _ => Reg(0),
    }
}

/// The immediate or the offset of an instruction; 0 where it has neither.
pub(crate) fn number(i: Instr) -> i32
    requires { IsInstr i }
    ensures { result ≡ number_of i }
{
    match i {
        Instr::Lui { imm, .. } | Instr::Auipc { imm, .. } => imm as i32,
        Instr::Jal { offset, .. } | Instr::Branch { offset, .. } => offset,
        Instr::Jalr { imm, .. }
        | Instr::Load { imm, .. }
        | Instr::Store { imm, .. }
        | Instr::OpImm { imm, .. } => imm,
        Instr::Op { .. } | Instr::Fence { .. } | Instr::Ecall | Instr::Ebreak => 0,
    }
}
