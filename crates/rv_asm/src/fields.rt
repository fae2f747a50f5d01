//! The fields of an instruction that operands fill, and the range of its value.

ghost use Rattle.std.specs.Prelude.{◌≡◌, IsTrue};
ghost use Rattle.rv_asm.specs.Fields.{fits as value_fits, immediate_fits as fits_immediate, with_rd as rd_filled, with_rs1 as rs1_filled, with_rs2 as rs2_filled, with_value as value_filled};

use crate::numbers::{is_even, is_within};
use rv_isa::{ImmOp, Instr, Reg};

/// An instruction with another `rd`, if it has one.
pub fn with_rd(rd: Reg, instr: Instr) -> Instr
    ensures { result ≡ rd_filled rd instr }
{
    match instr {
        Instr::Lui { imm, .. } => Instr::Lui { rd, imm },
        Instr::Auipc { imm, .. } => Instr::Auipc { rd, imm },
        Instr::Jal { offset, .. } => Instr::Jal { rd, offset },
        Instr::Jalr { rs1, imm, .. } => Instr::Jalr { rd, rs1, imm },
        Instr::Load { op, rs1, imm, .. } => Instr::Load { op, rd, rs1, imm },
        Instr::OpImm { op, rs1, imm, .. } => Instr::OpImm { op, rd, rs1, imm },
        Instr::Op { op, rs1, rs2, .. } => Instr::Op { op, rd, rs1, rs2 },
        Instr::Fence { rs1, bits, .. } => Instr::Fence { rd, rs1, bits },
        Instr::Branch { .. } | Instr::Store { .. } | Instr::Ecall | Instr::Ebreak => instr,
    }
}

/// An instruction with another `rs1`, if it has one.
pub fn with_rs1(rs1: Reg, instr: Instr) -> Instr
    ensures { result ≡ rs1_filled rs1 instr }
{
    match instr {
        Instr::Jalr { rd, imm, .. } => Instr::Jalr { rd, rs1, imm },
        Instr::Branch {
            op,
            rs2,
            offset,
            ..
        } => Instr::Branch {
            op,
            rs1,
            rs2,
            offset,
        },
        Instr::Load { op, rd, imm, .. } => Instr::Load { op, rd, rs1, imm },
        Instr::Store { op, rs2, imm, .. } => Instr::Store { op, rs1, rs2, imm },
        Instr::OpImm { op, rd, imm, .. } => Instr::OpImm { op, rd, rs1, imm },
        Instr::Op { op, rd, rs2, .. } => Instr::Op { op, rd, rs1, rs2 },
        Instr::Fence { rd, bits, .. } => Instr::Fence { rd, rs1, bits },
        Instr::Lui { .. }
        | Instr::Auipc { .. }
        | Instr::Jal { .. }
        | Instr::Ecall
        | Instr::Ebreak => instr,
    }
}

/// An instruction with another `rs2`, if it has one.
pub fn with_rs2(rs2: Reg, instr: Instr) -> Instr
    ensures { result ≡ rs2_filled rs2 instr }
{
    match instr {
        Instr::Branch {
            op,
            rs1,
            offset,
            ..
        } => Instr::Branch {
            op,
            rs1,
            rs2,
            offset,
        },
        Instr::Store { op, rs1, imm, .. } => Instr::Store { op, rs1, rs2, imm },
        Instr::Op { op, rd, rs1, .. } => Instr::Op { op, rd, rs1, rs2 },
        _ => instr,
    }
}

fn immediate_fits(op: ImmOp, value: i64) -> bool
    ensures { result ≡ fits_immediate op value }
{
    match op {
        ImmOp::Slli | ImmOp::Srli | ImmOp::Srai => is_within(0, 31, value),
        _ => is_within(2048, 2047, value),
    }
}

/// Whether a value is in the range of an instruction's form. An instruction without a value takes each.
pub fn fits(instr: Instr, value: i64) -> bool
    ensures { result ≡ value_fits instr value }
{
    match instr {
        Instr::Lui { .. } | Instr::Auipc { .. } => is_within(0, 1_048_575, value),
        Instr::Jal { .. } => is_within(1_048_576, 1_048_574, value) && is_even(value),
        Instr::Branch { .. } => is_within(4096, 4094, value) && is_even(value),
        Instr::Jalr { .. } | Instr::Load { .. } | Instr::Store { .. } => {
            is_within(2048, 2047, value)
        }
        Instr::OpImm { op, .. } => immediate_fits(op, value),
        Instr::Op { .. } | Instr::Fence { .. } | Instr::Ecall | Instr::Ebreak => true,
    }
}

/// An instruction with a value that is in its range, as its immediate or its offset.
pub fn with_value(value: i64, instr: Instr) -> Instr
    requires { IsTrue (value_fits instr value) }
    ensures { result ≡ value_filled value instr }
{
    match instr {
        Instr::Lui { rd, .. } => Instr::Lui {
            rd,
            imm: value as u32,
        },
        Instr::Auipc { rd, .. } => Instr::Auipc {
            rd,
            imm: value as u32,
        },
        Instr::Jal { rd, .. } => Instr::Jal {
            rd,
            offset: value as i32,
        },
        Instr::Jalr { rd, rs1, .. } => Instr::Jalr {
            rd,
            rs1,
            imm: value as i32,
        },
        Instr::Branch { op, rs1, rs2, .. } => Instr::Branch {
            op,
            rs1,
            rs2,
            offset: value as i32,
        },
        Instr::Load { op, rd, rs1, .. } => Instr::Load {
            op,
            rd,
            rs1,
            imm: value as i32,
        },
        Instr::Store { op, rs1, rs2, .. } => Instr::Store {
            op,
            rs1,
            rs2,
            imm: value as i32,
        },
        Instr::OpImm { op, rd, rs1, .. } => Instr::OpImm {
            op,
            rd,
            rs1,
            imm: value as i32,
        },
        _ => instr,
    }
}
