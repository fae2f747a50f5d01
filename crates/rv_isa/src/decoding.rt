//! `decode`: from words to instructions.

ghost use Rattle.std.specs.Prelude.{◌≡◌, ◌%◌, ◌↔◌, Some, None, IsNone, IfSome};
ghost use Rattle.rv_isa.specs.Formats.{opcode, funct3, i_immediate, s_immediate, b_immediate, j_immediate};
ghost use Rattle.rv_isa.specs.Ranges.{IsInstr};
ghost use Rattle.rv_isa.specs.Table.{instruction_of, HasNoRow};

use crate::fields::{field, register};
use crate::instruction::{BranchOp, ImmOp, Instr, LoadOp, RegOp, StoreOp};

fn i_offset(word: u32) -> i32
    ensures { result ≡ i_immediate word }
{
    word.cast_signed() >> 20
}

fn s_offset(word: u32) -> i32
    ensures { result ≡ s_immediate word }
{
    (word.cast_signed() >> 25) * 32 + field(word, 7, 5) as i32
}

fn b_offset(word: u32) -> i32
    ensures { result ≡ b_immediate word }
{
    let low = (field(word, 7, 1) << 11) + (field(word, 25, 6) << 5) + (field(word, 8, 4) << 1);
    (word.cast_signed() >> 31) * 4096 + low as i32
}

fn j_offset(word: u32) -> i32
    ensures { result ≡ j_immediate word }
{
    let low = (field(word, 12, 8) << 12) + (field(word, 20, 1) << 11) + (field(word, 21, 10) << 1);
    (word.cast_signed() >> 31) * 1048576 + low as i32
}

#[tactic(auto, unfolding(crate::specs::Table::instruction_of))]
fn decode_shift(word: u32) -> Option<Instr>
    requires op { opcode word ≡ 0b0010011 }
    requires low { funct3 word % 4 ≡ 0b001 }
    ensures { result ≡ instruction_of word }
{
    let op = match (field(word, 12, 3), field(word, 25, 7)) {
        (0b001, 0b0000000) => ImmOp::Slli,
        (0b101, 0b0000000) => ImmOp::Srli,
        (0b101, 0b0100000) => ImmOp::Srai,
        _ => return None,
    };
    Some(Instr::OpImm {
        op,
        rd: register(word, 7),
        rs1: register(word, 15),
        imm: field(word, 20, 5) as i32,
    })
}

#[tactic(auto, unfolding(crate::specs::Table::instruction_of))]
fn decode_op_imm(word: u32) -> Option<Instr>
    requires { opcode word ≡ 0b0010011 }
    ensures { result ≡ instruction_of word }
{
    let op = match field(word, 12, 3) {
        0b000 => ImmOp::Addi,
        0b010 => ImmOp::Slti,
        0b011 => ImmOp::Sltiu,
        0b100 => ImmOp::Xori,
        0b110 => ImmOp::Ori,
        0b111 => ImmOp::Andi,
        _ => return decode_shift(word),
    };
    Some(Instr::OpImm {
        op,
        rd: register(word, 7),
        rs1: register(word, 15),
        imm: i_offset(word),
    })
}

#[tactic(auto, unfolding(crate::specs::Table::instruction_of))]
fn decode_branch(word: u32) -> Option<Instr>
    requires { opcode word ≡ 0b1100011 }
    ensures { result ≡ instruction_of word }
{
    let op = match field(word, 12, 3) {
        0b000 => BranchOp::Beq,
        0b001 => BranchOp::Bne,
        0b100 => BranchOp::Blt,
        0b101 => BranchOp::Bge,
        0b110 => BranchOp::Bltu,
        0b111 => BranchOp::Bgeu,
        _ => return None,
    };
    Some(Instr::Branch {
        op,
        rs1: register(word, 15),
        rs2: register(word, 20),
        offset: b_offset(word),
    })
}

#[tactic(auto, unfolding(crate::specs::Table::instruction_of))]
fn decode_load(word: u32) -> Option<Instr>
    requires { opcode word ≡ 0b0000011 }
    ensures { result ≡ instruction_of word }
{
    let op = match field(word, 12, 3) {
        0b000 => LoadOp::Lb,
        0b001 => LoadOp::Lh,
        0b010 => LoadOp::Lw,
        0b100 => LoadOp::Lbu,
        0b101 => LoadOp::Lhu,
        _ => return None,
    };
    Some(Instr::Load {
        op,
        rd: register(word, 7),
        rs1: register(word, 15),
        imm: i_offset(word),
    })
}

#[tactic(auto, unfolding(crate::specs::Table::instruction_of))]
fn decode_store(word: u32) -> Option<Instr>
    requires { opcode word ≡ 0b0100011 }
    ensures { result ≡ instruction_of word }
{
    let op = match field(word, 12, 3) {
        0b000 => StoreOp::Sb,
        0b001 => StoreOp::Sh,
        0b010 => StoreOp::Sw,
        _ => return None,
    };
    Some(Instr::Store {
        op,
        rs1: register(word, 15),
        rs2: register(word, 20),
        imm: s_offset(word),
    })
}

#[tactic(auto, unfolding(crate::specs::Table::instruction_of))]
fn decode_op(word: u32) -> Option<Instr>
    requires { opcode word ≡ 0b0110011 }
    ensures { result ≡ instruction_of word }
{
    let op = match (field(word, 12, 3), field(word, 25, 7)) {
        (0b000, 0b0000000) => RegOp::Add,
        (0b000, 0b0100000) => RegOp::Sub,
        (0b001, 0b0000000) => RegOp::Sll,
        (0b010, 0b0000000) => RegOp::Slt,
        (0b011, 0b0000000) => RegOp::Sltu,
        (0b100, 0b0000000) => RegOp::Xor,
        (0b101, 0b0000000) => RegOp::Srl,
        (0b101, 0b0100000) => RegOp::Sra,
        (0b110, 0b0000000) => RegOp::Or,
        (0b111, 0b0000000) => RegOp::And,
        (0b000, 0b0000001) => RegOp::Mul,
        (0b001, 0b0000001) => RegOp::Mulh,
        (0b010, 0b0000001) => RegOp::Mulhsu,
        (0b011, 0b0000001) => RegOp::Mulhu,
        (0b100, 0b0000001) => RegOp::Div,
        (0b101, 0b0000001) => RegOp::Divu,
        (0b110, 0b0000001) => RegOp::Rem,
        (0b111, 0b0000001) => RegOp::Remu,
        _ => return None,
    };
    Some(Instr::Op {
        op,
        rd: register(word, 7),
        rs1: register(word, 15),
        rs2: register(word, 20),
    })
}

/// The instruction of a word by the table of RV32IM; `None` exactly where no row of the table has the word.
pub fn decode(word: u32) -> Option<Instr>
    ensures table { result ≡ instruction_of word }
    ensures none { IsNone result ↔ HasNoRow word }
    ensures ranges { IfSome result IsInstr }
{
    read(word)
}

#[tactic(auto, unfolding(crate::specs::Table::instruction_of))]
fn read(word: u32) -> Option<Instr>
    ensures { result ≡ instruction_of word }
{
    match field(word, 0, 7) {
        0b0110111 => Some(Instr::Lui {
            rd: register(word, 7),
            imm: field(word, 12, 20),
        }),
        0b0010111 => Some(Instr::Auipc {
            rd: register(word, 7),
            imm: field(word, 12, 20),
        }),
        0b1101111 => Some(Instr::Jal {
            rd: register(word, 7),
            offset: j_offset(word),
        }),
        0b1100111 if field(word, 12, 3) == 0 => Some(Instr::Jalr {
            rd: register(word, 7),
            rs1: register(word, 15),
            imm: i_offset(word),
        }),
        0b1100011 => decode_branch(word),
        0b0000011 => decode_load(word),
        0b0100011 => decode_store(word),
        0b0010011 => decode_op_imm(word),
        0b0110011 => decode_op(word),
        0b0001111 if field(word, 12, 3) == 0 => Some(Instr::Fence {
            rd: register(word, 7),
            rs1: register(word, 15),
            bits: field(word, 20, 12),
        }),
        0b1110011 if word == 0x00000073 => Some(Instr::Ecall),
        0b1110011 if word == 0x00100073 => Some(Instr::Ebreak),
        _ => None,
    }
}
