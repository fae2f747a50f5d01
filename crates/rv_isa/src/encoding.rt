//! `encode`: from instructions to words.

ghost use Rattle.std.specs.Prelude.{◌≡◌, ◌≤◌, ◌<◌, ◌+◌, ◌*◌, ◌^◌, ℕ, Some};
ghost use Rattle.rv_isa.specs.Fields.{unsigned, IsSigned};
ghost use Rattle.rv_isa.specs.Ranges.{IsInstr, IsReg, IsImmediate};
ghost use Rattle.rv_isa.specs.Table.{instruction_of};
ghost use Rattle.rv_isa.specs.Words.{branch_funct3, imm_funct3, load_funct3, store_funct3, op_funct3, op_funct7, u_word, s_word, imm_bits, i_word, b_word, j_word, instruction_word};

use crate::fields::{field, low_bits};
use crate::instruction::{BranchOp, ImmOp, Instr, LoadOp, Reg, RegOp, StoreOp};

fn number(r: Reg) -> u32
    ensures { result ≡ r.0 }
{
    r.0 as u32
}

fn i_format(opcode: u32, rd: Reg, funct3: u32, rs1: Reg, imm: u32) -> u32
    requires opcode { opcode < 128 }
    requires rd { IsReg rd }
    requires funct3 { funct3 < 8 }
    requires rs1 { IsReg rs1 }
    requires imm { imm < 4096 }
    ensures { result ≡ i_word opcode rd.0 funct3 rs1.0 imm }
{
    opcode + (number(rd) << 7) + (funct3 << 12) + (number(rs1) << 15) + (imm << 20)
}

fn u_format(opcode: u32, rd: Reg, imm: u32) -> u32
    requires opcode { opcode < 128 }
    requires rd { IsReg rd }
    requires imm { imm < 2 ^ 20 }
    ensures { result ≡ u_word opcode rd.0 imm }
{
    opcode + (number(rd) << 7) + (imm << 12)
}

fn s_format(opcode: u32, funct3: u32, rs1: Reg, rs2: Reg, imm: u32) -> u32
    requires opcode { opcode < 128 }
    requires funct3 { funct3 < 8 }
    requires rs1 { IsReg rs1 }
    requires rs2 { IsReg rs2 }
    ensures { result ≡ s_word opcode funct3 rs1.0 rs2.0 imm }
{
    let low = opcode + (field(imm, 0, 5) << 7) + (funct3 << 12);
    low + (number(rs1) << 15) + (number(rs2) << 20) + (field(imm, 5, 7) << 25)
}

fn b_format(opcode: u32, funct3: u32, rs1: Reg, rs2: Reg, offset: u32) -> u32
    requires opcode { opcode < 128 }
    requires funct3 { funct3 < 8 }
    requires rs1 { IsReg rs1 }
    requires rs2 { IsReg rs2 }
    ensures { result ≡ b_word opcode funct3 rs1.0 rs2.0 offset }
{
    let low = (field(offset, 11, 1) << 7) + (field(offset, 1, 4) << 8);
    let high = (field(offset, 5, 6) << 25) + (field(offset, 12, 1) << 31);
    opcode + low + (funct3 << 12) + (number(rs1) << 15) + (number(rs2) << 20) + high
}

fn j_format(opcode: u32, rd: Reg, offset: u32) -> u32
    requires opcode { opcode < 128 }
    requires rd { IsReg rd }
    ensures { result ≡ j_word opcode rd.0 offset }
{
    let low = (field(offset, 12, 8) << 12) + (field(offset, 11, 1) << 20);
    let high = (field(offset, 1, 10) << 21) + (field(offset, 20, 1) << 31);
    opcode + (number(rd) << 7) + low + high
}

fn funct3_of_branch(op: BranchOp) -> u32
    ensures value { result ≡ branch_funct3 op }
    ensures fits { result < 8 }
{
    match op {
        BranchOp::Beq => 0b000,
        BranchOp::Bne => 0b001,
        BranchOp::Blt => 0b100,
        BranchOp::Bge => 0b101,
        BranchOp::Bltu => 0b110,
        BranchOp::Bgeu => 0b111,
    }
}

fn funct3_of_imm(op: ImmOp) -> u32
    ensures value { result ≡ imm_funct3 op }
    ensures fits { result < 8 }
{
    match op {
        ImmOp::Addi => 0b000,
        ImmOp::Slti => 0b010,
        ImmOp::Sltiu => 0b011,
        ImmOp::Xori => 0b100,
        ImmOp::Ori => 0b110,
        ImmOp::Andi => 0b111,
        ImmOp::Slli => 0b001,
        ImmOp::Srli | ImmOp::Srai => 0b101,
    }
}

fn funct3_of_load(op: LoadOp) -> u32
    ensures value { result ≡ load_funct3 op }
    ensures fits { result < 8 }
{
    match op {
        LoadOp::Lb => 0b000,
        LoadOp::Lh => 0b001,
        LoadOp::Lw => 0b010,
        LoadOp::Lbu => 0b100,
        LoadOp::Lhu => 0b101,
    }
}

fn funct3_of_store(op: StoreOp) -> u32
    ensures value { result ≡ store_funct3 op }
    ensures fits { result < 8 }
{
    match op {
        StoreOp::Sb => 0b000,
        StoreOp::Sh => 0b001,
        StoreOp::Sw => 0b010,
    }
}

fn funct3_of_op(op: RegOp) -> u32
    ensures value { result ≡ op_funct3 op }
    ensures fits { result < 8 }
{
    match op {
        RegOp::Add | RegOp::Sub | RegOp::Mul => 0b000,
        RegOp::Sll | RegOp::Mulh => 0b001,
        RegOp::Slt | RegOp::Mulhsu => 0b010,
        RegOp::Sltu | RegOp::Mulhu => 0b011,
        RegOp::Xor | RegOp::Div => 0b100,
        RegOp::Srl | RegOp::Sra | RegOp::Divu => 0b101,
        RegOp::Or | RegOp::Rem => 0b110,
        RegOp::And | RegOp::Remu => 0b111,
    }
}

fn funct7_of_op(op: RegOp) -> u32
    ensures value { result ≡ op_funct7 op }
    ensures fits { result < 64 }
{
    match op {
        RegOp::Sub | RegOp::Sra => 0b0100000,
        RegOp::Mul | RegOp::Mulh | RegOp::Mulhsu | RegOp::Mulhu => 0b0000001,
        RegOp::Div | RegOp::Divu | RegOp::Rem | RegOp::Remu => 0b0000001,
        _ => 0b0000000,
    }
}

fn bits_of_imm(op: ImmOp, imm: i32) -> u32
    requires { IsImmediate op imm }
    ensures value { result ≡ imm_bits op imm }
    ensures fits { result < 4096 }
{
    match op {
        ImmOp::Srai => (0b0100000 << 5) + low_bits(imm, 12),
        _ => low_bits(imm, 12),
    }
}

/// The word of an instruction: the table has this instruction for it, and for no other word.
pub fn encode(i: Instr) -> u32
    requires { IsInstr i }
    ensures word { result ≡ instruction_word i }
    ensures again { instruction_of result ≡ Some i }
    ensures only { (word : ℕ) → word < 2 ^ 32 → instruction_of word ≡ Some i → result ≡ word }
{
    word(i)
}

fn word(i: Instr) -> u32
    requires { IsInstr i }
    ensures { result ≡ instruction_word i }
{
    match i {
        Instr::Lui { rd, imm } => u_format(0b0110111, rd, imm),
        Instr::Auipc { rd, imm } => u_format(0b0010111, rd, imm),
        Instr::Jal { rd, offset } => j_format(0b1101111, rd, low_bits(offset, 21)),
        Instr::Jalr { rd, rs1, imm } => i_format(0b1100111, rd, 0, rs1, low_bits(imm, 12)),
        Instr::Branch {
            op,
            rs1,
            rs2,
            offset,
        } => b_format(
            0b1100011,
            funct3_of_branch(op),
            rs1,
            rs2,
            low_bits(offset, 13),
        ),
        Instr::Load { op, rd, rs1, imm } => {
            i_format(0b0000011, rd, funct3_of_load(op), rs1, low_bits(imm, 12))
        }
        Instr::Store { op, rs1, rs2, imm } => {
            s_format(0b0100011, funct3_of_store(op), rs1, rs2, low_bits(imm, 12))
        }
        Instr::OpImm { op, rd, rs1, imm } => {
            i_format(0b0010011, rd, funct3_of_imm(op), rs1, bits_of_imm(op, imm))
        }
        Instr::Op { op, rd, rs1, rs2 } => {
            let high = (funct7_of_op(op) << 5) + number(rs2);
            i_format(0b0110011, rd, funct3_of_op(op), rs1, high)
        }
        Instr::Fence { rd, rs1, bits } => i_format(0b0001111, rd, 0, rs1, bits),
        Instr::Ecall => 0x00000073,
        Instr::Ebreak => 0x00100073,
    }
}
