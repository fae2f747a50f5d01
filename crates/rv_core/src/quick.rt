//! Instructions with one case for each operation, so that a step makes one choice: what each means is an instruction of
//! the table.

ghost use Rattle.std.specs.Prelude.{◌≡◌};
ghost use Rattle.rv_core.specs.Decoded.{meant};
ghost use Rattle.rv_isa.specs.declared.instruction.Instr.TheVariants as table;

use rv_isa::{BranchOp, ImmOp, Instr, LoadOp, Reg, RegOp, StoreOp};

/// An instruction, by its operation.
#[derive(Clone, Copy, PartialEq, Eq, Debug)]
pub(crate) enum Quick {
    Lui(Reg, u32),
    Auipc(Reg, u32),
    Jal(Reg, i32),
    Jalr(Reg, Reg, i32),
    Beq(Reg, Reg, i32),
    Bne(Reg, Reg, i32),
    Blt(Reg, Reg, i32),
    Bge(Reg, Reg, i32),
    Bltu(Reg, Reg, i32),
    Bgeu(Reg, Reg, i32),
    Lb(Reg, Reg, i32),
    Lh(Reg, Reg, i32),
    Lw(Reg, Reg, i32),
    Lbu(Reg, Reg, i32),
    Lhu(Reg, Reg, i32),
    Sb(Reg, Reg, i32),
    Sh(Reg, Reg, i32),
    Sw(Reg, Reg, i32),
    Addi(Reg, Reg, i32),
    Slti(Reg, Reg, i32),
    Sltiu(Reg, Reg, i32),
    Xori(Reg, Reg, i32),
    Ori(Reg, Reg, i32),
    Andi(Reg, Reg, i32),
    Slli(Reg, Reg, i32),
    Srli(Reg, Reg, i32),
    Srai(Reg, Reg, i32),
    Add(Reg, Reg, Reg),
    Sub(Reg, Reg, Reg),
    Sll(Reg, Reg, Reg),
    Slt(Reg, Reg, Reg),
    Sltu(Reg, Reg, Reg),
    Xor(Reg, Reg, Reg),
    Srl(Reg, Reg, Reg),
    Sra(Reg, Reg, Reg),
    Or(Reg, Reg, Reg),
    And(Reg, Reg, Reg),
    Mul(Reg, Reg, Reg),
    Mulh(Reg, Reg, Reg),
    Mulhsu(Reg, Reg, Reg),
    Mulhu(Reg, Reg, Reg),
    Div(Reg, Reg, Reg),
    Divu(Reg, Reg, Reg),
    Rem(Reg, Reg, Reg),
    Remu(Reg, Reg, Reg),
    Fence(Reg, Reg, u32),
    Ecall,
    Ebreak,
}

// A branch.
fn branch(op: BranchOp, a: Reg, b: Reg, offset: i32) -> Quick
    ensures { meant result ≡ table.Branch op a b offset }
{
    match op {
        BranchOp::Beq => Quick::Beq(a, b, offset),
        BranchOp::Bne => Quick::Bne(a, b, offset),
        BranchOp::Blt => Quick::Blt(a, b, offset),
        BranchOp::Bge => Quick::Bge(a, b, offset),
        BranchOp::Bltu => Quick::Bltu(a, b, offset),
        BranchOp::Bgeu => Quick::Bgeu(a, b, offset),
    }
}

// A load.
fn load(op: LoadOp, d: Reg, a: Reg, imm: i32) -> Quick
    ensures { meant result ≡ table.Load op d a imm }
{
    match op {
        LoadOp::Lb => Quick::Lb(d, a, imm),
        LoadOp::Lh => Quick::Lh(d, a, imm),
        LoadOp::Lw => Quick::Lw(d, a, imm),
        LoadOp::Lbu => Quick::Lbu(d, a, imm),
        LoadOp::Lhu => Quick::Lhu(d, a, imm),
    }
}

// A store.
fn store(op: StoreOp, a: Reg, b: Reg, imm: i32) -> Quick
    ensures { meant result ≡ table.Store op a b imm }
{
    match op {
        StoreOp::Sb => Quick::Sb(a, b, imm),
        StoreOp::Sh => Quick::Sh(a, b, imm),
        StoreOp::Sw => Quick::Sw(a, b, imm),
    }
}

// An operation on a register and an immediate.
fn immediate(op: ImmOp, d: Reg, a: Reg, imm: i32) -> Quick
    ensures { meant result ≡ table.OpImm op d a imm }
{
    match op {
        ImmOp::Addi => Quick::Addi(d, a, imm),
        ImmOp::Slti => Quick::Slti(d, a, imm),
        ImmOp::Sltiu => Quick::Sltiu(d, a, imm),
        ImmOp::Xori => Quick::Xori(d, a, imm),
        ImmOp::Ori => Quick::Ori(d, a, imm),
        ImmOp::Andi => Quick::Andi(d, a, imm),
        ImmOp::Slli => Quick::Slli(d, a, imm),
        ImmOp::Srli => Quick::Srli(d, a, imm),
        ImmOp::Srai => Quick::Srai(d, a, imm),
    }
}

// An operation on two registers.
fn operation(op: RegOp, d: Reg, a: Reg, b: Reg) -> Quick
    ensures { meant result ≡ table.Op op d a b }
{
    match op {
        RegOp::Add => Quick::Add(d, a, b),
        RegOp::Sub => Quick::Sub(d, a, b),
        RegOp::Sll => Quick::Sll(d, a, b),
        RegOp::Slt => Quick::Slt(d, a, b),
        RegOp::Sltu => Quick::Sltu(d, a, b),
        RegOp::Xor => Quick::Xor(d, a, b),
        RegOp::Srl => Quick::Srl(d, a, b),
        RegOp::Sra => Quick::Sra(d, a, b),
        RegOp::Or => Quick::Or(d, a, b),
        RegOp::And => Quick::And(d, a, b),
        RegOp::Mul => Quick::Mul(d, a, b),
        RegOp::Mulh => Quick::Mulh(d, a, b),
        RegOp::Mulhsu => Quick::Mulhsu(d, a, b),
        RegOp::Mulhu => Quick::Mulhu(d, a, b),
        RegOp::Div => Quick::Div(d, a, b),
        RegOp::Divu => Quick::Divu(d, a, b),
        RegOp::Rem => Quick::Rem(d, a, b),
        RegOp::Remu => Quick::Remu(d, a, b),
    }
}

/// The case of an instruction.
pub(crate) fn case_of(i: Instr) -> Quick
    ensures { meant result ≡ i }
{
    match i {
        Instr::Lui { rd, imm } => Quick::Lui(rd, imm),
        Instr::Auipc { rd, imm } => Quick::Auipc(rd, imm),
        Instr::Jal { rd, offset } => Quick::Jal(rd, offset),
        Instr::Jalr { rd, rs1, imm } => Quick::Jalr(rd, rs1, imm),
        Instr::Branch {
            op,
            rs1,
            rs2,
            offset,
        } => branch(op, rs1, rs2, offset),
        Instr::Load { op, rd, rs1, imm } => load(op, rd, rs1, imm),
        Instr::Store { op, rs1, rs2, imm } => store(op, rs1, rs2, imm),
        Instr::OpImm { op, rd, rs1, imm } => immediate(op, rd, rs1, imm),
        Instr::Op { op, rd, rs1, rs2 } => operation(op, rd, rs1, rs2),
        Instr::Fence { rd, rs1, bits } => Quick::Fence(rd, rs1, bits),
        Instr::Ecall => Quick::Ecall,
        Instr::Ebreak => Quick::Ebreak,
    }
}
