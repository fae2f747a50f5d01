//! The ABI's names of registers, and the mnemonics.

ghost use Rattle.std.specs.Prelude.{◌≡◌, ◌<◌};
ghost use Rattle.rv_isa.specs.Names.{register_name as name_of_register, mnemonic_of, branch_name, load_name, store_name, imm_name, op_name};
ghost use Rattle.rv_isa.specs.Ranges.{IsReg};

use crate::instruction::{BranchOp, ImmOp, Instr, LoadOp, Reg, RegOp, StoreOp};

/// The ABI's name of a register; register 8 is `s0`.
pub fn register_name(r: Reg) -> &'static str
    requires { IsReg r }
    ensures { result.now ≡ name_of_register r }
{
    match r.0 {
        0 => "zero",
        1 => "ra",
        2 => "sp",
        3 => "gp",
        4 => "tp",
        5 => "t0",
        6 => "t1",
        7 => "t2",
        8 => "s0",
        9 => "s1",
        10 => "a0",
        11 => "a1",
        12 => "a2",
        13 => "a3",
        14 => "a4",
        15 => "a5",
        16 => "a6",
        17 => "a7",
        18 => "s2",
        19 => "s3",
        20 => "s4",
        21 => "s5",
        22 => "s6",
        23 => "s7",
        24 => "s8",
        25 => "s9",
        26 => "s10",
        27 => "s11",
        28 => "t3",
        29 => "t4",
        30 => "t5",
        _ => "t6",
    }
}

fn branch_mnemonic(op: BranchOp) -> &'static str
    ensures { result.now ≡ branch_name op }
{
    match op {
        BranchOp::Beq => "beq",
        BranchOp::Bne => "bne",
        BranchOp::Blt => "blt",
        BranchOp::Bge => "bge",
        BranchOp::Bltu => "bltu",
        BranchOp::Bgeu => "bgeu",
    }
}

fn load_mnemonic(op: LoadOp) -> &'static str
    ensures { result.now ≡ load_name op }
{
    match op {
        LoadOp::Lb => "lb",
        LoadOp::Lh => "lh",
        LoadOp::Lw => "lw",
        LoadOp::Lbu => "lbu",
        LoadOp::Lhu => "lhu",
    }
}

fn store_mnemonic(op: StoreOp) -> &'static str
    ensures { result.now ≡ store_name op }
{
    match op {
        StoreOp::Sb => "sb",
        StoreOp::Sh => "sh",
        StoreOp::Sw => "sw",
    }
}

fn imm_mnemonic(op: ImmOp) -> &'static str
    ensures { result.now ≡ imm_name op }
{
    match op {
        ImmOp::Addi => "addi",
        ImmOp::Slti => "slti",
        ImmOp::Sltiu => "sltiu",
        ImmOp::Xori => "xori",
        ImmOp::Ori => "ori",
        ImmOp::Andi => "andi",
        ImmOp::Slli => "slli",
        ImmOp::Srli => "srli",
        ImmOp::Srai => "srai",
    }
}

fn op_mnemonic(op: RegOp) -> &'static str
    ensures { result.now ≡ op_name op }
{
    match op {
        RegOp::Add => "add",
        RegOp::Sub => "sub",
        RegOp::Sll => "sll",
        RegOp::Slt => "slt",
        RegOp::Sltu => "sltu",
        RegOp::Xor => "xor",
        RegOp::Srl => "srl",
        RegOp::Sra => "sra",
        RegOp::Or => "or",
        RegOp::And => "and",
        RegOp::Mul => "mul",
        RegOp::Mulh => "mulh",
        RegOp::Mulhsu => "mulhsu",
        RegOp::Mulhu => "mulhu",
        RegOp::Div => "div",
        RegOp::Divu => "divu",
        RegOp::Rem => "rem",
        RegOp::Remu => "remu",
    }
}

/// The mnemonic of an instruction, in lower case.
pub fn mnemonic(i: Instr) -> &'static str
    ensures { result.now ≡ mnemonic_of i }
{
    match i {
        Instr::Lui { .. } => "lui",
        Instr::Auipc { .. } => "auipc",
        Instr::Jal { .. } => "jal",
        Instr::Jalr { .. } => "jalr",
        Instr::Branch { op, .. } => branch_mnemonic(op),
        Instr::Load { op, .. } => load_mnemonic(op),
        Instr::Store { op, .. } => store_mnemonic(op),
        Instr::OpImm { op, .. } => imm_mnemonic(op),
        Instr::Op { op, .. } => op_mnemonic(op),
        Instr::Fence { .. } => "fence",
        Instr::Ecall => "ecall",
        Instr::Ebreak => "ebreak",
    }
}
