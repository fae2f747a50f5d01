//! Instructions and their parts: registers, operations, immediates.

/// One of the 32 registers, by its number. Register 0 reads as zero, and a write to it is dropped.
#[derive(Clone, Copy, PartialEq, Eq, Debug)]
pub struct Reg(pub u8);

/// The comparison of a conditional branch: equal, not equal, less, not less, and the last two unsigned.
#[derive(Clone, Copy, PartialEq, Eq, Debug)]
pub enum BranchOp {
    Beq,
    Bne,
    Blt,
    Bge,
    Bltu,
    Bgeu,
}

/// What a load reads: a byte or a half word with its sign, a word, a byte or a half word without sign.
#[derive(Clone, Copy, PartialEq, Eq, Debug)]
pub enum LoadOp {
    Lb,
    Lh,
    Lw,
    Lbu,
    Lhu,
}

/// What a store writes: the low byte, the low half word or the whole word of a register.
#[derive(Clone, Copy, PartialEq, Eq, Debug)]
pub enum StoreOp {
    Sb,
    Sh,
    Sw,
}

/// An operation on a register and an immediate.
#[derive(Clone, Copy, PartialEq, Eq, Debug)]
pub enum ImmOp {
    Addi,
    Slti,
    Sltiu,
    Xori,
    Ori,
    Andi,
    Slli,
    Srli,
    Srai,
}

/// An operation on two registers; the last eight multiply and divide, of extension M.
#[derive(Clone, Copy, PartialEq, Eq, Debug)]
pub enum RegOp {
    Add,
    Sub,
    Sll,
    Slt,
    Sltu,
    Xor,
    Srl,
    Sra,
    Or,
    And,
    Mul,
    Mulh,
    Mulhsu,
    Mulhu,
    Div,
    Divu,
    Rem,
    Remu,
}

/// An instruction of RV32IM, with its fields as numbers (the RISC-V unprivileged ISA manual, chapter 2 and
/// the chapter on extension M).
///
/// `imm` is a signed number of 12 bits, but for LUI and AUIPC the upper 20 bits as they stand, and for
/// a shift the amount, below 32. `offset` is an even number of bytes, of 13 bits for a branch and of
/// 21 bits for JAL. `bits` are the upper 12 bits of a FENCE, which has no other effect here.
#[derive(Clone, Copy, PartialEq, Eq, Debug)]
pub enum Instr {
    Lui {
        rd: Reg,
        imm: u32,
    },
    Auipc {
        rd: Reg,
        imm: u32,
    },
    Jal {
        rd: Reg,
        offset: i32,
    },
    Jalr {
        rd: Reg,
        rs1: Reg,
        imm: i32,
    },
    Branch {
        op: BranchOp,
        rs1: Reg,
        rs2: Reg,
        offset: i32,
    },
    Load {
        op: LoadOp,
        rd: Reg,
        rs1: Reg,
        imm: i32,
    },
    Store {
        op: StoreOp,
        rs1: Reg,
        rs2: Reg,
        imm: i32,
    },
    OpImm {
        op: ImmOp,
        rd: Reg,
        rs1: Reg,
        imm: i32,
    },
    Op {
        op: RegOp,
        rd: Reg,
        rs1: Reg,
        rs2: Reg,
    },
    Fence {
        rd: Reg,
        rs1: Reg,
        bits: u32,
    },
    Ecall,
    Ebreak,
}
