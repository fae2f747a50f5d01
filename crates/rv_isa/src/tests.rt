// Words and instructions as the assembler of LLVM 14 pairs them.

use super::*;

const VECTORS: [(u32, Instr); 18] = [
    (
        0x123452b7,
        Instr::Lui {
            rd: Reg(5),
            imm: 0x12345,
        },
    ),
    (
        0x001000ef,
        Instr::Jal {
            rd: Reg(1),
            offset: 2048,
        },
    ),
    (
        0x8000006f,
        Instr::Jal {
            rd: Reg(0),
            offset: -1048576,
        },
    ),
    (
        0xffc100e7,
        Instr::Jalr {
            rd: Reg(1),
            rs1: Reg(2),
            imm: -4,
        },
    ),
    (
        0x7e418fe3,
        Instr::Branch {
            op: BranchOp::Beq,
            rs1: Reg(3),
            rs2: Reg(4),
            offset: 4094,
        },
    ),
    (
        0xfea4dfe3,
        Instr::Branch {
            op: BranchOp::Bge,
            rs1: Reg(9),
            rs2: Reg(10),
            offset: -2,
        },
    ),
    (
        0x80080783,
        Instr::Load {
            op: LoadOp::Lb,
            rd: Reg(15),
            rs1: Reg(16),
            imm: -2048,
        },
    ),
    (
        0x819d0023,
        Instr::Store {
            op: StoreOp::Sb,
            rs1: Reg(26),
            rs2: Reg(25),
            imm: -2048,
        },
    ),
    (
        0x03df20a3,
        Instr::Store {
            op: StoreOp::Sw,
            rs1: Reg(30),
            rs2: Reg(29),
            imm: 33,
        },
    ),
    (
        0xfff10093,
        Instr::OpImm {
            op: ImmOp::Addi,
            rd: Reg(1),
            rs1: Reg(2),
            imm: -1,
        },
    ),
    (
        0x41095893,
        Instr::OpImm {
            op: ImmOp::Srai,
            rd: Reg(17),
            rs1: Reg(18),
            imm: 16,
        },
    ),
    (
        0x418b8b33,
        Instr::Op {
            op: RegOp::Sub,
            rd: Reg(22),
            rs1: Reg(23),
            rs2: Reg(24),
        },
    ),
    (
        0x40b554b3,
        Instr::Op {
            op: RegOp::Sra,
            rd: Reg(9),
            rs1: Reg(10),
            rs2: Reg(11),
        },
    ),
    (
        0x02b50533,
        Instr::Op {
            op: RegOp::Mul,
            rd: Reg(10),
            rs1: Reg(10),
            rs2: Reg(11),
        },
    ),
    (
        0x038bab33,
        Instr::Op {
            op: RegOp::Mulhsu,
            rd: Reg(22),
            rs1: Reg(23),
            rs2: Reg(24),
        },
    ),
    (
        0x0ff0000f,
        Instr::Fence {
            rd: Reg(0),
            rs1: Reg(0),
            bits: 0x0ff,
        },
    ),
    (0x00000073, Instr::Ecall),
    (0x00100073, Instr::Ebreak),
];

#[test]
fn words_and_instructions_agree(rt: HostRuntime) {
    for (word, instruction) in VECTORS {
        let Some(read) = decode(word) else {
            panic!(rt; "no instruction: {word}");
        };
        assert!(rt; read == instruction, "another instruction: {word}");
        assert_eq!(rt; encode(read), word);
    }
    assert!(rt; decode(0).is_none());
}
