// Texts and words as the assembler of LLVM 14 pairs them; the texts were written by hand, each
// instruction at least once.

use super::*;
use std::test::Fail;

const TEXTS: [(&str, u32); 54] = [
    ("lui t0, 74565", 0x123452b7),
    ("auipc a5, 1048575", 0xfffff797),
    ("jal ra, 2048", 0x001000ef),
    ("jal zero, -1048576", 0x8000006f),
    ("jalr ra, -4(sp)", 0xffc100e7),
    ("jalr zero, 9(zero)", 0x00900067),
    ("jalr zero, 11(zero)", 0x00b00067),
    ("beq gp, tp, 4094", 0x7e418fe3),
    ("beq zero, zero, 2", 0x00000163),
    ("bne zero, zero, 2", 0x00001163),
    ("blt t1, t2, -4096", 0x80734063),
    ("bge s1, a0, -2", 0xfea4dfe3),
    ("bltu s2, s3, 16", 0x01396863),
    ("bgeu s4, s5, 0", 0x015a7063),
    ("lb a5, -2048(a6)", 0x80080783),
    ("lh s6, 2047(s7)", 0x7ffb9b03),
    ("lw s8, 512(zero)", 0x20002c03),
    ("lbu s9, 0(s10)", 0x000d4c83),
    ("lhu s11, -1(t3)", 0xfffe5d83),
    ("sb s9, -2048(s10)", 0x819d0023),
    ("sh t4, 31(t5)", 0x01df1fa3),
    ("sw t4, 33(t5)", 0x03df20a3),
    ("addi ra, sp, -1", 0xfff10093),
    ("addi zero, zero, 5", 0x00500013),
    ("slti t6, s0, 2047", 0x7ff42f93),
    ("sltiu t0, zero, -1", 0xfff03293),
    ("xori a1, a2, -2048", 0x80064593),
    ("ori a3, a4, 0", 0x00076693),
    ("andi a7, tp, 1", 0x00127893),
    ("slli s0, s1, 31", 0x01f49413),
    ("srli a0, a1, 0", 0x0005d513),
    ("srai a7, s2, 16", 0x41095893),
    ("add t0, t1, t2", 0x007302b3),
    ("sub s6, s7, s8", 0x418b8b33),
    ("sll ra, sp, gp", 0x003110b3),
    ("slt tp, t0, t1", 0x0062a233),
    ("sltu t2, s0, s1", 0x009433b3),
    ("xor a0, a1, a2", 0x00c5c533),
    ("srl a3, a4, a5", 0x00f756b3),
    ("sra s1, a0, a1", 0x40b554b3),
    ("or a6, a7, s2", 0x0128e833),
    ("and s3, s4, s5", 0x015a79b3),
    ("mul a0, a0, a1", 0x02b50533),
    ("mul t0, t1, t2", 0x027302b3),
    ("mulh s3, s4, s5", 0x035a19b3),
    ("mulhsu s6, s7, s8", 0x038bab33),
    ("mulhu a0, a1, a2", 0x02c5b533),
    ("div a3, a4, a5", 0x02f746b3),
    ("divu ra, sp, gp", 0x023150b3),
    ("rem t3, t4, t5", 0x03eeee33),
    ("remu t6, s10, s11", 0x03bd7fb3),
    ("fence", 0x0ff0000f),
    ("ecall", 0x00000073),
    ("ebreak", 0x00100073),
];

// FENCEs of other fields, a shift by an amount that has bit 25, an operation of no funct7, and words of no row
const RAW_WORDS: [(&str, u32); 7] = [
    (".word 0x0000000f", 0x0000000f),
    (".word 0x0ff0008f", 0x0ff0008f),
    (".word 0x02001013", 0x02001013),
    (".word 0x04b50533", 0x04b50533),
    (".word 0x00000000", 0x00000000),
    (".word 0xabcdef12", 0xabcdef12),
    (".word 0x90045678", 0x90045678),
];

#[test]
fn words_are_written(rt: HostRuntime) -> Result<(), Fail> {
    for (line, word) in TEXTS {
        assert_eq!(rt; text(rt.alloc(), word)?.as_str(), line);
    }
    for (line, word) in RAW_WORDS {
        assert_eq!(rt; text(rt.alloc(), word)?.as_str(), line);
    }
    Ok(())
}

#[test]
fn text_goes_behind_what_is_there(rt: HostRuntime) -> Result<(), Fail> {
    let mut lines = String::new(rt.alloc());
    lines.push_str("# ")?;
    push_text(&mut lines, 0x80000537)?;
    lines.push_str("; ")?;
    push_text(&mut lines, 0x80050513)?;
    assert_eq!(rt; lines.as_str(), "# lui a0, 524288; addi a0, a0, -2048");
    Ok(())
}

#[test]
fn names_and_operands_are_told(rt: HostRuntime) {
    let load = Instr::Load {
        op: LoadOp::Lhu,
        rd: Reg(8),
        rs1: Reg(31),
        imm: 0,
    };
    assert_eq!(rt; mnemonic(load), "lhu");
    assert!(rt; operands(load) == [Operand::Rd, Operand::Memory].as_slice());
    assert_eq!(rt; register_name(Reg(8)), "s0");
    assert_eq!(rt; register_name(Reg(31)), "t6");
}
