// A program as text and as words, both ways. The words are those of the assembler of LLVM 14.

use super::*;
use std::test::Fail;

const TEXT: &str = "addi s0, a0, 0
addi a0, zero, 0
addi a1, zero, 512
addi a7, zero, 1
ecall
lw t0, 512(zero)
add t0, t0, s0
mul a0, a0, a1
sw t0, 512(zero)
bne t0, zero, -12
jal zero, 8
.word 0x00000000
fence
.word 0x0000000f
";

const WORDS: [u32; 14] = [
    0x00050413, 0x00000513, 0x20000593, 0x00100893, 0x00000073, 0x20002283, 0x008282b3, 0x02b50533,
    0x20502023, 0xfe029ae3, 0x0080006f, 0x00000000, 0x0ff0000f, 0x0000000f,
];

#[test]
fn program_is_disassembled_and_assembled_back(rt: HostRuntime) -> Result<(), Fail> {
    let lines = disassemble(rt.alloc(), &WORDS)?;
    let text = lines.as_str();
    assert_eq!(rt; text, TEXT);
    if text.len() > 0x1_0000 {
        return Err("a long text")?;
    }
    let words = assemble(rt.alloc(), text).ok().ok_or("it is assembled")?;
    assert!(rt; words.as_slice() == WORDS.as_slice());
    Ok(())
}
