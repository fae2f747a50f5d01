//! Texts with their words, and faulty texts with their lines and causes. The words are those of LLVM's assembler for
//! the same instructions, and else worked out from the instruction formats. `tables/assembly.txt` has many more, which the
//! program answers.

use super::*;
use std::alloc::Global;
use std::test::Fail;

/// Texts and their words.
const TEXTS: [(&str, &[u32]); 13] = [
    ("", &[]),
    ("# nop\n \t\n", &[]),
    ("nop\r\nnop\r\n", &[0x0000_0013, 0x0000_0013]),
    ("jal ra, -1048576", &[0x8000_00ef]),
    ("bne t0, t1, 4094", &[0x7e62_9fe3]),
    ("sw t4, 33(t5)", &[0x03df_20a3]),
    ("srai x15, x16, 16", &[0x4108_5793]),
    ("remu t6, s10, s11", &[0x03bd_7fb3]),
    (".word -2147483648", &[0x8000_0000]),
    ("li a0, 2048", &[0x0000_1537, 0x8005_0513]),
    ("back: nop\nbeq t0, t1, back\n", &[0x0000_0013, 0xfe62_8ee3]),
    (
        "j end\nli a0, 0x12345678\nend:\n",
        &[0x00c0_006f, 0x1234_5537, 0x6785_0513],
    ),
    ("\tadd\tt0 ,t1,\tt2 # sum\n", &[0x0073_02b3]),
];

/// Faulty texts, with the first faulty line and its cause.
const FAULTS: [(&str, u32, AsmCause); 8] = [
    ("nop\nADD t0, t1, t2", 2, AsmCause::Mnemonic),
    ("add t0, t1", 1, AsmCause::Operand),
    ("lw t0, 512(zero", 1, AsmCause::Operand),
    ("nop\nbeq t0, t1, b\na:", 2, AsmCause::Label),
    ("addi t0, t1, 2048", 1, AsmCause::Range),
    ("li a0, 4294967296", 1, AsmCause::Range),
    ("a: nop\nb:\na:", 3, AsmCause::Twice),
    ("add t0\nwhat", 1, AsmCause::Operand),
];

fn refusal_of(alloc: Global, text: &str) -> Result<Option<AsmError>, Fail> {
    if text.len() > 0x1_0000 {
        return Err("a long text")?;
    }
    match assemble(alloc, text) {
        Ok(_) => Ok(None),
        Err(AsmRefusal::At(error)) => Ok(Some(error)),
        Err(AsmRefusal::NoMemory) => Err("no memory")?,
    }
}

fn words_of(alloc: Global, text: &str) -> Result<Vec<u32>, Fail> {
    if text.len() > 0x1_0000 {
        return Err("a long text")?;
    }
    Ok(assemble(alloc, text).ok().ok_or("it is assembled")?)
}

#[test]
fn texts_have_their_words(rt: HostRuntime) -> Result<(), Fail> {
    for (text, words) in TEXTS {
        assert!(rt; words_of(rt.alloc(), text)?.as_slice() == words, "{text}");
    }
    let lines: [&[u8]; 3] = [b"j end", b"", b"end: nop"];
    let words = assemble_lines(rt.alloc(), &lines)
        .ok()
        .ok_or("it is assembled")?;
    assert!(rt; words.as_slice() == [0x0040_006f, 0x0000_0013].as_slice());
    Ok(())
}

#[test]
fn faults_are_told_at_their_lines(rt: HostRuntime) -> Result<(), Fail> {
    for (text, line, cause) in FAULTS {
        let expected = Some(AsmError { line, cause });
        assert_eq!(rt; refusal_of(rt.alloc(), text)?, expected, "{text}");
    }
    assert_eq!(rt; AsmCause::Mnemonic.number(), 1);
    assert_eq!(rt; AsmCause::TooLong.number(), 6);
    Ok(())
}
