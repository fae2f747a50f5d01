//! Lines, words, numbers and names as a user writes them.

use super::*;
use std::test::Fail;

#[test]
fn bytes_are_lines_and_lines_are_words(rt: HostRuntime) -> Result<(), Fail> {
    let lines: Vec<&[u8]> = Lines::new(b"a b\r\n\n #x\n\tc  d#e\r").collect(rt.alloc())?;
    assert_eq!(rt; lines.len(), 4);
    let words: Vec<&[u8]> = Words::new(lines[3]).collect(rt.alloc())?;
    assert_eq!(rt; words.len(), 2);
    assert!(rt; words[1] == b"d".as_slice());
    assert!(rt; is_plain(b"a~\t") && !is_plain(b"a\r") && !is_plain(b"a\x7f"));
    Ok(())
}

#[test]
fn words_are_numbers(rt: HostRuntime) -> Result<(), Fail> {
    assert!(rt; number_in(1, 8, b"0000000008") == Ok(8));
    assert!(rt; number_in(1, 8, b"9") == Err(NumberFault::Range));
    assert!(rt; number_in(1, 8, b"00000000008") == Err(NumberFault::Number));
    assert!(rt; number_in(0, 8, b"+1") == Err(NumberFault::Number));
    assert!(rt; word_value(b"4294967295") == Ok(u32::MAX));
    assert!(rt; word_value(b"4294967296") == Err(NumberFault::Range));
    assert!(rt; word_value(b"-2147483648") == Ok(0x8000_0000));
    assert!(rt; word_value(b"-2147483649") == Err(NumberFault::Range));
    assert!(rt; word_value(b"0xFFffFFff") == Ok(u32::MAX));
    assert!(rt; word_value(b"0x") == Err(NumberFault::Number));
    assert!(rt; word_value(b"0x123456789") == Err(NumberFault::Number));
    assert!(rt; capped_value(10, b"00000000000000000012") == 12);
    assert!(rt; capped_value(10, b"99999999999999999999999") == CAP);
    Ok(())
}

#[test]
fn words_are_names(rt: HostRuntime) -> Result<(), Fail> {
    assert!(rt; is_name(b"x") && is_name(b"_9") && is_name(b"sixteen_letters_"));
    assert!(rt;
        !is_name(b"") && !is_name(b"9a") && !is_name(b"a-b") && !is_name(b"seventeen_letters")
    );
    Ok(())
}
