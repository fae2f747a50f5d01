//! Words far behind those that were written, the calls that are lost, and a device that keeps all of its words beside this
//! one.

use super::*;
use fram_dev::{Fram, Lost, MemFram};
use rand_core::utils::NextWord;
use rand_pcg::Lcg64Xsh32;
use std::test::Fail;

#[test]
fn a_word_far_behind_leaves_zeros_between(rt: HostRuntime) -> Result<(), Fail> {
    let mut device = BlankFram::zeros(rt.alloc(), 65_536, 3)?;
    assert_eq!(rt; device.len(), 65_536);
    assert!(rt; matches!(device.read(65_535), Ok(0)));
    assert!(rt; matches!(device.write(40_000, 7), Ok(())));
    assert!(rt; matches!(device.read(39_999), Ok(0)));
    assert!(rt; matches!(device.read(40_000), Ok(7)));
    assert!(rt; matches!(device.read(40_001), Ok(0)));
    assert!(rt; matches!(device.write(12, 8), Ok(())));
    assert!(rt; matches!(device.read(12), Ok(8)));
    assert!(rt; matches!(device.read(40_000), Ok(7)));
    assert!(rt; matches!(device.read(65_535), Ok(0)));
    Ok(())
}

#[test]
fn every_call_behind_the_last_write_is_lost(rt: HostRuntime) -> Result<(), Fail> {
    let mut device = BlankFram::zeros(rt.alloc(), 3, 1)?;
    assert!(rt; matches!(device.read(2), Ok(0)));
    assert_eq!(rt; device.losses(), 0);
    assert!(rt; matches!(device.write(2, 5), Ok(())));
    assert!(rt; device.write(0, 1).is_err());
    assert!(rt; device.read(2).is_err());
    assert_eq!(rt; device.losses(), 2);
    assert!(rt; device.into_words().as_slice() == [0, 0, 5].as_slice());
    let none = BlankFram::zeros(rt.alloc(), 0, 0)?;
    assert_eq!(rt; none.len(), 0);
    Ok(())
}

#[test]
fn given_words_are_read_and_written(rt: HostRuntime) -> Result<(), Fail> {
    let mut device = BlankFram::given(rt.alloc(), &[7, 8, 9], 2)?;
    assert_eq!(rt; device.len(), 3);
    assert!(rt; matches!(device.write(1, 5), Ok(())));
    assert!(rt; matches!(device.read(1), Ok(5)));
    assert!(rt; matches!(device.read(2), Ok(9)));
    assert!(rt; device.into_words().as_slice() == [7, 5, 9].as_slice());
    let mut zeros = BlankFram::zeros(rt.alloc(), 4, 2)?;
    assert!(rt; matches!(zeros.write(1, 5), Ok(())));
    assert!(rt; zeros.into_words().as_slice() == [0, 5, 0, 0].as_slice());
    Ok(())
}

// Whether two answers to a read are one.
fn is_same(answer: Result<u32, Lost>, other: Result<u32, Lost>) -> bool {
    match (answer, other) {
        (Ok(word), Ok(other)) => word == other,
        (Err(Lost), Err(Lost)) => true,
        _ => false,
    }
}

// Whether two devices answer a call alike: a write of a word, or a read.
fn answer_alike<A: Fram, B: Fram>(one: &mut A, other: &mut B, at: u32, word: Option<u32>) -> bool {
    if at >= one.len() || at >= other.len() {
        return false;
    }
    match word {
        Some(word) => one.write(at, word).is_ok() == other.write(at, word).is_ok(),
        None => is_same(one.read(at), other.read(at)),
    }
}

#[test]
fn it_answers_as_a_device_that_keeps_all_words(rt: HostRuntime) -> Result<(), Fail> {
    let mut device = BlankFram::zeros(rt.alloc(), 61, 150)?;
    let mut plain = MemFram::zeros(rt.alloc(), 61, 150)?;
    let mut numbers = Lcg64Xsh32::new(3, 0);
    for _ in 0..500 {
        let number = numbers.next_word();
        let word = if number % 3 == 0 {
            Some(numbers.next_word())
        } else {
            None
        };
        assert!(rt; answer_alike(&mut device, &mut plain, number / 3 % 61, word));
        assert_eq!(rt; device.losses(), plain.losses());
    }
    assert!(rt; 0 < device.losses());
    Ok(())
}
