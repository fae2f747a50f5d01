//! Numbers of a line, and what they are held against.

ghost use Rattle.std.specs.Prelude.{◌≡◌, ◌≤◌, ◌^◌, option_map, pos, IsTrue, IfSome};
ghost use Rattle.rv_isa.specs.Fields.{unsigned};
ghost use Rattle.rv_asm.specs.Numbers.{is_even as even, is_within as within, is_word as word, minus, number_of as number, numeral as numeral_in};

use plain_text::{capped_value, is_numeral};

fn numeral(radix: u8, digits: &[u8]) -> Option<u64>
    requires low { 1 ≤ radix }
    requires high { radix ≤ 16 }
    ensures value { result ≡ numeral_in radix digits.now }
    ensures small { IfSome result (λ n. n ≤ 2 ^ 33) }
{
    if is_numeral(radix, digits.len(), digits) {
        Some(capped_value(radix, digits))
    } else {
        None
    }
}

fn positive(number: Option<u64>) -> Option<i64>
    requires { IfSome number (λ n. n ≤ 2 ^ 33) }
    ensures { result ≡ option_map pos number }
{
    match number {
        Some(size) => Some(size as i64),
        None => None,
    }
}

fn negative(number: Option<u64>) -> Option<i64>
    requires { IfSome number (λ n. n ≤ 2 ^ 33) }
    ensures { result ≡ option_map minus number }
{
    match number {
        Some(size) => Some(-(size as i64)),
        None => None,
    }
}

/// The number that a word writes: decimal digits, behind a `-` or not, or hexadecimal digits behind `0x`. Any number
/// of digits is read; a size of 2^33 or more is read as 2^33, which is out of each range.
pub fn number_of(word: &[u8]) -> Option<i64>
    ensures { result ≡ number word.now }
{
    match word {
        [b'-', digits @ ..] => negative(numeral(10, digits)),
        [b'0', b'x', digits @ ..] => positive(numeral(16, digits)),
        _ => positive(numeral(10, word)),
    }
}

/// Whether a number is from minus `below` to `above`.
pub fn is_within(below: u32, above: u32, number: i64) -> bool
    ensures { result ≡ within below above number }
{
    -i64::from(below) <= number && number <= i64::from(above)
}

/// Whether a number is even.
pub fn is_even(number: i64) -> bool
    ensures { result ≡ even number }
{
    number % 2 == 0
}

/// Whether a word of 32 bits can hold a number, with a sign or without.
pub fn is_word(number: i64) -> bool
    ensures { result ≡ word number }
{
    is_within(1 << 31, u32::MAX, number)
}

/// A number as a word of 32 bits.
pub fn word_of(number: i64) -> u32
    requires { IsTrue (word number) }
    ensures { result ≡ unsigned 32 number }
{
    if number < 0 {
        (number + (1 << 32)) as u32
    } else {
        number as u32
    }
}
