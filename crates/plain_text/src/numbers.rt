//! Numbers of at most so many digits, within limits.

ghost use Rattle.std.specs.Prelude.{◌≡◌, ◌≤◌, nat_lt};
ghost use Rattle.std.specs.Char.{digit_value as value_of_digit};
ghost use Rattle.std.specs.List.{list_all};
ghost use Rattle.plain_text.specs.Numbers.{is_numeral as numeral, value_in as value, within, word_value as word, number_in as number};

/// What is wrong with a number.
#[derive(Clone, Copy, Debug, PartialEq, Eq)]
pub enum NumberFault {
    /// It is malformed.
    Number,
    /// It is out of its limit.
    Range,
}

/// The value of a digit or a letter, from 0 for `0` to 35 for `z`, and 36 for other bytes.
pub(crate) fn digit_value(byte: u8) -> u8
    ensures { result ≡ value_of_digit byte }
{
    match byte {
        b'0'..=b'9' => byte - b'0',
        b'A'..=b'Z' => byte - b'A' + 10,
        b'a'..=b'z' => byte - b'a' + 10,
        _ => 36,
    }
}

fn are_digits(radix: u8, digits: &[u8]) -> bool
    ensures { result ≡ list_all (λ d. nat_lt (value_of_digit d) radix) digits.now }
{
    digits.iter().all(|d| digit_value(*d) < radix)
}

/// Whether these are one digit or more of this radix, at most `most`, and nothing else. Digits above 9 are letters of either case.
pub fn is_numeral(radix: u8, most: usize, digits: &[u8]) -> bool
    ensures { result ≡ numeral radix most digits.now }
{
    !digits.is_empty() && digits.len() <= most && are_digits(radix, digits)
}

/// The number that at most `most` digits of this radix write. None where they are no numeral.
pub fn value_in(radix: u8, most: usize, digits: &[u8]) -> Option<u64>
    requires radix { radix ≤ 16 }
    requires most { most ≤ 15 }
    ensures { result ≡ value radix most digits.now }
{
    if !is_numeral(radix, most, digits) {
        return None;
    }
    let mut total: u64 = 0;
    for d in digits {
        total = total * u64::from(radix) + u64::from(digit_value(*d));
    }
    Some(total)
}

/// A number of at most `most` digits, within its limits.
fn numeral_in(
    radix: u8,
    most: usize,
    low: u32,
    high: u32,
    digits: &[u8],
) -> Result<u32, NumberFault>
    requires radix { radix ≤ 16 }
    requires most { most ≤ 15 }
    ensures { result ≡ within low high (value radix most digits.now) }
{
    let Some(value) = value_in(radix, most, digits) else {
        return Err(NumberFault::Number);
    };
    if value < u64::from(low) || u64::from(high) < value {
        return Err(NumberFault::Range);
    }
    Ok(value as u32)
}

/// A number of one to ten decimal digits, from `low` to `high`. `Number` where it is malformed, else `Range` where it is not within.
pub fn number_in(low: u32, high: u32, word: &[u8]) -> Result<u32, NumberFault>
    ensures { result ≡ number low high word.now }
{
    numeral_in(10, 10, low, high, word)
}

/// The 32-bit word that a word value writes: a decimal number up to 4294967295, `-` and one up to 2147483648, or `0x`
/// and one to eight hexadecimal digits. `Number` where it is malformed, else `Range` where it is out of its limit.
pub fn word_value(text: &[u8]) -> Result<u32, NumberFault>
    ensures { result ≡ word text.now }
{
    match text {
        [b'-', digits @ ..] => {
            let size = number_in(0, 1 << 31, digits)?;
            Ok(size.wrapping_neg())
        }
        [b'0', b'x', digits @ ..] => numeral_in(16, 8, 0, u32::MAX, digits),
        _ => number_in(0, u32::MAX, text),
    }
}
