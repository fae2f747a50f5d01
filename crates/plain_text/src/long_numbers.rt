//! Numbers of any number of digits, with a cap.

ghost use Rattle.std.specs.Prelude.{◌≡◌, ◌≤◌, min};
ghost use Rattle.std.specs.Char.{digit_value as value_of_digit};
ghost use Rattle.std.specs.Str.Parse.{digits_value};

use crate::numbers::digit_value;

/// A number from here on is too large for each use: 2^33.
pub const CAP: u64 = 0x2_0000_0000;

/// The number that digits of this radix write, or the cap where it is larger. The digits are those of a numeral:
/// a byte that is none counts as 36 or less.
#[tactic(auto, using(crate::proofs::Capped::capped_more))]
pub fn capped_value(radix: u8, digits: &[u8]) -> u64
    requires low { 1 ≤ radix }
    requires high { radix ≤ 16 }
    ensures { result ≡ min 0x2_0000_0000 (digits_value radix digits.now) }
{
    let mut total = 0;
    for d in digits {
        total = CAP.min(total * u64::from(radix) + u64::from(digit_value(*d)));
    }
    total
}
