//! Fields of a word.

ghost use Rattle.std.specs.Prelude.{◌≡◌, ◌+◌, ◌-◌, ◌*◌, ◌^◌, ◌<◌, ◌≤◌};
ghost use Rattle.rv_isa.specs.Fields.{bits, unsigned, IsSigned};

use crate::instruction::Reg;

/// The bits `low` to `low + width - 1` of a word.
pub fn field(word: u32, low: u32, width: u32) -> u32
    requires low_fits { low < 32 }
    requires width_fits { width < 32 }
    ensures { result ≡ bits low width word }
{
    (word >> low) & ((1 << width) - 1)
}

/// The register whose number begins at bit `low`.
pub fn register(word: u32, low: u32) -> Reg
    requires { low < 32 }
    ensures { result.0 ≡ bits low 5 word }
{
    Reg(field(word, low, 5) as u8)
}

/// The low `width` bits of a number in two's complement.
pub fn low_bits(number: i32, width: u32) -> u32
    requires low { 0 < width }
    requires high { width < 32 }
    requires fits { IsSigned width number }
    ensures value { result ≡ unsigned width number }
    ensures fits { result < 2 ^ width }
{
    if number < 0 {
        (1 << width) - 1 - !number as u32
    } else {
        number as u32
    }
}
