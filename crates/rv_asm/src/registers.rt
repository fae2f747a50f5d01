//! Registers by their names.

ghost use Rattle.std.specs.Prelude.{◌≡◌, ◌<◌, IfSome, length, position, nat_eq};
ghost use Rattle.std.specs.Cmp.Lexicographic.{pointwise};
ghost use Rattle.rv_isa.specs.Names.{register_names};
ghost use Rattle.rv_asm.specs.Registers.{numbered_names, register_among, register_of as register_in};

use rv_isa::{Reg, register_name};

const NUMBERED_NAMES: [&str; 32] = [
    "x0", "x1", "x2", "x3", "x4", "x5", "x6", "x7", "x8", "x9", "x10", "x11", "x12", "x13", "x14",
    "x15", "x16", "x17", "x18", "x19", "x20", "x21", "x22", "x23", "x24", "x25", "x26", "x27",
    "x28", "x29", "x30", "x31",
];

fn abi_register(word: &[u8]) -> Option<Reg>
    ensures { result ≡ register_among register_names word.now }
{
    for number in 0..32 {
        if register_name(Reg(number)).as_bytes() == word {
            return Some(Reg(number));
        }
    }
    None
}

fn place_among(names: &[&str], word: &[u8]) -> Option<usize>
    ensures place { result ≡ position (λ name. pointwise nat_eq name.now word.now) names.now }
    ensures below { IfSome result (λ place. place < length names.now) }
{
    names.iter().position(|name| name.as_bytes() == word)
}

#[tactic(auto, using(crate::proofs::Searches::same_names))]
fn numbered_register(word: &[u8]) -> Option<Reg>
    ensures { result ≡ register_among numbered_names word.now }
{
    match place_among(&NUMBERED_NAMES, word) {
        Some(place) => Some(Reg(place as u8)),
        None => None,
    }
}

/// The register of a name: one of the ABI's, `fp`, or `x0` to `x31`.
#[tactic(auto, unfolding(crate::specs::Registers::register_of))]
pub fn register_of(word: &[u8]) -> Option<Reg>
    ensures { result ≡ register_in word.now }
{
    if word == b"fp".as_slice() {
        return Some(Reg(8));
    }
    if let Some(register) = abi_register(word) {
        return Some(register);
    }
    numbered_register(word)
}
