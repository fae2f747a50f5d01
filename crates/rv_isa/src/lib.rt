// The instruction table of RV32IM, read both ways: from words to instructions and back.
#![tactic(auto)]

mod decoding;
mod encoding;
mod fields;
mod instruction;
pub mod laws;
mod mnemonics;
mod syntax;
#[cfg(test)]
mod tests;
#[cfg(test)]
mod text_tests;
mod texts;

pub use decoding::decode;
pub use encoding::encode;
pub use instruction::{BranchOp, ImmOp, Instr, LoadOp, Reg, RegOp, StoreOp};
pub use mnemonics::{mnemonic, register_name};
pub use syntax::{Operand, operands};
pub use texts::{push_hexadecimal, push_text, text};
