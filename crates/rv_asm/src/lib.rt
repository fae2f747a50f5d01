//! An assembler for RV32IM: lines of text as words, and back.
#![tactic(auto)]

mod assembler;
mod cause;
mod disassembler;
mod fields;
mod forms;
mod labels;
mod laws;
mod lines;
mod loads;
mod numbers;
mod operands;
mod registers;
mod words;

pub use assembler::{assemble, assemble_lines};
pub use cause::{AsmCause, AsmError, AsmRefusal};
pub use disassembler::{disassemble, disassembled_is_assembled_back};
pub use laws::{
    load_is_short, load_leaves_value, range_is_what_fits, refusal_is_first, words_are_few,
};

#[cfg(test)]
mod disassembler_tests;
#[cfg(test)]
mod tests;
