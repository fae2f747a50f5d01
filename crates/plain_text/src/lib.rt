//! Plain text: bytes as lines, a line as words, and words as numbers and names.
#![tactic(auto)]

mod bad_lines;
mod lines;
mod long_numbers;
mod names;
mod numbers;
mod words;

pub use bad_lines::first_bad;
pub use lines::{Lines, lines_of};
pub use long_numbers::{CAP, capped_value};
pub use names::is_name;
pub use numbers::{NumberFault, is_numeral, number_in, value_in, word_value};
pub use words::{Words, first_word, is_plain, without_comment};

#[cfg(test)]
mod tests;
