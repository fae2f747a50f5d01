//! The words of a device in a file: its bytes both ways, and a file that is read whole and written whole.
#![tactic(auto)]

mod file;
pub mod laws;
mod words;

pub use file::{ImageFile, Unstored, loaded, read_image, write_image};
pub use words::{LoadFault, put_image, words_of};

#[cfg(test)]
mod tests;
