//! What makes a device: a format, and the words that a migration writes.
#![tactic(auto)]

mod formatting;
mod fresh;
pub mod laws;
mod migration;
mod moved;
mod pages;
mod puts;
mod slots;

pub use formatting::{FormatRefusal, format};
pub use migration::move_words;

#[cfg(test)]
mod tests;
