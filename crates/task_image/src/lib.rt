//! Packed sets: task sets as bytes, one spelling each.
#![tactic(auto)]

mod cursor;
mod header;
pub mod laws;
mod parts;
mod reading;
mod refusal;
mod writing;

pub use reading::read_set;
pub use refusal::ImageRefusal;
pub use writing::write_set;

#[cfg(test)]
mod tests;
