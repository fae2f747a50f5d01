// The table of versions: which slot holds which version of each object, how long each lives, and who touched what.
#![tactic(auto)]

pub mod calls;
mod chain;
pub mod laws;
mod table;
pub mod tabled;

pub use interval::{Pin, Version};
pub use table::Versions;

#[cfg(test)]
mod tests;
