// A memory of words that keeps them without power: what it promises, and one in memory.
#![tactic(auto)]

mod device;
mod memory;
mod start;

pub use device::{Fram, Lost};
pub use memory::MemFram;

#[cfg(test)]
mod tests;
