//! The open tasks of a device as a kernel keeps them in memory.
#![tactic(auto)]

mod queue;
mod records;

pub use queue::Queue;
pub use records::Records;

#[cfg(test)]
mod tests;
