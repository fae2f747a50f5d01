//! What a kernel keeps of the finishes that have committed: which slot holds which version, the open tasks, and the state on the device.
#![tactic(auto)]

mod committed;
mod joining;

pub use committed::Committed;
pub use joining::Joining;

#[cfg(test)]
mod tests;
