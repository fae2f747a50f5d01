//! The auditor: a report beside the serial replay of its listing.
#![tactic(auto)]

mod answers;
mod auditing;
pub mod laws;
mod lines;

pub use answers::{Agreed, AuditRefusal};
pub use auditing::audit;

#[cfg(test)]
mod tests;
