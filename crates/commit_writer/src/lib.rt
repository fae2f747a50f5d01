//! A commit, one write at a time, from the words of two states.
#![tactic(auto)]

pub mod after;
mod fill;
mod job;
pub mod laws;
mod position;
mod writer;

pub use writer::{Turn, Writer};

#[cfg(test)]
mod tests;
