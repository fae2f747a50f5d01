// Half-open ranges of points: when a version lives, what an attempt may read, and where a finish stands.
#![tactic(auto)]

pub mod laws;
mod version;
mod ranges;

pub use version::{Pin, Version};
pub use ranges::Interval;

#[cfg(test)]
mod tests;
