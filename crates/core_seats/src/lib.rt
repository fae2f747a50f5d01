//! What each core holds: an attempt with the interval of its reads, or a finish whose words are written.
#![tactic(auto)]

pub mod laws;
mod seat;
mod seats;

pub use seat::{Saving, Seat};
pub use seats::{held, is_saving, views_beside};

#[cfg(test)]
mod tests;
