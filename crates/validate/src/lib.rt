//! Which version an outside read takes, and whether an attempt that has ended may finish.
#![tactic(auto)]

mod beside;
pub mod laws;
mod reading;
mod slots;
mod verdict;

pub use beside::{MAX_OTHERS, View};
pub use reading::{Stale, admit, opened};
pub use verdict::{Verdict, validate};

#[cfg(test)]
mod tests;
