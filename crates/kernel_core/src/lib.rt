//! The kernel of one to eight cores over a device: each turn is one event.
#![tactic(auto)]

mod again;
mod commit;
mod copying;
mod kernel;
pub mod laws;
mod open;
mod passing;
mod power;
mod quiet;
mod running;
mod start;
mod told;
mod turn;
mod verdict;

pub use kernel::Kernel;
pub use open::{How, OpenRefusal};

#[cfg(test)]
mod fused_tests;
#[cfg(test)]
mod tests;
