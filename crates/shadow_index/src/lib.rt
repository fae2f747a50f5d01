//! The index on a device as code: where each word stands, and the words of a state, both ways.
#![tactic(auto)]

mod bounds;
mod copies;
mod header;
mod kind;
pub mod laws;
mod layout;
mod lengths;
mod places;
mod plan;
mod roots;
mod shape;
mod state;
mod tables;
mod take;

pub use copies::Copies;
pub use kind::DeviceKind;
pub use layout::Layout;
pub use places::need;
pub use plan::Plan;
pub use state::State;

#[cfg(test)]
mod tests;
