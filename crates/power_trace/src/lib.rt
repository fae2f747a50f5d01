//! Schedules: which core takes each step, and where power fails. Each event is found by its number,
//! and all of them in order, with no list of events.
#![tactic(auto)]

mod ahead;
mod core_steps;
mod draw;
mod event;
mod events;
mod index;
mod items;
mod remaining;
mod schedule;
mod sequence;

pub use event::Event;
pub use events::Events;
pub use items::{CoreList, StepItem};
pub use schedule::Schedule;

#[cfg(test)]
mod tests;
