//! Runs of a kernel on a device, event by event, and the reports that they put.
#![tactic(auto)]

mod counting;
mod events;
mod halt;
mod lines;
mod objects;
mod place;
mod read_back;
mod tally;

pub use counting::count_lines;
pub use events::put_report;
pub use halt::Halt;
pub use place::Place;
pub use tally::Tally;
