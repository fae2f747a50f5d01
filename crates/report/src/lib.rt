//! The lines of a report, each in a buffer that is made once, and reports read back.
#![tactic(auto)]

mod events;
mod fields;
pub mod laws;
mod line_buf;
mod lines;
mod pieces;
mod reader;
mod reading;
mod report;
mod state_lines;

pub use line_buf::LineBuf;
pub use reading::read_report;
pub use report::{Listing, Report, ReportRefusal, Tasks};

#[cfg(test)]
mod reading_tests;
#[cfg(test)]
mod tests;
