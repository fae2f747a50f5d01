//! How a command ends: its answer, the exit number, and the line that names it.
#![tactic(auto)]

mod answer_line;
mod refusals;
mod status;

pub use answer_line::put_name;
pub use refusals::{of_assembly, of_audit, of_packed, of_report, of_script};
pub use status::{ImageFault, Status};

#[cfg(test)]
mod tests;
