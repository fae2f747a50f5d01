//! Tasks of RV32IM as runs of the kernel's model.
#![tactic(auto)]

mod finals;
mod first_finishes;
pub mod laws;
mod objects;
mod open_tasks;
mod part;
mod progress;
mod replaying;
mod spawn_counts;
mod spawns;
mod tables;
mod task_list;
mod turns;
mod whole_run;

pub use finals::{Final, Replay, Replayed};
pub use first_finishes::{MAX_FINISHES, serial_first};
pub use objects::{Objects, first_objects};
pub use part::{Part, give};
pub use replaying::{replay_listing, serial};
pub use spawn_counts::SpawnCounts;
pub use spawns::{MAX_SPAWNS, Spawns};
pub use task_list::TaskList;
pub use whole_run::{Whole, run_whole};

#[cfg(test)]
mod tests;
