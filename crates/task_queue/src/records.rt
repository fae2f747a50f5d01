//! Why a finish finds no records.

use thiserror::Error;

/// There are not records enough for the tasks that a finish would leave.
#[derive(Clone, Copy, PartialEq, Eq, Debug, Error)]
#[error("{pending} tasks are open, and {spawns} more find no records")]
pub struct Records {
    /// How many tasks are open, the one that would finish too.
    pub pending: u32,
    /// How many it would make.
    pub spawns: u32,
}
