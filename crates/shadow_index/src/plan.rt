//! What a verdict hands to the writer of a commit.

use crate::tables::MAX_OBJECTS;
use nv_base::{Entry, ObjSet};

/// A granted finish, the objects that it writes, and the free slot of each of these.
#[derive(Clone, Copy)]
pub struct Plan {
    /// The finish.
    pub granted: Entry,
    /// The objects that it writes.
    pub written: ObjSet,
    /// By object, the slot that its new version goes to. Of other objects it says nothing.
    pub slots: [u8; MAX_OBJECTS],
}
