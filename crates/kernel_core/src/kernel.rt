//! The kernel of one to eight cores over a device: what it keeps.

use commit_writer::Writer;
use committed_state::Committed;
use core_seats::Seat;
use nv_base::Entry;
use recovery::Boot;
use shadow_index::Layout;
use task_set::TaskSet;

/// Whether power is on, or a boot goes on.
#[derive(Drop)]
pub(crate) enum Power {
    /// It is on.
    On,
    /// The device is read, word by word.
    Boot(Boot),
}

/// The kernel: a task set on a device, what each core holds, all that has committed, and the commit under way.
#[derive(Drop)]
pub struct Kernel {
    pub(crate) set: TaskSet,

    // where the words of the device stand
    pub(crate) layout: Layout,

    // by the number of the core
    pub(crate) seats: Vec<Seat>,
    pub(crate) committed: Committed,
    pub(crate) writer: Writer,

    // whose commit began last: a hint, where to look first for one that goes on
    pub(crate) saver: usize,

    pub(crate) power: Power,

    // a finish that a failure hid
    pub(crate) owed: Option<Entry>,

    // all finishes that have joined, and how many there may be
    pub(crate) listing: Vec<Entry>,
    pub(crate) room: u32,

    // whether a call was lost
    pub(crate) lost: bool,
}
