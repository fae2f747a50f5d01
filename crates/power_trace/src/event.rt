// What happens next in a schedule.

use nv_base::CoreId;

/// One event of a schedule.
#[derive(Clone, Copy, PartialEq, Eq, Debug)]
pub enum Event {
    /// A core takes one step.
    Core(CoreId),
    /// Power fails.
    Fail,
}
