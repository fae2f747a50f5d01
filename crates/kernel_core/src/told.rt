//! What a kernel tells.

ghost use Rattle.std.specs.Prelude.{◌≡◌, map};
ghost use Rattle.rv_core.specs.State.{MachineState};
ghost use Rattle.kernel_model.specs.Items.{listing};
ghost use Rattle.kernel_model.specs.Events.{State};
ghost use Rattle.kernel_model.specs.Report.{unprinted};
ghost use Rattle.set_model.specs.Views.{entry_if, entry_of};
ghost use Rattle.device_model.specs.Words.{Words};
ghost use Rattle.headline.specs.Runs.{Origin};
ghost use Rattle.kernel_core.specs.Events.{IsAt};

use crate::kernel::Kernel;
use crate::power::whole_among;
use nv_base::Entry;
use task_set::TaskSet;

impl Kernel {
    /// The set.
    pub fn set(&self) -> &TaskSet
        ensures { result.now ≡ self.now.set }
    {
        &self.set
    }

    /// The finishes that have joined, by number.
    pub fn listing(&self) -> &[Entry]
        ensures items { result.now ≡ self.now.listing.items }
        ensures listing { (o : Origin) (words : Words) (s : State MachineState)
            → IsAt o self.now words s → map entry_of result.now ≡ listing s.history }
    {
        &self.listing
    }

    /// Whether a call to the device was lost: then the kernel takes no event any more.
    pub fn is_lost(&self) -> bool
        ensures { result ≡ self.now.lost }
    {
        self.lost
    }

    /// The finish that stands on the device and that no line has told, if there is one.
    pub fn close_line(&self) -> Option<Entry>
        ensures { (o : Origin) (words : Words) (s : State MachineState) → IsAt o self.now words s
            → entry_if result ≡ unprinted s }
    {
        match whole_among(&self.seats) {
            Some(entry) => Some(entry),
            None => self.owed,
        }
    }
}
