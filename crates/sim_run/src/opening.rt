//! A kernel on the device of a call, or the answer that there is none.

ghost use Rattle.std.specs.Prelude.{◌≡◌, ◌≢◌, ◌<◌, ◌≤◌, IfErr, IfOk, List, OnErr, length};
ghost use Rattle.nv_base.specs.Streams.{Stream};
ghost use Rattle.kernel_model.specs.Events.{Event};
ghost use Rattle.answers.specs.declared.status.Status.TheVariants as Status;
ghost use Rattle.kernel_core.specs.Opening.{need_for};
ghost use Rattle.simulation.specs.Stores.{store, words_in};
ghost use Rattle.sim_run.specs.BeforeAnswerLine.{LeavesStore, PutOrLost};
ghost use Rattle.sim_run.specs.Halts.{refused_as};
ghost use Rattle.sim_run.specs.Promises.{HasOpenedPart, IsBegun};
ghost use Rattle.sim_run.specs.Replies.{device_reply};

use answers::{ImageFault, Status};
use fram_dev::Fram;
use kernel_core::{How, Kernel, OpenRefusal};
use nv_base::limits::MAX_EVENTS;
use std::alloc::Global;
use task_set::TaskSet;

// How a command ends that finds no kernel.
fn refused_as(refusal: OpenRefusal) -> Status
    ensures { result ≡ refused_as refusal }
{
    match refusal {
        OpenRefusal::Small { need, len } => Status::Small { need, len },
        OpenRefusal::NoMemory => Status::NoMemory,
        OpenRefusal::Lost => Status::DeviceLost,
        OpenRefusal::Blank => Status::Image(ImageFault::Blank),
        OpenRefusal::Damaged(place) => Status::Image(ImageFault::Damaged(place)),
        OpenRefusal::Worn => Status::Image(ImageFault::Worn),
    }
}

/// A kernel that stands before the first event of a run of so many: on a device that it has formatted, or on what the
/// device holds. Else the answer, by the words at entry, and but for a call that was lost nothing was written.
pub(crate) fn open_for<F: Fram>(
    alloc: Global,
    dev: &mut F,
    set: TaskSet,
    how: How,
    room: u32,
) -> Result<Kernel, Status>
    requires { room ≤ MAX_EVENTS }
    ensures begun { let old = store F.start F.log F.lost dev.old in
        let new = store F.start F.log F.lost dev.new in
        (events : List Event) → room ≡ length events
        → IfOk result (IsBegun how set events old new) }
    ensures set { IfOk result (λ kernel. kernel.set ≡ set) }
    ensures replied { let old = store F.start F.log F.lost dev.old in
        (events : List Event) (o : Stream)
        → IfErr result (PutOrLost (device_reply how old set events) o o) }
    ensures store { let old = store F.start F.log F.lost dev.old in
        let new = store F.start F.log F.lost dev.new in
        IfErr result (LeavesStore how old new) }
    ensures part { let old = store F.start F.log F.lost dev.old in
        OnErr result (HasOpenedPart how set old (store F.start F.log F.lost dev.new)) }
    ensures spared { let old = store F.start F.log F.lost dev.old in
        let len = length old.start in
        len < need_for how set (words_in old) len → F.log dev.new ≡ F.log dev.old }
    ensures undone { IfErr result (λ status. status ≢ Status.Done) }
    ensures unput { IfErr result (λ status. status ≢ Status.WriteFault) }
    ensures start { F.start dev.new ≡ F.start dev.old }
    ensures never_falls { F.lost dev.old ≤ F.lost dev.new }
{
    match Kernel::open(alloc, dev, set, how, room) {
        Ok(kernel) => Ok(kernel),
        Err(refusal) => Err(refused_as(refusal)),
    }
}
