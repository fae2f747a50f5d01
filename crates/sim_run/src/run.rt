//! `run` and `resume`: the report of a script's events, on a device that is formatted first, or from what the device holds.

ghost use Rattle.std.specs.Prelude.{◌≡◌, ◌≤◌, Some};
ghost use Rattle.schedule_model.specs.Failures.{events_of};
ghost use Rattle.headline.specs.Headline.{Headline};
ghost use Rattle.headline.specs.Report.{report_text};
ghost use Rattle.headline.specs.Runs.{Origin};
ghost use Rattle.script.specs.Reading.{read};
ghost use Rattle.script.specs.Views.{script_of};
ghost use Rattle.answers.specs.declared.status.Status.TheVariants as Status;
ghost use Rattle.simulation.specs.Stores.{store, words_in};
ghost use Rattle.sim_run.specs.BeforeAnswerLine.{LeavesStore, PutOrLost};
ghost use Rattle.sim_run.specs.Halts.{status_at};
ghost use Rattle.sim_run.specs.OpeningImages.{HasOpening};
ghost use Rattle.sim_run.specs.Origins.{begin_on};
ghost use Rattle.sim_run.specs.Replies.{device_reply, run_reply};
ghost use Rattle.sim_run.specs.Stopping.{HasStoppedOf, StoppedAs};
ghost use Rattle.sim_run.specs.Promises.{HasImagesOf, HasPromise, HasRun, HasRunAll, IsPromised};

use crate::opening::open_for;
use answers::{Status, of_script};
use fram_dev::Fram;
use headline::laws::{report_keeps_headline, runs_are_one_history};
use kernel_core::How;
use kernel_core::laws::kernel_is_at_state;
use nv_base::Sink;
use power_trace::Schedule;
use schedule_model::laws::events_are_within_limits;
use script::{Script, read_script};
use simulation::{Halt, Place, put_report};
use std::alloc::Global;
use task_set::TaskSet;

// How a command ends whose run stops before its end.
fn status_at(halt: Halt) -> Status
    ensures { result ≡ status_at halt }
{
    match halt {
        Halt::WriteFault => Status::WriteFault,
        Halt::DeviceLost => Status::DeviceLost,
    }
}

/// Puts the report of a schedule's events on the device, which is formatted first or holds a state. All memory is taken
/// before the first write.
pub(crate) fn run_events<K: Sink, F: Fram>(
    alloc: Global,
    set: TaskSet,
    how: How,
    schedule: &Schedule,
    out: &mut K,
    dev: &mut F,
) -> Status
    requires cores { schedule.now.cores ≡ set.cores }
    ensures replied { let old = store F.start F.log F.lost dev.old in
        let reply = device_reply how old set (events_of schedule.now) in
        PutOrLost reply (K.seen out.old) (K.seen out.new) result }
    ensures store { let old = store F.start F.log F.lost dev.old in
        LeavesStore how old (store F.start F.log F.lost dev.new) result }
    ensures headline { let old = store F.start F.log F.lost dev.old in
        result ≡ Status.Done → HasPromise how set (events_of schedule.now) (words_in old) }
    ensures images { let old = store F.start F.log F.lost dev.old in
        HasRun how set (events_of schedule.now) old (store F.start F.log F.lost dev.new) }
    ensures opening { let old = store F.start F.log F.lost dev.old in
        HasOpening how set old (store F.start F.log F.lost dev.new) }
    ensures stops { let old = store F.start F.log F.lost dev.old in
        let new = store F.start F.log F.lost dev.new in
        StoppedAs how set (events_of schedule.now) old new (K.seen out.old) (K.seen out.new) result }
    ensures whole { let old = store F.start F.log F.lost dev.old in result ≡ Status.Done
        → HasRunAll how set (events_of schedule.now) old (store F.start F.log F.lost dev.new) }
    ensures start { F.start dev.new ≡ F.start dev.old }
    ensures never_falls { F.lost dev.old ≤ F.lost dev.new }
{
    // that the set keeps its limits
    let _ = set.format();
    report_keeps_headline();
    runs_are_one_history();
    events_are_within_limits();
    kernel_is_at_state();
    let room = schedule.len();
    let Ok(place) = Place::room(alloc, &set) else {
        return Status::NoMemory;
    };
    match open_for(alloc, dev, set, how, room) {
        Ok(kernel) => match put_report(kernel, dev, place, schedule, out) {
            Ok(()) => Status::Done,
            Err(halt) => status_at(halt),
        },
        Err(status) => status,
    }
}

/// Runs the script that an input is, or answers with the first line that is refused.
pub(crate) fn run<K: Sink, F: Fram>(
    alloc: Global,
    input: &[u8],
    how: How,
    out: &mut K,
    dev: &mut F,
) -> Status
    ensures replied { let old = store F.start F.log F.lost dev.old in
        let reply = run_reply how old (read input.now) in
        PutOrLost reply (K.seen out.old) (K.seen out.new) result }
    ensures store { let old = store F.start F.log F.lost dev.old in
        LeavesStore how old (store F.start F.log F.lost dev.new) result }
    ensures headline { let old = store F.start F.log F.lost dev.old in
        result ≡ Status.Done → IsPromised how (words_in old) input.now }
    ensures images { let old = store F.start F.log F.lost dev.old in
        HasImagesOf how old (store F.start F.log F.lost dev.new) result input.now }
    ensures stops { let old = store F.start F.log F.lost dev.old in
        let new = store F.start F.log F.lost dev.new in
        HasStoppedOf how old new (K.seen out.old) (K.seen out.new) result input.now }
    ensures start { F.start dev.new ≡ F.start dev.old }
    ensures never_falls { F.lost dev.old ≤ F.lost dev.new }
{
    match read_script(alloc, input) {
        Ok(script) => run_events(alloc, script.set, how, &script.schedule, out, dev),
        Err(refusal) => of_script(refusal),
    }
}
