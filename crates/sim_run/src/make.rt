//! The command `make`: a run of a script of its own, summed up.

ghost use Rattle.std.specs.Prelude.{◌≡◌, ◌≤◌};
ghost use Rattle.schedule_model.specs.Failures.{events_of};
ghost use Rattle.script.specs.Reading.{read};
ghost use Rattle.answers.specs.declared.status.Status.TheVariants as Status;
ghost use Rattle.kernel_core.specs.declared.open.How.TheVariants as Opened;
ghost use Rattle.simulation.specs.Stores.{store, words_in};
ghost use Rattle.sim_run.specs.OpeningImages.{HasOpening};
ghost use Rattle.sim_run.specs.BeforeAnswerLine.{LeavesStore, PutOrLost};
ghost use Rattle.sim_run.specs.Promises.{HasImagesOf, HasPromise, HasRun, HasRunAll, IsPromised};
ghost use Rattle.sim_run.specs.Replies.{made_reply, summed_reply};
ghost use Rattle.sim_run.specs.Stopping.{HasStoppedUntold, StoppedUntold};

use crate::opening::open_for;
use crate::summary::summary;
use crate::texts::put_text;
use answers::{Status, of_script};
use fram_dev::Fram;
use headline::laws::{report_keeps_headline, runs_are_one_history};
use kernel_core::How;
use kernel_core::laws::kernel_is_at_state;
use nv_base::Sink;
use power_trace::Schedule;
use schedule_model::laws::events_are_within_limits;
use script::read_script;
use simulation::count_lines;
use std::alloc::Global;
use task_set::TaskSet;

/// Formats the device, takes the turns of a schedule's events on it, and puts how many lines of each kind they have. All
/// memory is taken before the first write.
fn sum_up<K: Sink, F: Fram>(
    alloc: Global,
    seed: u32,
    set: TaskSet,
    schedule: &Schedule,
    out: &mut K,
    dev: &mut F,
) -> Status
    requires cores { schedule.now.cores ≡ set.cores }
    ensures replied { let old = store F.start F.log F.lost dev.old in
        let reply = summed_reply seed old set (events_of schedule.now) in
        PutOrLost reply (K.seen out.old) (K.seen out.new) result }
    ensures store { let old = store F.start F.log F.lost dev.old in
        LeavesStore Opened.Fresh old (store F.start F.log F.lost dev.new) result }
    ensures headline { let old = store F.start F.log F.lost dev.old in result ≡ Status.Done
        → HasPromise Opened.Fresh set (events_of schedule.now) (words_in old) }
    ensures images { let old = store F.start F.log F.lost dev.old in
        let new = store F.start F.log F.lost dev.new in
        HasRun Opened.Fresh set (events_of schedule.now) old new }
    ensures opening { let old = store F.start F.log F.lost dev.old in
        HasOpening Opened.Fresh set old (store F.start F.log F.lost dev.new) }
    ensures stops { let old = store F.start F.log F.lost dev.old in
        let new = store F.start F.log F.lost dev.new in
        StoppedUntold set (events_of schedule.now) old new (K.seen out.old) (K.seen out.new) result }
    ensures whole { let old = store F.start F.log F.lost dev.old in result ≡ Status.Done
        → HasRunAll Opened.Fresh set (events_of schedule.now) old (store F.start F.log F.lost dev.new) }
    ensures start { F.start dev.new ≡ F.start dev.old }
    ensures never_falls { F.lost dev.old ≤ F.lost dev.new }
{
    // that the set keeps its limits
    let _ = set.format();
    report_keeps_headline();
    runs_are_one_history();
    events_are_within_limits();
    kernel_is_at_state();
    let room = schedule.len();
    match open_for(alloc, dev, set, How::Fresh, room) {
        Ok(kernel) => match count_lines(kernel, dev, schedule) {
            Ok(tally) => put_text(out, summary(seed, &tally).as_bytes()),
            Err(_) => Status::DeviceLost,
        },
        Err(status) => status,
    }
}

/// Runs the script that an input is on a device that is formatted first, and puts the summary of its report.
pub(crate) fn make<K: Sink, F: Fram>(
    alloc: Global,
    seed: u32,
    input: &[u8],
    out: &mut K,
    dev: &mut F,
) -> Status
    ensures replied { let old = store F.start F.log F.lost dev.old in
        let reply = made_reply seed old (read input.now) in
        PutOrLost reply (K.seen out.old) (K.seen out.new) result }
    ensures store { let old = store F.start F.log F.lost dev.old in
        LeavesStore Opened.Fresh old (store F.start F.log F.lost dev.new) result }
    ensures headline { let old = store F.start F.log F.lost dev.old in
        result ≡ Status.Done → IsPromised Opened.Fresh (words_in old) input.now }
    ensures images { let old = store F.start F.log F.lost dev.old in
        HasImagesOf Opened.Fresh old (store F.start F.log F.lost dev.new) result input.now }
    ensures stops { let old = store F.start F.log F.lost dev.old in
        let new = store F.start F.log F.lost dev.new in
        HasStoppedUntold old new (K.seen out.old) (K.seen out.new) result input.now }
    ensures start { F.start dev.new ≡ F.start dev.old }
    ensures never_falls { F.lost dev.old ≤ F.lost dev.new }
{
    match read_script(alloc, input) {
        Ok(script) => sum_up(alloc, seed, script.set, &script.schedule, out, dev),
        Err(refusal) => of_script(refusal),
    }
}
