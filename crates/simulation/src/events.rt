//! A run: its events, one after another, and then what is read back from the device.

ghost use Rattle.std.specs.Prelude.{◌≡◌, ◌≤◌, IfErr, OnOk, length};
ghost use Rattle.nv_base.specs.Streams.{PutsText};
ghost use Rattle.schedule_model.specs.Failures.{events_of};
ghost use Rattle.headline.specs.Report.{report_text};
ghost use Rattle.headline.specs.Runs.{Origin};
ghost use Rattle.simulation.specs.Places.{HasPlace};
ghost use Rattle.simulation.specs.Runs.{Begins, Goes, HasDone, HasDoneAll, IsHalted, Stops};
ghost use Rattle.simulation.specs.Stores.{store};

use crate::halt::Halt;
use crate::lines::put_line;
use crate::place::Place;
use crate::read_back::put_tail;
use fram_dev::Fram;
use headline::laws::images_follow_events;
use kernel_core::Kernel;
use kernel_core::laws::kernel_is_at_state;
use nv_base::Sink;
use power_trace::Schedule;
use report::LineBuf;
use schedule_model::laws::each_event_is_of_cores;

/// Takes the turns of all events of a schedule, each with its line. It is handed no allocator, so no event takes memory.
#[inline(never)]
fn put_events<K: Sink, F: Fram>(
    kernel: &mut Kernel,
    dev: &mut F,
    text: &mut LineBuf,
    schedule: &Schedule,
    out: &mut K,
) -> Result<(), Halt>
    requires begins { let events = events_of schedule.now in
        (o : Origin) × Begins o events kernel.old (store F.start F.log F.lost dev.old) }
    requires cores { schedule.now.cores ≡ kernel.old.set.cores }
    ensures goes { let events = events_of schedule.now in
        let first = store F.start F.log F.lost dev.old in
        let now = store F.start F.log F.lost dev.new in
        (o : Origin) → Begins o events kernel.old first → OnOk result
        (Goes o events (length events) kernel.new first now (K.seen out.old) (K.seen out.new)) }
    ensures halted { let events = events_of schedule.now in
        (o : Origin) → Begins o events kernel.old (store F.start F.log F.lost dev.old)
        → IfErr result (IsHalted (report_text o events)
        (F.lost dev.old) (F.lost dev.new) (K.seen out.old) (K.seen out.new)) }
    ensures done { let events = events_of schedule.now in
        let first = store F.start F.log F.lost dev.old in
        let now = store F.start F.log F.lost dev.new in
        (o : Origin) → Begins o events kernel.old first → HasDone o events first now }
    ensures stops { let events = events_of schedule.now in
        let first = store F.start F.log F.lost dev.old in
        let now = store F.start F.log F.lost dev.new in
        (o : Origin) → Begins o events kernel.old first
        → IfErr result (Stops o events first now (K.seen out.old) (K.seen out.new)) }
    ensures start { F.start dev.new ≡ F.start dev.old }
    ensures never_falls { F.lost dev.old ≤ F.lost dev.new }
{
    kernel_is_at_state();
    images_follow_events();
    each_event_is_of_cores();
    // that the schedule keeps its limits, so that each event is one of its cores
    let _ = schedule.len();
    let mut events = schedule.events();
    while let Some(event) = events.next() {
        // most events tell nothing
        let Ok(taken) = kernel.pass(dev, event) else {
            return Err(Halt::DeviceLost);
        };
        if taken {
            continue;
        }
        let Ok(line) = kernel.turn(dev, event) else {
            return Err(Halt::DeviceLost);
        };
        let Ok(()) = put_line(out, text, kernel.set(), &line) else {
            return Err(Halt::WriteFault);
        };
    }
    Ok(())
}

/// Puts the whole report of a run from a kernel that has just begun: the lines of its events, and then what is read back
/// from the device. `WriteFault` where the sink failed, `DeviceLost` where the device lost a call.
pub fn put_report<K: Sink, F: Fram>(
    mut kernel: Kernel,
    dev: &mut F,
    mut place: Place,
    schedule: &Schedule,
    out: &mut K,
) -> Result<(), Halt>
    requires begins { let events = events_of schedule.now in
        (o : Origin) × Begins o events kernel (store F.start F.log F.lost dev.old) }
    requires cores { schedule.now.cores ≡ kernel.set.cores }
    requires place { HasPlace kernel.set place }
    ensures put { let events = events_of schedule.now in
        (o : Origin) → Begins o events kernel (store F.start F.log F.lost dev.old)
        → OnOk result (PutsText (report_text o events) (K.seen out.old) (K.seen out.new)) }
    ensures halted { let events = events_of schedule.now in
        (o : Origin) → Begins o events kernel (store F.start F.log F.lost dev.old)
        → IfErr result (IsHalted (report_text o events)
        (F.lost dev.old) (F.lost dev.new) (K.seen out.old) (K.seen out.new)) }
    ensures done { let events = events_of schedule.now in
        let first = store F.start F.log F.lost dev.old in
        let now = store F.start F.log F.lost dev.new in
        (o : Origin) → Begins o events kernel first → HasDone o events first now }
    ensures whole { let events = events_of schedule.now in
        let first = store F.start F.log F.lost dev.old in
        let now = store F.start F.log F.lost dev.new in
        (o : Origin) → Begins o events kernel first → OnOk result (HasDoneAll o events first now) }
    ensures stops { let events = events_of schedule.now in
        let first = store F.start F.log F.lost dev.old in
        let now = store F.start F.log F.lost dev.new in
        (o : Origin) → Begins o events kernel first
        → IfErr result (Stops o events first now (K.seen out.old) (K.seen out.new)) }
    ensures start { F.start dev.new ≡ F.start dev.old }
    ensures never_falls { F.lost dev.old ≤ F.lost dev.new }
{
    if let Err(halt) = put_events(&mut kernel, dev, &mut place.text, schedule, out) {
        return Err(halt);
    }
    put_tail(&kernel, dev, &mut place, out)
}
