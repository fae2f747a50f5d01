//! What comes after the last event: a finish that no line has told, and the state that is read back from the device.

ghost use Rattle.std.specs.Prelude.{◌≡◌, ◌<◌, ◌≤◌, IfErr, OnOk, OnErr, length, map, vec_capacity};
ghost use Rattle.std.specs.List.{AllByRecursion, flat_map};
ghost use Rattle.rv_core.specs.State.{MachineState};
ghost use Rattle.nv_base.specs.Streams.{PutsFront, PutsText};
ghost use Rattle.nv_base.specs.declared.limits.TheConstants.{MAX_SIZE};
ghost use Rattle.kernel_model.specs.Events.{State};
ghost use Rattle.set_model.specs.Views.{task_of};
ghost use Rattle.device_model.specs.Words.{Words};
ghost use Rattle.device_model.specs.Devices.{need_on};
ghost use Rattle.recovery.specs.Images.{device_at, words_of};
ghost use Rattle.recovery.specs.Reading.{IsRead};
ghost use Rattle.report_text.specs.Lines.{done_text, end_text, open_text};
ghost use Rattle.headline.specs.Runs.{Origin};
ghost use Rattle.kernel_core.specs.Events.{IsAt};
ghost use Rattle.simulation.specs.Places.{HasPlace};
ghost use Rattle.simulation.specs.Runs.{IsHalted, found_text, read_text, tail_text};

use crate::halt::Halt;
use crate::lines::put_line;
use crate::objects::put_objects;
use crate::place::Place;
use fram_dev::Fram;
use kernel_core::Kernel;
use kernel_core::laws::kernel_is_at_state;
use nv_base::{Line, Sink, TaskRec, WriteFault, put_all};
use recovery::laws::words_hold_one_state;
use recovery::{BootRefusal, read_state};
use report::LineBuf;
use shadow_index::State as DeviceState;
use task_set::TaskSet;

/// Puts the line of a task that is open.
fn put_open_task<K: Sink>(
    out: &mut K,
    text: &mut LineBuf,
    set: &TaskSet,
    task: TaskRec,
) -> Result<(), WriteFault>
    requires { task.program.0 < length set.now.programs }
    ensures all { let text = open_text set.now (task_of task) in
        OnOk result (PutsText text (K.seen out.old) (K.seen out.new)) }
    ensures front { let text = open_text set.now (task_of task) in
        OnErr result (PutsFront text (K.seen out.old) (K.seen out.new)) }
{
    text.put_open(set, task);
    put_all(out, text.bytes())
}

/// Puts a line for each of these tasks.
fn put_open_tasks<K: Sink>(
    out: &mut K,
    text: &mut LineBuf,
    set: &TaskSet,
    tasks: &[TaskRec],
) -> Result<(), WriteFault>
    requires { AllByRecursion (λ t. t.program.0 < length set.now.programs) tasks.now }
    ensures all { let text = flat_map (open_text set.now) (map task_of tasks.now) in
        OnOk result (PutsText text (K.seen out.old) (K.seen out.new)) }
    ensures front { let text = flat_map (open_text set.now) (map task_of tasks.now) in
        OnErr result (PutsFront text (K.seen out.old) (K.seen out.new)) }
{
    for task in tasks {
        let Ok(()) = put_open_task(out, text, set, *task) else {
            return Err(WriteFault);
        };
    }
    Ok(())
}

/// Puts the numbers of a state.
fn put_numbers<K: Sink>(
    out: &mut K,
    text: &mut LineBuf,
    state: &DeviceState,
) -> Result<(), WriteFault>
    ensures all { let s = state.now in let text = end_text s.clock.0 s.number.0 s.next.0 s.boots in
        OnOk result (PutsText text (K.seen out.old) (K.seen out.new)) }
    ensures front { let s = state.now in
        let text = end_text s.clock.0 s.number.0 s.next.0 s.boots in
        OnErr result (PutsFront text (K.seen out.old) (K.seen out.new)) }
{
    text.put_end(state.clock, state.number, state.next, state.boots);
    put_all(out, text.bytes())
}

/// Puts the last line.
fn put_done<K: Sink>(out: &mut K, text: &mut LineBuf) -> Result<(), WriteFault>
    ensures all { OnOk result (PutsText done_text (K.seen out.old) (K.seen out.new)) }
    ensures front { OnErr result (PutsFront done_text (K.seen out.old) (K.seen out.new)) }
{
    text.put_done();
    put_all(out, text.bytes())
}

/// Puts the state that was read back, with the objects' words as the device has them.
fn put_state<K: Sink, F: Fram>(
    dev: &mut F,
    set: &TaskSet,
    place: &mut Place,
    out: &mut K,
) -> Result<(), Halt>
    requires read { let words = words_of (F.log dev.old) (F.start dev.old) in
        IsRead set.now words place.old.state }
    requires long { let words = words_of (F.log dev.old) (F.start dev.old) in
        need_on (device_at set.now words) ≤ length (F.start dev.old) }
    requires room { MAX_SIZE ≤ vec_capacity place.old.words }
    requires programs { AllByRecursion (λ t. t.program.0 < length set.now.programs)
        place.old.state.tasks.items }
    ensures put { let words = words_of (F.log dev.old) (F.start dev.old) in
        OnOk result (PutsText (read_text set.now words) (K.seen out.old) (K.seen out.new)) }
    ensures halted { let words = words_of (F.log dev.old) (F.start dev.old) in
        IfErr result (IsHalted (read_text set.now words)
        (F.lost dev.old) (F.lost dev.new) (K.seen out.old) (K.seen out.new)) }
    ensures log { F.log dev.new ≡ F.log dev.old }
    ensures start { F.start dev.new ≡ F.start dev.old }
    ensures never_falls { F.lost dev.old ≤ F.lost dev.new }
{
    let Ok(()) = put_numbers(out, &mut place.text, &place.state) else {
        return Err(Halt::WriteFault);
    };
    if let Err(halt) = put_objects(dev, set, place, out) {
        return Err(halt);
    }
    let tasks = place.state.tasks.as_slice();
    let Ok(()) = put_open_tasks(out, &mut place.text, set, tasks) else {
        return Err(Halt::WriteFault);
    };
    match put_done(out, &mut place.text) {
        Ok(()) => Ok(()),
        Err(_) => Err(Halt::WriteFault),
    }
}

/// Puts the line of a finish that is durable and that no line has told, where there is one.
fn put_found<K: Sink>(out: &mut K, text: &mut LineBuf, kernel: &Kernel) -> Result<(), WriteFault>
    requires { (o : Origin) × (words : Words) × (s : State MachineState)
        × IsAt o kernel.now words s }
    ensures all { (o : Origin) (words : Words) (s : State MachineState)
        → IsAt o kernel.now words s
        → OnOk result (PutsText (found_text o s) (K.seen out.old) (K.seen out.new)) }
    ensures front { (o : Origin) (words : Words) (s : State MachineState)
        → IsAt o kernel.now words s
        → OnErr result (PutsFront (found_text o s) (K.seen out.old) (K.seen out.new)) }
{
    match kernel.close_line() {
        None => Ok(()),
        Some(entry) => put_line(out, text, kernel.set(), &Line::Found(entry)),
    }
}

/// Puts what comes after the last event. `WriteFault` where the sink failed, `DeviceLost` where the device lost a call.
/// Nothing is written to the device.
pub(crate) fn put_tail<K: Sink, F: Fram>(
    kernel: &Kernel,
    dev: &mut F,
    place: &mut Place,
    out: &mut K,
) -> Result<(), Halt>
    requires at { let words = words_of (F.log dev.old) (F.start dev.old) in
        (o : Origin) × (s : State MachineState) × IsAt o kernel.now words s }
    requires long { let words = words_of (F.log dev.old) (F.start dev.old) in
        need_on (device_at kernel.now.set words) ≤ length (F.start dev.old) }
    requires place { HasPlace kernel.now.set place.old }
    ensures put { let words = words_of (F.log dev.old) (F.start dev.old) in
        (o : Origin) (s : State MachineState) → IsAt o kernel.now words s
        → OnOk result (PutsText (tail_text o s) (K.seen out.old) (K.seen out.new)) }
    ensures halted { let words = words_of (F.log dev.old) (F.start dev.old) in
        (o : Origin) (s : State MachineState) → IsAt o kernel.now words s
        → IfErr result (IsHalted (tail_text o s)
        (F.lost dev.old) (F.lost dev.new) (K.seen out.old) (K.seen out.new)) }
    ensures log { F.log dev.new ≡ F.log dev.old }
    ensures start { F.start dev.new ≡ F.start dev.old }
    ensures never_falls { F.lost dev.old ≤ F.lost dev.new }
{
    kernel_is_at_state();
    words_hold_one_state();
    let Ok(()) = put_found(out, &mut place.text, kernel) else {
        return Err(Halt::WriteFault);
    };
    match read_state(dev, kernel.set(), &mut place.state) {
        Ok(()) => put_state(dev, kernel.set(), place, out),
        Err(BootRefusal::Lost) => Err(Halt::DeviceLost),
        Err(BootRefusal::Blank) => unreachable!(),
        Err(BootRefusal::Damaged(_)) => unreachable!(),
    }
}
