//! An event that tells nothing, where a few looks show that it is one.

ghost use Rattle.std.specs.Prelude.{◌≡◌, ◌<◌, ◌≤◌, IsTrue, OnErr, OnOk, Ok, is_some, length, not, false, true};
ghost use Rattle.std.specs.List.{list_any};
ghost use Rattle.nv_base.specs.Streams.{FaultCounted};
ghost use Rattle.nv_base.specs.declared.lines.Line.TheVariants.{Nothing};
ghost use Rattle.rv_core.specs.State.{MachineState};
ghost use Rattle.device_model.specs.Words.{Words};
ghost use Rattle.device_model.specs.Devices.{need_on};
ghost use Rattle.recovery.specs.Images.{device_at, words_of};
ghost use Rattle.schedule_model.specs.Parts.{IsOfCores};
ghost use Rattle.power_trace.specs.Events.{event_of};
ghost use Rattle.table_machine.specs.Tables.{Tables};
ghost use Rattle.task_queue.specs.Queues.{next_ready};
ghost use Rattle.core_seats.specs.Others.{saves_in, tasks_in};
ghost use Rattle.kernel_core.specs.Events.{CutsEvent, SimulatesEvent, Stands};
ghost use Rattle.kernel_core.specs.Keeping.{IsLawful, Keeps};
ghost use Rattle.kernel_core.specs.Steps.{KeepsSet, Passes};
ghost use Rattle.kernel_core.specs.Turns.{GoesAlone, is_on};
ghost use Rattle.kernel_core.specs.declared.kernel.Power.TheVariants.{On};

use crate::kernel::{Kernel, Power};
use core_seats::laws::held_tasks_are_not_ready;
use core_seats::{Seat, is_saving};
use fram_dev::{Fram, Lost};
use nv_base::{CoreId, TaskId, TaskRec};
use power_trace::Event;
use vol_copy::Doing;

impl Kernel {
    /// Takes an event that tells nothing, where a few looks show that it is one: a step of a machine, or of a core that has
    /// nothing to do, or that waits, a write of a commit, a word that a boot reads. Whether it was taken, as each step is
    /// that a machine takes alone: if not, nothing has changed, and the event is a `turn`. `Lost` as of `turn`.
    #[inline(always)]
    pub fn pass<F: Fram>(&mut self, dev: &mut F, event: Event) -> Result<bool, Lost>
        requires at { Stands self.old (words_of (F.log dev.old) (F.start dev.old)) }
        requires core { IsOfCores self.old.set.cores (event_of event) }
        requires few { length self.old.listing.items < self.old.room }
        requires room { let words = words_of (F.log dev.old) (F.start dev.old) in
            need_on (device_at self.old.set words) ≤ length (F.start dev.old) }
        requires boots { words_of (F.log dev.old) (F.start dev.old) 2 < 4294967295 }
        requires live { self.old.lost ≡ false }
        ensures simulates { let words = words_of (F.log dev.old) (F.start dev.old) in
            let later = words_of (F.log dev.new) (F.start dev.new) in result ≡ Ok true
            → SimulatesEvent self.old event words (F.log dev.old) self.new later (F.log dev.new)
            Nothing }
        ensures goes { result ≡ Ok false → (core : CoreId) → event ≡ Event.Core core
            → GoesAlone self.old core.0 → ⊥ }
        ensures kept { result ≡ Ok false → (self.new ≡ self.old) × (dev.new ≡ dev.old) }
        ensures cut { let words = words_of (F.log dev.old) (F.start dev.old) in
            let later = words_of (F.log dev.new) (F.start dev.new) in
            OnErr result
            (CutsEvent self.old event words (F.log dev.old) later (F.log dev.new)) }
        ensures rest { KeepsSet self.old self.new }
        ensures live { OnOk result (self.new.lost ≡ false) }
        ensures lost { OnErr result (self.new.lost ≡ true) }
        ensures failed { OnErr result (FaultCounted (F.lost dev.old) (F.lost dev.new)) }
        ensures start { F.start dev.new ≡ F.start dev.old }
        ensures never_falls { F.lost dev.old ≤ F.lost dev.new }
    {
        let Event::Core(core) = event else {
            return Ok(false);
        };
        if self.pass_step(core) {
            return Ok(true);
        }
        match self.pass_on_device(dev, core) {
            Ok(taken) => Ok(taken),
            Err(lost) => {
                self.lost = true;
                Err(lost)
            }
        }
    }

    // A step of a core. Most of them are taken here, by its machine.
    #[inline(always)]
    fn pass_step(&mut self, core: CoreId) -> bool
        requires lawful { (words : Words) × (t : Tables MachineState) × Keeps self.old words t
            × IsLawful self.old words t }
        requires core { core.0 < self.old.set.cores }
        ensures passes { IsTrue result → Passes self.old core.0 self.new }
        ensures goes { result ≡ false → GoesAlone self.old core.0 → ⊥ }
        ensures kept { result ≡ false → self.new ≡ self.old }
        ensures rest { KeepsSet self.old self.new }
        ensures live { self.new.lost ≡ self.old.lost }
    {
        if let Power::Boot(_) = self.power {
            return core.0 != 0;
        }
        if self.seats[usize::from(core.0)].go() {
            return true;
        }
        self.is_still(core)
    }

    // Whether a core has nothing to do, or waits: then its step leaves all as it is.
    #[inline(always)]
    fn is_still(&self, core: CoreId) -> bool
        requires lawful { (words : Words) × (t : Tables MachineState) × Keeps self.now words t
            × IsLawful self.now words t }
        requires on { self.now.power ≡ On }
        requires core { core.0 < self.now.set.cores }
        ensures { IsTrue result → Passes self.now core.0 self.now }
    {
        held_tasks_are_not_ready();
        let seat = &self.seats[usize::from(core.0)];
        if seat.saving.is_some() {
            return false;
        }
        match seat.attempt.doing() {
            Doing::Nothing => !self.has_ready(),
            Doing::Waits => self.is_saving(),
            _ => false,
        }
    }

    // Whether a finish commits: most often the one that began last.
    #[inline(always)]
    fn is_saving(&self) -> bool
        ensures { result ≡ saves_in self.now.seats.items }
    {
        match self.seats.get(self.saver) {
            Some(seat) if seat.saving.is_some() => true,
            _ => is_saving(&self.seats),
        }
    }

    // Whether a task is open that no core holds.
    #[inline(always)]
    fn has_ready(&self) -> bool
        ensures { let seats = self.now.seats.items in
            result ≡ is_some (next_ready (tasks_in seats) self.now.committed.queue.tasks) }
    {
        has_free(self.committed.queue.open_tasks(), &self.seats)
    }
}

// Whether no core holds one of some tasks.
#[inline(always)]
fn has_free(tasks: &[TaskRec], seats: &[Seat]) -> bool
    ensures { result ≡ list_any (λ t. not (list_any (λ s. is_on t.id.0 s) seats.now)) tasks.now }
{
    tasks.iter().any(|task| !holds(seats, task.id))
}

// Whether a core holds a task.
#[inline(always)]
fn holds(seats: &[Seat], task: TaskId) -> bool
    ensures { result ≡ list_any (λ s. is_on task.0 s) seats.now }
{
    seats.iter().any(|seat| is_on(seat, task))
}

// Whether this one does.
#[inline(always)]
fn is_on(seat: &Seat, task: TaskId) -> bool
    ensures { result ≡ is_on task.0 seat.now }
{
    match seat.task() {
        None => false,
        Some(held) => held == task,
    }
}
