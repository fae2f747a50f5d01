//! One event of a kernel over a device.

ghost use Rattle.std.specs.Prelude.{◌≡◌, ◌<◌, ◌≤◌, IfOk, OnErr, OnOk, length, true, false};
ghost use Rattle.nv_base.specs.Streams.{FaultCounted};
ghost use Rattle.rv_core.specs.State.{MachineState};
ghost use Rattle.schedule_model.specs.Parts.{IsOfCores};
ghost use Rattle.power_trace.specs.Events.{event_of};
ghost use Rattle.device_model.specs.Devices.{need_on};
ghost use Rattle.table_machine.specs.Tables.{Tables};
ghost use Rattle.recovery.specs.Images.{device_at, words_of};
ghost use Rattle.kernel_core.specs.Keeping.{IsLawful, Keeps};
ghost use Rattle.kernel_core.specs.Steps.{HasImage, HasWritten, KeepsSet, MayHaveWritten, Steps};
ghost use Rattle.kernel_core.specs.Events.{CutsEvent, SimulatesEvent, Stands};
ghost use Rattle.kernel_core.specs.Turns.{IsAtStage, TurnsOn};

use crate::kernel::{Kernel, Power};
use fram_dev::{Fram, Lost};
use nv_base::{CoreId, Line};
use power_trace::Event;
use vol_copy::Doing;

impl Kernel {
    /// One event, with one write to the device at most: its line. `Lost` where the device lost the call: then its write is
    /// made, or it is not, and the kernel takes no event any more.
    #[inline(never)]
    pub fn turn<F: Fram>(&mut self, dev: &mut F, event: Event) -> Result<Line, Lost>
        requires at { Stands self.old (words_of (F.log dev.old) (F.start dev.old)) }
        requires core { IsOfCores self.old.set.cores (event_of event) }
        requires few { length self.old.listing.items < self.old.room }
        requires room { let words = words_of (F.log dev.old) (F.start dev.old) in
            need_on (device_at self.old.set words) ≤ length (F.start dev.old) }
        requires boots { words_of (F.log dev.old) (F.start dev.old) 2 < 4294967295 }
        requires live { self.old.lost ≡ false }
        ensures simulates { let words = words_of (F.log dev.old) (F.start dev.old) in
            let later = words_of (F.log dev.new) (F.start dev.new) in IfOk result
            (SimulatesEvent self.old event words (F.log dev.old) self.new later (F.log dev.new)) }
        ensures cut { let words = words_of (F.log dev.old) (F.start dev.old) in
            let later = words_of (F.log dev.new) (F.start dev.new) in
            OnErr result
            (CutsEvent self.old event words (F.log dev.old) later (F.log dev.new)) }
        ensures rest { KeepsSet self.old self.new }
        ensures live { OnOk result (self.new.lost ≡ false) }
        ensures lost { OnErr result (self.new.lost ≡ true) }
        ensures failed { OnErr result (FaultCounted (F.lost dev.old) (F.lost dev.new)) }
        ensures start { F.start dev.new ≡ F.start dev.old }
        ensures never_falls { F.lost dev.old ≤ F.lost dev.new }
    {
        match event {
            Event::Fail => Ok(self.fail()),
            Event::Core(core) => match self.step(dev, core) {
                Ok(line) => Ok(line),
                Err(lost) => {
                    self.lost = true;
                    Err(lost)
                }
            },
        }
    }

    // A core takes one step.
    fn step<F: Fram>(&mut self, dev: &mut F, core: CoreId) -> Result<Line, Lost>
        requires lawful { let words = words_of (F.log dev.old) (F.start dev.old) in
            (t : Tables MachineState) × Keeps self.old words t × IsLawful self.old words t }
        requires core { core.0 < self.old.set.cores }
        requires few { length self.old.listing.items < self.old.room }
        requires room { let words = words_of (F.log dev.old) (F.start dev.old) in
            need_on (device_at self.old.set words) ≤ length (F.start dev.old) }
        requires boots { words_of (F.log dev.old) (F.start dev.old) 2 < 4294967295 }
        ensures steps { let words = words_of (F.log dev.old) (F.start dev.old) in
            let later = words_of (F.log dev.new) (F.start dev.new) in
            IfOk result (Steps self.old core.0 words self.new later) }
        ensures written { let words = words_of (F.log dev.old) (F.start dev.old) in
            OnOk result (HasWritten self.old core.0 words (F.log dev.old) (F.log dev.new)) }
        ensures image { let words = words_of (F.log dev.old) (F.start dev.old) in
            let later = words_of (F.log dev.new) (F.start dev.new) in
            OnOk result (HasImage self.old core.0 words later) }
        ensures cut { let words = words_of (F.log dev.old) (F.start dev.old) in
            let later = words_of (F.log dev.new) (F.start dev.new) in
            OnErr result
            (MayHaveWritten self.old core.0 words later (F.log dev.old) (F.log dev.new)) }
        ensures rest { KeepsSet self.old self.new }
        ensures lost { self.new.lost ≡ self.old.lost }
        ensures failed { OnErr result (FaultCounted (F.lost dev.old) (F.lost dev.new)) }
        ensures start { F.start dev.new ≡ F.start dev.old }
        ensures never_falls { F.lost dev.old ≤ F.lost dev.new }
    {
        if let Power::Boot(_) = self.power {
            return self.boot_turn(dev, core);
        }
        match self.seats[usize::from(core.0)].saving {
            None => self.step_try(dev, core),
            Some(saving) if saving.is_whole => Ok(self.join(core)),
            Some(_) => match self.write(dev, core) {
                Ok(()) => Ok(Line::Nothing),
                Err(lost) => Err(lost),
            },
        }
    }

    // A core of which no finish commits takes one step.
    fn step_try<F: Fram>(&mut self, dev: &mut F, core: CoreId) -> Result<Line, Lost>
        requires lawful { let words = words_of (F.log dev.old) (F.start dev.old) in
            (t : Tables MachineState) × Keeps self.old words t × IsLawful self.old words t }
        requires trying { IsAtStage self.old core.0 (λ s. Unit {0}) }
        requires room { let words = words_of (F.log dev.old) (F.start dev.old) in
            need_on (device_at self.old.set words) ≤ length (F.start dev.old) }
        ensures steps { let words = words_of (F.log dev.old) (F.start dev.old) in
            IfOk result (TurnsOn words self.old core.0 self.new) }
        ensures log { F.log dev.new ≡ F.log dev.old }
        ensures rest { KeepsSet self.old self.new }
        ensures lost { self.new.lost ≡ self.old.lost }
        ensures failed { OnErr result (FaultCounted (F.lost dev.old) (F.lost dev.new)) }
        ensures start { F.start dev.new ≡ F.start dev.old }
        ensures never_falls { F.lost dev.old ≤ F.lost dev.new }
    {
        match self.seats[usize::from(core.0)].attempt.doing() {
            Doing::Nothing => Ok(self.start(core)),
            Doing::Runs => Ok(self.run(core)),
            Doing::Fetches(_) => unreachable!(),
            Doing::Copies { .. } => self.copy(dev, core),
            Doing::Waits => Ok(self.decide(core)),
        }
    }
}
