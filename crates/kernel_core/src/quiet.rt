//! An event on the device that tells nothing: a write of a commit, or a word that a boot reads.

ghost use Rattle.std.specs.Prelude.{◌≡◌, ◌<◌, ◌≤◌, OnErr, Ok, false, length, true};
ghost use Rattle.nv_base.specs.Streams.{FaultCounted};
ghost use Rattle.nv_base.specs.declared.lines.Line.TheVariants.{Nothing};
ghost use Rattle.rv_core.specs.State.{MachineState};
ghost use Rattle.device_model.specs.Devices.{need_on};
ghost use Rattle.table_machine.specs.Tables.{Tables};
ghost use Rattle.recovery.specs.Images.{device_at, words_of};
ghost use Rattle.recovery.specs.declared.boot.Boot.{Boot as Booting};
ghost use Rattle.kernel_core.specs.Keeping.{IsLawful, Keeps};
ghost use Rattle.kernel_core.specs.Steps.{HasImage, HasWritten, KeepsSet, MayHaveWritten, Steps};

use crate::kernel::{Kernel, Power};
use fram_dev::{Fram, Lost};
use nv_base::CoreId;
use recovery::{BootRefusal, BootTurn};

impl Kernel {
    /// A core's step on the device that tells nothing. Whether it was taken: if not, nothing has changed, and the step is
    /// a `turn`. `Lost` where the device lost a call: then what the step writes is made, or it is not.
    #[inline(never)]
    pub(crate) fn pass_on_device<F: Fram>(
        &mut self,
        dev: &mut F,
        core: CoreId,
    ) -> Result<bool, Lost>
        requires lawful { let words = words_of (F.log dev.old) (F.start dev.old) in
            (t : Tables MachineState) × Keeps self.old words t × IsLawful self.old words t }
        requires core { core.0 < self.old.set.cores }
        requires room { let words = words_of (F.log dev.old) (F.start dev.old) in
            need_on (device_at self.old.set words) ≤ length (F.start dev.old) }
        requires boots { words_of (F.log dev.old) (F.start dev.old) 2 < 4294967295 }
        ensures steps { let words = words_of (F.log dev.old) (F.start dev.old) in
            let later = words_of (F.log dev.new) (F.start dev.new) in
            result ≡ Ok true → Steps self.old core.0 words self.new later Nothing }
        ensures written { let words = words_of (F.log dev.old) (F.start dev.old) in
            result ≡ Ok true
            → HasWritten self.old core.0 words (F.log dev.old) (F.log dev.new) }
        ensures image { let words = words_of (F.log dev.old) (F.start dev.old) in
            let later = words_of (F.log dev.new) (F.start dev.new) in
            result ≡ Ok true → HasImage self.old core.0 words later }
        ensures kept { result ≡ Ok false → (self.new ≡ self.old) × (dev.new ≡ dev.old) }
        ensures cut { let words = words_of (F.log dev.old) (F.start dev.old) in
            let later = words_of (F.log dev.new) (F.start dev.new) in
            OnErr result
            (MayHaveWritten self.old core.0 words later (F.log dev.old) (F.log dev.new)) }
        ensures rest { KeepsSet self.old self.new }
        ensures live { self.new.lost ≡ self.old.lost }
        ensures failed { OnErr result (FaultCounted (F.lost dev.old) (F.lost dev.new)) }
        ensures start { F.start dev.new ≡ F.start dev.old }
        ensures never_falls { F.lost dev.old ≤ F.lost dev.new }
    {
        if let Power::Boot(_) = self.power {
            return self.boot_reads(dev, core);
        }
        match self.seats[usize::from(core.0)].saving {
            Some(saving) if !saving.is_whole => match self.write(dev, core) {
                Ok(()) => Ok(true),
                Err(lost) => Err(lost),
            },
            _ => Ok(false),
        }
    }

    // A step while a boot goes on: core 0 reads the next word, another core does nothing. The last turn, which counts the
    // boot, is not taken.
    fn boot_reads<F: Fram>(&mut self, dev: &mut F, core: CoreId) -> Result<bool, Lost>
        requires keeps { let words = words_of (F.log dev.old) (F.start dev.old) in
            (t : Tables MachineState) × Keeps self.old words t × IsLawful self.old words t }
        requires booting { (b : Booting) × (self.old.power ≡ Power.Boot b) }
        requires room { let words = words_of (F.log dev.old) (F.start dev.old) in
            need_on (device_at self.old.set words) ≤ length (F.start dev.old) }
        requires boots { words_of (F.log dev.old) (F.start dev.old) 2 < 4294967295 }
        ensures steps { let words = words_of (F.log dev.old) (F.start dev.old) in
            let later = words_of (F.log dev.new) (F.start dev.new) in
            result ≡ Ok true → Steps self.old core.0 words self.new later Nothing }
        ensures written { let words = words_of (F.log dev.old) (F.start dev.old) in
            result ≡ Ok true
            → HasWritten self.old core.0 words (F.log dev.old) (F.log dev.new) }
        ensures image { let words = words_of (F.log dev.old) (F.start dev.old) in
            let later = words_of (F.log dev.new) (F.start dev.new) in
            result ≡ Ok true → HasImage self.old core.0 words later }
        ensures kept { result ≡ Ok false → (self.new ≡ self.old) × (dev.new ≡ dev.old) }
        ensures cut { let words = words_of (F.log dev.old) (F.start dev.old) in
            let later = words_of (F.log dev.new) (F.start dev.new) in
            OnErr result
            (MayHaveWritten self.old core.0 words later (F.log dev.old) (F.log dev.new)) }
        ensures rest { KeepsSet self.old self.new }
        ensures live { self.new.lost ≡ self.old.lost }
        ensures failed { OnErr result (FaultCounted (F.lost dev.old) (F.lost dev.new)) }
        ensures start { F.start dev.new ≡ F.start dev.old }
        ensures never_falls { F.lost dev.old ≤ F.lost dev.new }
    {
        if core.0 != 0 {
            return Ok(true);
        }
        let Power::Boot(boot) = &mut self.power else {
            unreachable!()
        };
        if !boot.reads() {
            return Ok(false);
        }
        match boot.turn(dev, &self.set, &mut self.committed.after) {
            Ok(BootTurn::More) => Ok(true),
            Ok(BootTurn::Done) => unreachable!(),
            Err(BootRefusal::Lost) => Err(Lost),
            Err(BootRefusal::Blank) => unreachable!(),
            Err(BootRefusal::Damaged(_)) => unreachable!(),
        }
    }
}
