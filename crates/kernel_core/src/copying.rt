//! One word of a copy, from the device.

ghost use Rattle.std.specs.Prelude.{◌≡◌, ◌<◌, ◌≤◌, IfOk, OnErr, length};
ghost use Rattle.nv_base.specs.Streams.{FaultCounted};
ghost use Rattle.rv_core.specs.State.{MachineState};
ghost use Rattle.set_model.specs.Sets.{object_at};
ghost use Rattle.set_model.specs.Limits.{IsTaskSet};
ghost use Rattle.device_model.specs.Devices.{Device, need_on, slot_on};
ghost use Rattle.shadow_index.specs.Tells.{IsLayoutOf};
ghost use Rattle.table_machine.specs.Tables.{Tables};
ghost use Rattle.recovery.specs.Images.{device_at, words_of};
ghost use Rattle.vol_copy.specs.Stages.{IsCopying};
ghost use Rattle.kernel_core.specs.Keeping.{IsLawful, Keeps};
ghost use Rattle.kernel_core.specs.Steps.{KeepsSet};
ghost use Rattle.kernel_core.specs.Turns.{IsAtStage, TurnsOn};

use crate::kernel::Kernel;
use fram_dev::{Fram, Lost};
use nv_base::{CoreId, Line, ObjId};
use vol_copy::Doing;

impl Kernel {
    /// The next word of the core's copy, in the slot that it copies from. `Lost` where the device lost the call.
    pub(crate) fn copy<F: Fram>(&mut self, dev: &mut F, core: CoreId) -> Result<Line, Lost>
        requires lawful { let words = words_of (F.log dev.old) (F.start dev.old) in
            (t : Tables MachineState) × Keeps self.old words t × IsLawful self.old words t }
        requires copying { IsAtStage self.old core.0 IsCopying }
        requires room { let words = words_of (F.log dev.old) (F.start dev.old) in
            need_on (device_at self.old.set words) ≤ length (F.start dev.old) }
        ensures turns { let words = words_of (F.log dev.old) (F.start dev.old) in
            IfOk result (TurnsOn words self.old core.0 self.new) }
        ensures kept { OnErr result (self.new ≡ self.old) }
        ensures log { F.log dev.new ≡ F.log dev.old }
        ensures start { F.start dev.new ≡ F.start dev.old }
        ensures failed { OnErr result (FaultCounted (F.lost dev.old) (F.lost dev.new)) }
        ensures never_falls { F.lost dev.old ≤ F.lost dev.new }
        ensures rest { KeepsSet self.old self.new }
        ensures live { self.new.lost ≡ self.old.lost }
    {
        let n = usize::from(core.0);
        let Doing::Copies { object, copied } = self.seats[n].attempt.doing() else {
            unreachable!()
        };
        let place = self.source(object, self.seats[n].slot, copied);
        let word = dev.read(place)?;
        self.seats[n].copy(word);
        Ok(Line::Nothing)
    }

    // The place of a word of a slot.
    fn source(&self, object: ObjId, slot: u8, word: u8) -> u32
        requires set { (d : Device) × (d.set ≡ self.now.set) × IsLayoutOf d self.now.layout }
        requires limits { IsTaskSet self.now.set }
        requires object { object.0 < length self.now.set.objects }
        requires slot { slot < (object_at self.now.set object.0).slots }
        requires word { word < (object_at self.now.set object.0).size }
        ensures { (d : Device) → d.set ≡ self.now.set → IsLayoutOf d self.now.layout
            → result ≡ slot_on d object.0 slot word }
    {
        // that the object and its slot are within the limits, and that each place is a word
        let _ = self.set.objects();
        let _ = self.layout.need();
        self.layout.slot_at(object, slot) + u32::from(word)
    }
}
