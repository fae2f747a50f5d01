//! One step of a try that runs.

ghost use Rattle.std.specs.Prelude.{◌≡◌};
ghost use Rattle.rv_core.specs.State.{MachineState};
ghost use Rattle.device_model.specs.Words.{Words};
ghost use Rattle.table_machine.specs.Tables.{Tables};
ghost use Rattle.vol_copy.specs.declared.attempt.Stage.TheVariants.{Running};
ghost use Rattle.kernel_core.specs.Keeping.{IsLawful, Keeps};
ghost use Rattle.kernel_core.specs.Steps.{KeepsSet};
ghost use Rattle.kernel_core.specs.Turns.{IsAtStage, SeatTurns};

use crate::kernel::Kernel;
use nv_base::{CoreId, Line};
use ver_table::tabled::{chosen_is_place, object_is_tabled};

impl Kernel {
    /// One step of the core's machine, with the service that it calls. A try that can read no version is dropped, and
    /// told.
    pub(crate) fn run(&mut self, core: CoreId) -> Line
        requires lawful { (words : Words) × (t : Tables MachineState) × Keeps self.old words t
            × IsLawful self.old words t }
        requires running { IsAtStage self.old core.0 (λ s. s ≡ Running) }
        ensures turns { SeatTurns self.old core.0 self.new result }
        ensures rest { KeepsSet self.old self.new }
        ensures live { self.new.lost ≡ self.old.lost }
    {
        object_is_tabled();
        chosen_is_place();
        let seat = &mut self.seats[usize::from(core.0)];
        let task = seat.attempt.task();
        match seat.run(&self.set, &self.committed.versions) {
            None => Line::Nothing,
            Some(stale) => Line::Stale {
                core,
                task,
                lo: stale.lo,
                hi: stale.hi,
            },
        }
    }
}
