//! A core without a task takes the least open one that no core holds.

ghost use Rattle.std.specs.Prelude.{◌≡◌};
ghost use Rattle.device_model.specs.Words.{Words};
ghost use Rattle.rv_core.specs.State.{MachineState};
ghost use Rattle.table_machine.specs.Tables.{Tables};
ghost use Rattle.vol_copy.specs.declared.attempt.Stage.TheVariants.{Blank};
ghost use Rattle.kernel_core.specs.Keeping.{Keeps};
ghost use Rattle.kernel_core.specs.Steps.{KeepsSet};
ghost use Rattle.kernel_core.specs.Turns.{IsAtStage, SeatTurns};

use crate::kernel::Kernel;
use core_seats::held;
use core_seats::laws::held_tasks_are_not_ready;
use nv_base::{CoreId, Line};

impl Kernel {
    /// The try of a task begins at the clock, if there is one.
    pub(crate) fn start(&mut self, core: CoreId) -> Line
        requires keeps { (words : Words) × (t : Tables MachineState) × Keeps self.old words t }
        requires blank { IsAtStage self.old core.0 (λ s. s ≡ Blank) }
        ensures turns { SeatTurns self.old core.0 self.new result }
        ensures rest { KeepsSet self.old self.new }
        ensures live { self.new.lost ≡ self.old.lost }
    {
        let (tasks, count) = held(&self.seats);
        held_tasks_are_not_ready();
        let Some(task) = self.committed.queue.next_ready(&tasks[..count]) else {
            return Line::Nothing;
        };
        let clock = self.committed.state.clock;
        self.seats[usize::from(core.0)].start(&self.set, task, clock);
        Line::Start {
            core,
            task: task.id,
            at: clock,
        }
    }
}
