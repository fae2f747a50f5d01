//! A verdict on a try that has ended: its commit begins, or its core gives it up.

ghost use Rattle.std.specs.Prelude.{◌≡◌, true, false};
ghost use Rattle.rv_core.specs.State.{MachineState};
ghost use Rattle.device_model.specs.Words.{Words};
ghost use Rattle.table_machine.specs.Tables.{Tables};
ghost use Rattle.vol_copy.specs.Stages.{is_waiting};
ghost use Rattle.core_seats.specs.Others.{saves_in};
ghost use Rattle.validate.specs.declared.verdict.Verdict.TheVariants.{Granted};
ghost use Rattle.kernel_core.specs.Keeping.{IsLawful, Keeps};
ghost use Rattle.kernel_core.specs.Steps.{KeepsSet};
ghost use Rattle.kernel_core.specs.Turns.{IsAtStage, SeatTurns};
ghost use Rattle.kernel_core.specs.Deciding.{GivesUp, IsVerdictOn};

use crate::kernel::Kernel;
use commit_writer::after::finish_into;
use core_seats::{is_saving, views_beside};
use nv_base::{CoreId, Line, TaskId};
use shadow_index::Plan;
use validate::{Verdict, validate};

impl Kernel {
    /// The verdict on a try that has ended: a commit begins, or the core gives its task up and tells why. While another
    /// core's finish commits, nothing happens.
    pub(crate) fn decide(&mut self, core: CoreId) -> Line
        requires lawful { (words : Words) × (t : Tables MachineState) × Keeps self.old words t
            × IsLawful self.old words t }
        requires ready { IsAtStage self.old core.0 (λ s. is_waiting s ≡ true) }
        ensures turns { SeatTurns self.old core.0 self.new result }
        ensures rest { KeepsSet self.old self.new }
        ensures live { self.new.lost ≡ self.old.lost }
    {
        if is_saving(&self.seats) {
            return Line::Nothing;
        }
        match self.verdict_on(core) {
            Verdict::Granted(plan) => {
                self.begin_commit(core, &plan);
                Line::Nothing
            }
            Verdict::Empty { lo, hi } => {
                let task = self.give_up(core);
                Line::RefuseEmpty { core, task, lo, hi }
            }
            Verdict::Slots(object) => {
                let task = self.give_up(core);
                Line::RefuseSlots { core, task, object }
            }
            Verdict::Records { pending, spawns } => {
                let task = self.give_up(core);
                Line::RefuseRecords {
                    core,
                    task,
                    pending,
                    spawns,
                }
            }
        }
    }

    // The verdict, beside what is kept of the tries on the other cores.
    fn verdict_on(&self, core: CoreId) -> Verdict
        requires lawful { (words : Words) × (t : Tables MachineState) × Keeps self.now words t
            × IsLawful self.now words t }
        requires ready { IsAtStage self.now core.0 (λ s. is_waiting s ≡ true) }
        ensures verdict { IsVerdictOn self.now core.0 result }
    {
        let (views, count) = views_beside(&self.seats, usize::from(core.0));
        let seat = &self.seats[usize::from(core.0)];
        let committed = &self.committed;
        validate(
            &committed.versions,
            &committed.queue,
            &seat.attempt,
            seat.reads,
            &views[..count],
            committed.state.clock,
            committed.state.number,
        )
    }

    // The core gives its task up.
    fn give_up(&mut self, core: CoreId) -> TaskId
        requires keeps { (words : Words) × (t : Tables MachineState) × Keeps self.old words t }
        requires ready { IsAtStage self.old core.0 (λ s. is_waiting s ≡ true) }
        ensures gives_up { GivesUp self.old core.0 self.new result.0 }
        ensures rest { KeepsSet self.old self.new }
        ensures live { self.new.lost ≡ self.old.lost }
    {
        let seat = &mut self.seats[usize::from(core.0)];
        let task = seat.attempt.task();
        seat.clear();
        task
    }

    // The commit of a finish that is granted begins.
    fn begin_commit(&mut self, core: CoreId, plan: &Plan)
        requires lawful { (words : Words) × (t : Tables MachineState) × Keeps self.old words t
            × IsLawful self.old words t }
        requires ready { IsAtStage self.old core.0 (λ s. is_waiting s ≡ true) }
        requires alone { saves_in self.old.seats.items ≡ false }
        requires granted { IsVerdictOn self.old core.0 (Granted plan.now) }
        ensures turns { SeatTurns self.old core.0 self.new Line.Nothing }
        ensures rest { KeepsSet self.old self.new }
        ensures live { self.new.lost ≡ self.old.lost }
    {
        let number = usize::from(core.0);
        let seat = &mut self.seats[number];
        let committed = &mut self.committed;
        let spawns = seat.attempt.spawns();
        finish_into(
            &self.set,
            &committed.state,
            plan,
            spawns,
            &mut committed.after,
        );
        self.writer
            .begin(&self.set, plan, &committed.state, &committed.after);
        seat.grant(plan.granted);
        self.saver = number;
    }
}
