//! One write of a core's commit, and its finish that joins.

ghost use Rattle.std.specs.Prelude.{◌≡◌, ◌<◌, ◌≤◌, ◌⊎◌, OnErr, OnOk, false, true, length};
ghost use Rattle.nv_base.specs.Streams.{FaultCounted};
ghost use Rattle.rv_core.specs.State.{MachineState};
ghost use Rattle.device_model.specs.Devices.{need_on};
ghost use Rattle.device_model.specs.Words.{Words};
ghost use Rattle.recovery.specs.Images.{device_at, words_of};
ghost use Rattle.table_machine.specs.Tables.{Tables};
ghost use Rattle.kernel_core.specs.Cuts.{AreCut};
ghost use Rattle.kernel_core.specs.Keeping.{IsLawful, Keeps};
ghost use Rattle.kernel_core.specs.Steps.{KeepsSet};
ghost use Rattle.kernel_core.specs.Turns.{CoreTurns, CoreWrites, IsSavingAt};

use crate::kernel::Kernel;
use commit_writer::Turn;
use committed_state::Joining;
use core_seats::Seat;
use fram_dev::{Fram, Lost};
use nv_base::{CoreId, Entry, Line, ObjSet, Point};
use vol_copy::Attempt;

impl Kernel {
    /// One write of the core's commit, which tells nothing. `Lost` where the device lost it: then it is made, or it is not.
    pub(crate) fn write<F: Fram>(&mut self, dev: &mut F, core: CoreId) -> Result<(), Lost>
        requires lawful { let words = words_of (F.log dev.old) (F.start dev.old) in
            (t : Tables MachineState) × Keeps self.old words t × IsLawful self.old words t }
        requires saving { IsSavingAt self.old core.0 false }
        requires room { let words = words_of (F.log dev.old) (F.start dev.old) in
            need_on (device_at self.old.set words) ≤ length (F.start dev.old) }
        ensures turns { let words = words_of (F.log dev.old) (F.start dev.old) in
            let later = words_of (F.log dev.new) (F.start dev.new) in
            OnOk result (CoreTurns self.old core.0 self.new words later Line.Nothing) }
        ensures written { let words = words_of (F.log dev.old) (F.start dev.old) in
            let later = words_of (F.log dev.new) (F.start dev.new) in
            OnOk result (CoreWrites self.old core.0 words later (F.log dev.old) (F.log dev.new)) }
        ensures lost { let words = words_of (F.log dev.old) (F.start dev.old) in
            let later = words_of (F.log dev.new) (F.start dev.new) in
            OnErr result ((F.log dev.new ≡ F.log dev.old)
            ⊎ CoreWrites self.old core.0 words later (F.log dev.old) (F.log dev.new)) }
        ensures same { OnErr result ((self.new ≡ record self.old { writer = self.new.writer })
            × (self.new.writer.job ≡ self.old.writer.job)) }
        ensures start { F.start dev.new ≡ F.start dev.old }
        ensures failed { OnErr result (FaultCounted (F.lost dev.old) (F.lost dev.new)) }
        ensures never_falls { F.lost dev.old ≤ F.lost dev.new }
        ensures rest { KeepsSet self.old self.new }
        ensures live { self.new.lost ≡ self.old.lost }
    {
        let seat = usize::from(core.0);
        match self.writer.turn(dev, &self.set, &self.seats[seat].attempt) {
            Ok(Turn::Wrote) => Ok(()),
            Ok(Turn::Flipped) => {
                self.seats[seat].complete();
                Ok(())
            }
            Err(lost) => Err(lost),
        }
    }

    /// The core's finish joins, whose writes are all made: its line.
    pub(crate) fn join(&mut self, core: CoreId) -> Line
        requires lawful { (words : Words) × (t : Tables MachineState)
            × Keeps self.old words t × IsLawful self.old words t }
        requires saving { IsSavingAt self.old core.0 true }
        requires few { length self.old.listing.items < self.old.room }
        ensures turns { (words : Words) → CoreTurns self.old core.0 self.new words words result }
        ensures rest { KeepsSet self.old self.new }
        ensures live { self.new.lost ≡ self.old.lost }
    {
        let number = usize::from(core.0);
        let seat = &self.seats[number];
        let Some(saving) = seat.saving else {
            unreachable!()
        };
        let finish = finish_of(&seat.attempt, saving.entry);
        let root = self.writer.next_root();
        self.committed
            .join(&self.set, &finish, seat.attempt.spawns(), root);
        cut_all(&mut self.seats, finish.point, finish.written);
        self.listing.push_reserved(saving.entry);
        self.seats[number].clear();
        Line::Finish(saving.entry)
    }
}

// The finish of an attempt.
fn finish_of(attempt: &Attempt, entry: Entry) -> Joining
    ensures task { result.task ≡ entry.task }
    ensures point { result.point ≡ entry.point }
    ensures reads { result.reads ≡ attempt.now.reads }
    ensures written { result.written ≡ attempt.now.written }
{
    Joining {
        task: entry.task,
        point: entry.point,
        reads: attempt.reads(),
        written: attempt.written(),
    }
}

// A finish at a point, which wrote these objects, cuts what the tries have read.
fn cut_all(seats: &mut Vec<Seat>, point: Point, written: ObjSet)
    ensures { AreCut point.0 written (length seats.old.items) seats.old.items seats.new.items }
{
    for n in 0..seats.len() {
        seats[n].cut(point, written);
    }
}
