//! Power fails, and a boot reads what the device has.

ghost use Rattle.std.specs.Prelude.{◌≡◌, ◌<◌, ◌≤◌, IfOk, OnErr, OnOk, length, replicate, vec_capacity, vec_len, None};
ghost use Rattle.std.specs.List.{AllByRecursion};
ghost use Rattle.std.specs.Option.{option_or};
ghost use Rattle.rv_core.specs.State.{MachineState};
ghost use Rattle.nv_base.specs.Streams.{FaultCounted};
ghost use Rattle.set_model.specs.Sets.{TaskSet as Set};
ghost use Rattle.device_model.specs.Words.{Words};
ghost use Rattle.device_model.specs.IndexWords.{Index, IsIndex};
ghost use Rattle.device_model.specs.Devices.{need_on};
ghost use Rattle.shadow_index.specs.States.{index_of};
ghost use Rattle.table_machine.specs.Tables.{Tables, Vacant};
ghost use Rattle.table_machine.specs.Events.{reopened};
ghost use Rattle.recovery.specs.Images.{device_at, words_of};
ghost use Rattle.recovery.specs.declared.boot.Boot.{Boot as Booting};
ghost use Rattle.vol_copy.specs.Tries.{IsFor};
ghost use Rattle.core_seats.specs.Holding.{AreSeats};
ghost use Rattle.committed_state.specs.Committed.{HasRooms, IsCommitted, chains_in};
ghost use Rattle.kernel_core.specs.Failures.{Fails, whole_if, whole_in, with_found};
ghost use Rattle.kernel_core.specs.Keeping.{IsLawful, Keeps};
ghost use Rattle.kernel_core.specs.Steps.{HasImage, HasWritten, KeepsSet, MayHaveWritten, Steps};

use crate::kernel::{Kernel, Power};
use core_seats::Seat;
use fram_dev::{Fram, Lost};
use nv_base::{CoreId, Entry, Line};
use recovery::{Boot, BootRefusal, BootTurn};

impl Kernel {
    /// Power fails: nothing is left of what is in memory, but what was listed. A finish whose writes are all made joins,
    /// and it is owed a line.
    pub(crate) fn fail(&mut self) -> Line
        requires keeps { (words : Words) × (t : Tables MachineState) × Keeps self.old words t
            × IsLawful self.old words t }
        requires few { length self.old.listing.items < self.old.room }
        ensures fails { Fails self.old self.new result }
        ensures rest { KeepsSet self.old self.new }
        ensures live { self.new.lost ≡ self.old.lost }
        ensures listed { length self.new.listing.items ≤ self.new.room }
    {
        let found = whole_among(&self.seats);
        self.hide(found);
        clear_all(&mut self.seats);
        self.power = Power::Boot(Boot::begin(&self.set));
        Line::Fail
    }

    /// A step while a boot goes on: core 0 takes one turn of it, another core does nothing. `Lost` where the device lost a
    /// call: then what the turn writes is made, or it is not.
    pub(crate) fn boot_turn<F: Fram>(&mut self, dev: &mut F, core: CoreId) -> Result<Line, Lost>
        requires keeps { let words = words_of (F.log dev.old) (F.start dev.old) in
            (t : Tables MachineState) × Keeps self.old words t × IsLawful self.old words t }
        requires booting { (b : Booting) × (self.old.power ≡ Power.Boot b) }
        requires room { let words = words_of (F.log dev.old) (F.start dev.old) in
            need_on (device_at self.old.set words) ≤ length (F.start dev.old) }
        requires boots { words_of (F.log dev.old) (F.start dev.old) 2 < 4294967295 }
        ensures steps { let words = words_of (F.log dev.old) (F.start dev.old) in
            let later = words_of (F.log dev.new) (F.start dev.new) in
            IfOk result (Steps self.old core.0 words self.new later) }
        ensures written { let words = words_of (F.log dev.old) (F.start dev.old) in
            OnOk result (HasWritten self.old core.0 words (F.log dev.old) (F.log dev.new)) }
        ensures image { let words = words_of (F.log dev.old) (F.start dev.old) in
            let later = words_of (F.log dev.new) (F.start dev.new) in
            OnOk result (HasImage self.old core.0 words later) }
        ensures cut { let words = words_of (F.log dev.old) (F.start dev.old) in
            let later = words_of (F.log dev.new) (F.start dev.new) in
            OnErr result
            (MayHaveWritten self.old core.0 words later (F.log dev.old) (F.log dev.new)) }
        ensures rest { KeepsSet self.old self.new }
        ensures live { self.new.lost ≡ self.old.lost }
        ensures listing { self.new.listing ≡ self.old.listing }
        ensures lost { OnErr result (FaultCounted (F.lost dev.old) (F.lost dev.new)) }
        ensures start { F.start dev.new ≡ F.start dev.old }
        ensures never_falls { F.lost dev.old ≤ F.lost dev.new }
    {
        if core.0 != 0 {
            return Ok(Line::Nothing);
        }
        let Power::Boot(boot) = &mut self.power else {
            unreachable!()
        };
        match boot.turn(dev, &self.set, &mut self.committed.after) {
            Ok(BootTurn::More) => Ok(Line::Nothing),
            Ok(BootTurn::Done) => Ok(self.power_on()),
            Err(BootRefusal::Lost) => Err(Lost),
            Err(BootRefusal::Blank) => unreachable!(),
            Err(BootRefusal::Damaged(_)) => unreachable!(),
        }
    }

    // What was read becomes the state, and power is on. The line tells the finish that is owed.
    fn power_on(&mut self) -> Line
        requires { (set : Set) × HasRooms set self.old.committed
            × IsIndex set (index_of self.old.committed.after) }
        ensures committed { (set : Set) → HasRooms set self.old.committed
            → IsIndex set (index_of self.old.committed.after)
            → IsCommitted set self.new.committed }
        ensures chains { (set : Set) → HasRooms set self.old.committed
            → IsIndex set (index_of self.old.committed.after)
            → chains_in self.new.committed
            ≡ reopened set (index_of self.old.committed.after) }
        ensures state { self.new.committed.state ≡ self.old.committed.after }
        ensures rest { self.new ≡ record self.old {
          power = Power.On;
          owed = None;
          committed = self.new.committed;
        } }
        ensures line { result ≡ Line.Booted self.old.owed self.old.committed.after.boots }
    {
        self.committed.reopen();
        self.power = Power::On;
        Line::Booted {
            found: self.owed.take(),
            boots: self.committed.state.boots,
        }
    }

    // A finish joins the listing, if there is one, and is owed a line.
    fn hide(&mut self, found: Option<Entry>)
        requires { vec_len self.old.listing < vec_capacity self.old.listing }
        ensures entries { self.new.listing.items ≡ with_found found self.old.listing.items }
        ensures owed { self.new.owed ≡ option_or found self.old.owed }
        ensures capacity { vec_capacity self.new.listing ≡ vec_capacity self.old.listing }
        ensures rest { self.new
            ≡ record self.old { listing = self.new.listing; owed = self.new.owed } }
    {
        if let Some(entry) = found {
            self.listing.push_reserved(entry);
            self.owed = Some(entry);
        }
    }
}

// Each core gives its task up.
fn clear_all(seats: &mut Vec<Seat>)
    ensures count { length seats.new.items ≡ length seats.old.items }
    ensures kept { (set : Set) → AllByRecursion (λ s. IsFor set s.attempt) seats.old.items
        → AllByRecursion (λ s. IsFor set s.attempt) seats.new.items }
    ensures vacant { (after : Index)
        → AreSeats seats.new.items after (replicate (length seats.old.items) Vacant) }
{
    for k in 0..seats.len() {
        seats[k].clear();
    }
}

// The finish whose writes are all made, if there is one.
pub(crate) fn whole_among(seats: &[Seat]) -> Option<Entry>
    ensures { result ≡ whole_in seats.now }
{
    for seat in seats {
        if let Some(entry) = whole(seat) {
            return Some(entry);
        }
    }
    None
}

// The same of one core.
fn whole(seat: &Seat) -> Option<Entry>
    ensures { result ≡ whole_if seat.now.saving }
{
    match seat.saving {
        Some(saving) if saving.is_whole => Some(saving.entry),
        _ => None,
    }
}
