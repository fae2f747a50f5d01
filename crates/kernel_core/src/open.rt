//! A kernel takes all its memory, and begins on a device.

ghost use Rattle.std.specs.Prelude.{◌≡◌, ◌≢◌, ◌⊎◌, ◌<◌, ◌≤◌, ◌++◌, ℕ, IfErr, IfOk, OnErr, OnOk, length};
ghost use Rattle.nv_base.specs.Streams.{FaultCounted};
ghost use Rattle.device_model.specs.Devices.{format_on, need_on};
ghost use Rattle.device_format.specs.Puts.{HasFront};
ghost use Rattle.shadow_index.specs.Tells.{device_of};
ghost use Rattle.recovery.specs.Images.{device_at, words_of};
ghost use Rattle.device_model.specs.IndexWords.{Index};
ghost use Rattle.table_machine.specs.Tables.{Vacant};
ghost use Rattle.vol_copy.specs.Tries.{IsFor};
ghost use Rattle.core_seats.specs.Holding.{StandsFor};
ghost use Rattle.kernel_core.specs.Opening.{AreIdle, Begins, HasRoomFor, IsLeft, IsNotOpened, IsOpened, IsOpenedOn, need_for, opening_writes};
ghost use Rattle.kernel_core.specs.Steps.{KeepsSet};

use crate::kernel::{Kernel, Power};
use commit_writer::Writer;
use committed_state::Committed;
use core_seats::Seat;
use device_format::format;
use device_format::laws::{cut_format_is_old_blank_or_first, whole_format_holds_first};
use fram_dev::{Fram, Lost};
use nv_base::NoMemory;
use nv_base::limits::MAX_EVENTS;
use recovery::laws::words_hold_one_state;
use recovery::read_state;
use rv_core::Machine;
use shadow_index::{Layout, need};
use std::alloc::Global;
use table_machine::events::{device_is_setting, opened_tables_represent};
use task_model::laws::tasks_are_a_machine;
use task_set::TaskSet;

/// On what a kernel begins.
#[derive(Clone, Copy, PartialEq, Eq, Debug)]
pub enum How {
    /// On the first state of the set: the device is formatted.
    Fresh,
    /// On what the device holds.
    Again,
}

/// Why no kernel begins on a device.
#[derive(Clone, Copy, PartialEq, Eq, Debug)]
pub enum OpenRefusal {
    /// The device has fewer words than the set needs. Nothing was written.
    Small {
        /// How many words the set needs.
        need: u32,
        /// How many words the device has.
        len: u32,
    },
    /// There is not memory enough. Nothing was written.
    NoMemory,
    /// The device lost a call.
    Lost,
    /// Word 0 of the device is 0: no state was ever whole there. Nothing was written.
    Blank,
    /// The place of the first faulty word. Nothing was written.
    Damaged(u32),
    /// So much has happened on the device that numbers could run out. Nothing was written.
    Worn,
}

impl Kernel {
    /// Begins on a device, with room for so many finishes. `Fresh`: formats it, and power is on. `Again`: a state of
    /// format 1 is migrated first where the set has format 2, and then a boot of what stands there begins. All memory is
    /// taken before the first write: `NoMemory` where there is none.
    ///
    /// `Small` where the device has fewer words than the set needs, before all other answers; and where it has fewer than a
    /// migration reads or wrote, after `NoMemory` and where the device does not lose the call that reads word 0. `Lost` where
    /// the device lost a call: the first writes of the format or of the migration may be made. `Blank`, `Damaged` and `Worn`
    /// come with `Again` alone, by the words at entry. But at `Lost` nothing was written; and where the device has too few words
    /// nothing ever is.
    pub fn open<F: Fram>(
        alloc: Global,
        dev: &mut F,
        set: TaskSet,
        how: How,
        room: u32,
    ) -> Result<Kernel, OpenRefusal>
        requires { room ≤ MAX_EVENTS }
        ensures opened { let words = words_of (F.log dev.old) (F.start dev.old) in
            let later = words_of (F.log dev.new) (F.start dev.new) in
            IfOk result (IsOpened how set room words (F.log dev.old) later (F.log dev.new)) }
        ensures long { let later = words_of (F.log dev.new) (F.start dev.new) in
            OnOk result (need_on (device_at set later) ≤ length (F.start dev.new)) }
        ensures refused { let words = words_of (F.log dev.old) (F.start dev.old) in
            let len = length (F.start dev.old) in
            IfErr result (IsNotOpened how set words len (F.lost dev.old) (F.lost dev.new)) }
        ensures small { let need = need_on (device_of set 0) in
            let len = length (F.start dev.old) in len < need
            → (result ≡ Err (OpenRefusal.Small need len)) × (F.lost dev.new ≡ F.lost dev.old) }
        ensures small_to_move { let words = words_of (F.log dev.old) (F.start dev.old) in
            let len = length (F.start dev.old) in
            let need = need_for how set words len in len < need
            → (result ≡ Err (OpenRefusal.Small need len)) ⊎ (result ≡ Err OpenRefusal.NoMemory)
            ⊎ (result ≡ Err OpenRefusal.Lost) }
        ensures unwritten { result ≢ Err OpenRefusal.Lost
            → OnErr result (F.log dev.new ≡ F.log dev.old) }
        ensures cut { let words = words_of (F.log dev.old) (F.start dev.old) in
            OnErr result (HasFront (opening_writes how set words) (F.log dev.old) (F.log dev.new)) }
        ensures spared { let words = words_of (F.log dev.old) (F.start dev.old) in
            let len = length (F.start dev.old) in
            len < need_for how set words len → F.log dev.new ≡ F.log dev.old }
        ensures left { let words = words_of (F.log dev.old) (F.start dev.old) in
            IsLeft how set words (words_of (F.log dev.new) (F.start dev.new)) }
        ensures start { F.start dev.new ≡ F.start dev.old }
        ensures never_falls { F.lost dev.old ≤ F.lost dev.new }
    {
        let need = need(&set);
        let len = dev.len();
        if len < need {
            return Err(OpenRefusal::Small { need, len });
        }
        let Ok(mut kernel) = Kernel::with_room(alloc, set, room) else {
            return Err(OpenRefusal::NoMemory);
        };
        match kernel.begin(dev, how) {
            Ok(()) => Ok(kernel),
            Err(refusal) => Err(refusal),
        }
    }

    // A kernel with room begins on a device that has as many words as its set needs.
    fn begin<F: Fram>(&mut self, dev: &mut F, how: How) -> Result<(), OpenRefusal>
        requires room { (room : ℕ) × (room ≤ MAX_EVENTS) × HasRoomFor self.old.set room self.old }
        requires long { need_on (device_of self.old.set 0) ≤ length (F.start dev.old) }
        ensures begins { let later = words_of (F.log dev.new) (F.start dev.new) in
            OnOk result (Begins how self.old.set later self.new) }
        ensures long { let later = words_of (F.log dev.new) (F.start dev.new) in
            OnOk result (need_on (device_at self.old.set later) ≤ length (F.start dev.new)) }
        ensures written { let words = words_of (F.log dev.old) (F.start dev.old) in OnOk result
            (F.log dev.new ≡ F.log dev.old ++ opening_writes how self.old.set words) }
        ensures refused { let words = words_of (F.log dev.old) (F.start dev.old) in
            let len = length (F.start dev.old) in IfErr result
            (IsNotOpened how self.old.set words len (F.lost dev.old) (F.lost dev.new)) }
        ensures small { let words = words_of (F.log dev.old) (F.start dev.old) in
            let len = length (F.start dev.old) in
            let need = need_for how self.old.set words len in len < need
            → (result ≡ Err (OpenRefusal.Small need len)) ⊎ (result ≡ Err OpenRefusal.Lost) }
        ensures unwritten { result ≢ Err OpenRefusal.Lost
            → OnErr result (F.log dev.new ≡ F.log dev.old) }
        ensures cut { let words = words_of (F.log dev.old) (F.start dev.old) in OnErr result
            (HasFront (opening_writes how self.old.set words) (F.log dev.old) (F.log dev.new)) }
        ensures spared { let words = words_of (F.log dev.old) (F.start dev.old) in
            let len = length (F.start dev.old) in
            len < need_for how self.old.set words len → F.log dev.new ≡ F.log dev.old }
        ensures left { let words = words_of (F.log dev.old) (F.start dev.old) in
            IsLeft how self.old.set words (words_of (F.log dev.new) (F.start dev.new)) }
        ensures rest { KeepsSet self.old self.new }
        ensures live { self.new.lost ≡ self.old.lost }
        ensures start { F.start dev.new ≡ F.start dev.old }
        ensures never_falls { F.lost dev.old ≤ F.lost dev.new }
    {
        match how {
            How::Fresh => match self.begin_fresh(dev) {
                Ok(()) => Ok(()),
                Err(_) => Err(OpenRefusal::Lost),
            },
            How::Again => self.go_on(dev),
        }
    }

    /// A kernel of a set, with room for so many finishes, on no device yet. All memory is taken here; `NoMemory` where
    /// there is none.
    pub(crate) fn with_room(alloc: Global, set: TaskSet, room: u32) -> Result<Kernel, NoMemory>
        requires { room ≤ MAX_EVENTS }
        ensures { IfOk result (HasRoomFor set room) }
    {
        let seats = idle_seats(alloc, &set)?;
        let committed = Committed::room(alloc, &set)?;
        let writer = Writer::new(alloc, &set)?;
        let listing = Vec::with_capacity(alloc, room as usize)?;
        let layout = Layout::of(&set, 0);
        Ok(Kernel {
            set,
            layout,
            seats,
            committed,
            writer,
            saver: 0,
            power: Power::On,
            owed: None,
            listing,
            room,
            lost: false,
        })
    }

    /// Formats the device, and begins on it with power on. `Lost` where the device lost a call.
    pub(crate) fn begin_fresh<F: Fram>(&mut self, dev: &mut F) -> Result<(), Lost>
        requires room { (room : ℕ) × (room ≤ MAX_EVENTS) × HasRoomFor self.old.set room self.old }
        requires long { need_on (device_of self.old.set 0) ≤ length (F.start dev.old) }
        ensures opened { let words = words_of (F.log dev.new) (F.start dev.new) in
            OnOk result (IsOpenedOn self.new words) }
        ensures long { let later = words_of (F.log dev.new) (F.start dev.new) in
            OnOk result (need_on (device_at self.old.set later) ≤ length (F.start dev.new)) }
        ensures rest { KeepsSet self.old self.new }
        ensures live { self.new.lost ≡ self.old.lost }
        ensures written { OnOk result
            (F.log dev.new ≡ F.log dev.old ++ format_on (device_of self.old.set 0)) }
        ensures start { F.start dev.new ≡ F.start dev.old }
        ensures cut { OnErr result
            (HasFront (format_on (device_of self.old.set 0)) (F.log dev.old) (F.log dev.new)) }
        ensures left { let words = words_of (F.log dev.old) (F.start dev.old) in
            IsLeft How.Fresh self.old.set words (words_of (F.log dev.new) (F.start dev.new)) }
        ensures failed { OnErr result (FaultCounted (F.lost dev.old) (F.lost dev.new)) }
        ensures never_falls { F.lost dev.old ≤ F.lost dev.new }
    {
        whole_format_holds_first();
        cut_format_is_old_blank_or_first();
        words_hold_one_state();
        let Ok(()) = format(dev, &self.set) else {
            return Err(Lost);
        };
        let Ok(()) = read_state(dev, &self.set, &mut self.committed.after) else {
            return Err(Lost);
        };
        self.committed.reopen();
        opened_tables_represent::<Machine>();
        device_is_setting::<Machine>();
        tasks_are_a_machine();
        Ok(())
    }
}

// A seat for each core of the set, without a task.
fn idle_seats(alloc: Global, set: &TaskSet) -> Result<Vec<Seat>, NoMemory>
    ensures { IfOk result (λ seats. AreIdle set.now set.now.cores seats.items) }
{
    let mut seats = Vec::with_capacity(alloc, usize::from(set.cores()))?;
    for _ in 0..set.cores() {
        seats.push(Seat::new(alloc, set)?)?;
    }
    Ok(seats)
}
