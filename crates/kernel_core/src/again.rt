//! A kernel begins in a boot of a device that holds a state, which is migrated first where the set has another format.

ghost use Rattle.std.specs.Prelude.{◌≡◌, ◌≢◌, ◌⊎◌, ℕ, ◌<◌, ◌≤◌, ◌++◌, IfErr, OnErr, OnOk, length};
ghost use Rattle.device_model.specs.Devices.{need_on};
ghost use Rattle.device_format.specs.Puts.{HasFront};
ghost use Rattle.shadow_index.specs.Tells.{device_of};
ghost use Rattle.recovery.specs.Images.{IsOwn, device_at, words_of};
ghost use Rattle.kernel_core.specs.Opening.{Begins, HasRoomFor, IsBootOn, IsLeft, IsNotBooted, IsNotOpened, IsReady, need_for, opening_writes};
ghost use Rattle.kernel_core.specs.Steps.{KeepsSet};

use crate::kernel::{Kernel, Power};
use crate::open::{How, OpenRefusal};
use fram_dev::Fram;
use nv_base::limits::MAX_EVENTS;
use recovery::{Boot, BootRefusal, MigrateRefusal, is_worn, migrate, read_state};
use rv_core::Machine;
use shadow_index::Layout;
use std::alloc::Global;
use table_machine::events::{device_is_setting, opened_tables_represent};
use task_model::laws::tasks_are_a_machine;
use task_set::TaskSet;

impl Kernel {
    /// Goes on from what the device holds. Words of format 1 are moved first where the set has format 2. `Small` where the
    /// device has fewer words than a migration reads or wrote; else `Blank`, `Damaged` and `Worn` by the words at entry, and
    /// `Lost` where the device lost a call. But at `Lost` nothing was written.
    pub(crate) fn go_on<F: Fram>(&mut self, dev: &mut F) -> Result<(), OpenRefusal>
        requires room { (room : ℕ) × (room ≤ MAX_EVENTS) × HasRoomFor self.old.set room self.old }
        requires long { need_on (device_of self.old.set 0) ≤ length (F.start dev.old) }
        ensures begins { let later = words_of (F.log dev.new) (F.start dev.new) in
            OnOk result (Begins How.Again self.old.set later self.new) }
        ensures long { let later = words_of (F.log dev.new) (F.start dev.new) in
            OnOk result (need_on (device_at self.old.set later) ≤ length (F.start dev.new)) }
        ensures written { let words = words_of (F.log dev.old) (F.start dev.old) in OnOk result
            (F.log dev.new ≡ F.log dev.old ++ opening_writes How.Again self.old.set words) }
        ensures refused { let words = words_of (F.log dev.old) (F.start dev.old) in
            let len = length (F.start dev.old) in IfErr result
            (IsNotOpened How.Again self.old.set words len (F.lost dev.old) (F.lost dev.new)) }
        ensures small { let words = words_of (F.log dev.old) (F.start dev.old) in
            let len = length (F.start dev.old) in
            let need = need_for How.Again self.old.set words len in len < need
            → (result ≡ Err (OpenRefusal.Small need len)) ⊎ (result ≡ Err OpenRefusal.Lost) }
        ensures unwritten { result ≢ Err OpenRefusal.Lost
            → OnErr result (F.log dev.new ≡ F.log dev.old) }
        ensures cut { let words = words_of (F.log dev.old) (F.start dev.old) in OnErr result
            (HasFront (opening_writes How.Again self.old.set words) (F.log dev.old) (F.log dev.new)) }
        ensures spared { let words = words_of (F.log dev.old) (F.start dev.old) in
            let len = length (F.start dev.old) in
            len < need_for How.Again self.old.set words len → F.log dev.new ≡ F.log dev.old }
        ensures left { let words = words_of (F.log dev.old) (F.start dev.old) in
            IsLeft How.Again self.old.set words (words_of (F.log dev.new) (F.start dev.new)) }
        ensures rest { KeepsSet self.old self.new }
        ensures live { self.new.lost ≡ self.old.lost }
        ensures start { F.start dev.new ≡ F.start dev.old }
        ensures never_falls { F.lost dev.old ≤ F.lost dev.new }
    {
        if let Err(refusal) = self.move_first(dev) {
            return Err(refusal);
        }
        self.begin_again(dev)
    }

    // Moves the state of a device of format 1 for a set of format 2. Nothing is done where there is none.
    fn move_first<F: Fram>(&mut self, dev: &mut F) -> Result<(), OpenRefusal>
        requires room { (room : ℕ) × HasRoomFor self.old.set room self.old }
        requires long { need_on (device_of self.old.set 0) ≤ length (F.start dev.old) }
        ensures ready { let words = words_of (F.log dev.old) (F.start dev.old) in
            let later = words_of (F.log dev.new) (F.start dev.new) in
            OnOk result (IsReady self.old.set (length (F.start dev.old)) words later) }
        ensures written { let words = words_of (F.log dev.old) (F.start dev.old) in OnOk result
            (F.log dev.new ≡ F.log dev.old ++ opening_writes How.Again self.old.set words) }
        ensures refused { let words = words_of (F.log dev.old) (F.start dev.old) in
            let len = length (F.start dev.old) in IfErr result
            (IsNotOpened How.Again self.old.set words len (F.lost dev.old) (F.lost dev.new)) }
        ensures small { let words = words_of (F.log dev.old) (F.start dev.old) in
            let len = length (F.start dev.old) in
            let need = need_for How.Again self.old.set words len in len < need
            → (result ≡ Err (OpenRefusal.Small need len)) ⊎ (result ≡ Err OpenRefusal.Lost) }
        ensures unwritten { result ≢ Err OpenRefusal.Lost
            → OnErr result (F.log dev.new ≡ F.log dev.old) }
        ensures cut { let words = words_of (F.log dev.old) (F.start dev.old) in OnErr result
            (HasFront (opening_writes How.Again self.old.set words) (F.log dev.old) (F.log dev.new)) }
        ensures spared { let words = words_of (F.log dev.old) (F.start dev.old) in
            let len = length (F.start dev.old) in
            len < need_for How.Again self.old.set words len → F.log dev.new ≡ F.log dev.old }
        ensures left { let words = words_of (F.log dev.old) (F.start dev.old) in
            IsLeft How.Again self.old.set words (words_of (F.log dev.new) (F.start dev.new)) }
        ensures room { (room : ℕ) → HasRoomFor self.old.set room self.old
            → HasRoomFor self.new.set room self.new }
        ensures rest { KeepsSet self.old self.new }
        ensures live { self.new.lost ≡ self.old.lost }
        ensures start { F.start dev.new ≡ F.start dev.old }
        ensures never_falls { F.lost dev.old ≤ F.lost dev.new }
    {
        if self.set.format() == 1 {
            return Ok(());
        }
        match migrate(dev, &self.set, &mut self.committed.after) {
            Ok(()) => Ok(()),
            Err(refusal) => Err(unmoved(refusal)),
        }
    }

    /// Looks at what the device holds, and begins in a boot of it. `Blank` where word 0 is 0, `Damaged` at the place of the
    /// first faulty word, `Worn` where numbers could run out, `Lost` where the device lost a call. Nothing is written.
    pub(crate) fn begin_again<F: Fram>(&mut self, dev: &mut F) -> Result<(), OpenRefusal>
        requires room { (room : ℕ) × (room ≤ MAX_EVENTS) × HasRoomFor self.old.set room self.old }
        requires own { IsOwn self.old.set (words_of (F.log dev.old) (F.start dev.old)) }
        requires long { let words = words_of (F.log dev.old) (F.start dev.old) in
            need_on (device_at self.old.set words) ≤ length (F.start dev.old) }
        ensures booting { let words = words_of (F.log dev.new) (F.start dev.new) in
            OnOk result (IsBootOn self.new words) }
        ensures refused { let words = words_of (F.log dev.old) (F.start dev.old) in
            IfErr result (IsNotBooted self.old.set words (F.lost dev.old) (F.lost dev.new)) }
        ensures rest { KeepsSet self.old self.new }
        ensures live { self.new.lost ≡ self.old.lost }
        ensures log { F.log dev.new ≡ F.log dev.old }
        ensures start { F.start dev.new ≡ F.start dev.old }
        ensures never_falls { F.lost dev.old ≤ F.lost dev.new }
    {
        if let Err(refusal) = read_state(dev, &self.set, &mut self.committed.after) {
            return Err(told(refusal));
        }
        if is_worn(&self.committed.after) {
            return Err(OpenRefusal::Worn);
        }
        self.layout = Layout::of(&self.set, self.committed.after.shift);
        self.power = Power::Boot(Boot::begin(&self.set));
        opened_tables_represent::<Machine>();
        device_is_setting::<Machine>();
        tasks_are_a_machine();
        Ok(())
    }
}

// Why no kernel begins on a device that is not read.
fn told(refusal: BootRefusal) -> OpenRefusal
    ensures blank { refusal ≡ BootRefusal.Blank → result ≡ OpenRefusal.Blank }
    ensures damaged { (place : ℕ) → refusal ≡ BootRefusal.Damaged place
        → result ≡ OpenRefusal.Damaged place }
    ensures lost { refusal ≡ BootRefusal.Lost → result ≡ OpenRefusal.Lost }
{
    match refusal {
        BootRefusal::Blank => OpenRefusal::Blank,
        BootRefusal::Damaged(place) => OpenRefusal::Damaged(place),
        BootRefusal::Lost => OpenRefusal::Lost,
    }
}

// Why no kernel begins on a device that is not migrated.
fn unmoved(refusal: MigrateRefusal) -> OpenRefusal
    ensures small { (need len : ℕ) → refusal ≡ MigrateRefusal.Small need len
        → result ≡ OpenRefusal.Small need len }
    ensures damaged { (place : ℕ) → refusal ≡ MigrateRefusal.Damaged place
        → result ≡ OpenRefusal.Damaged place }
    ensures worn { refusal ≡ MigrateRefusal.Worn → result ≡ OpenRefusal.Worn }
    ensures lost { refusal ≡ MigrateRefusal.Lost → result ≡ OpenRefusal.Lost }
{
    match refusal {
        MigrateRefusal::Small { need, len } => OpenRefusal::Small { need, len },
        MigrateRefusal::Damaged(place) => OpenRefusal::Damaged(place),
        MigrateRefusal::Worn => OpenRefusal::Worn,
        MigrateRefusal::Lost => OpenRefusal::Lost,
    }
}
