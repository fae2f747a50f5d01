//! A boot in its turns: each of them reads one word, and the last one counts the boot.

ghost use Rattle.std.specs.Prelude.{◌≡◌, ◌+◌, ◌<◌, ◌≤◌, ◌++◌, ◌⊎◌, IfErr, OnErr, OnOk, false, length, true};
ghost use Rattle.set_model.specs.Sets.{TaskSet as Set};
ghost use Rattle.device_model.specs.Words.{Words};
ghost use Rattle.device_model.specs.Layouts.{boot_turns_of, reads};
ghost use Rattle.device_model.specs.Journals.{boot_writes};
ghost use Rattle.device_model.specs.Devices.{held_on, layout_on, need_on};
ghost use Rattle.shadow_index.specs.declared.state.State.{State};
ghost use Rattle.shadow_index.specs.States.{HasRoom, HasTaken};
ghost use Rattle.recovery.specs.Images.{IsOwn, device_at, words_of};
ghost use Rattle.recovery.specs.Reading.{IsRefusedAt};
ghost use Rattle.recovery.specs.Booting.{IsBooted, IsBooting, IsCounted, turns_of};

use crate::reader::Reader;
use crate::refusals::{BootRefusal, BootTurn};
use fram_dev::Fram;
use shadow_index::State;
use task_set::TaskSet;

/// A boot that goes on.
#[derive(Drop)]
pub struct Boot {
    pub(crate) reader: Reader,
}

impl Boot {
    /// No turn is taken yet.
    pub fn begin(set: &TaskSet) -> Boot
        ensures none { turns_of result ≡ 0 }
        ensures ready { (words : Words) (into : State) → HasTaken set.now 0 into
            → IsBooting set.now words result into }
    {
        Boot {
            reader: Reader::begin(set),
        }
    }

    /// Whether the next turn reads a word: else it is the last one.
    #[inline(always)]
    pub fn reads(&self) -> bool
        requires { (set : Set) × (words : Words) × (into : State)
            × IsBooting set words self.now into }
        ensures more { (set : Set) (words : Words) (into : State) → IsBooting set words self.now into
            → result ≡ true
            → turns_of self.now + 1 < boot_turns_of (layout_on (device_at set words)) }
        ensures last { (set : Set) (words : Words) (into : State) → IsBooting set words self.now into
            → result ≡ false
            → turns_of self.now + 1 ≡ boot_turns_of (layout_on (device_at set words)) }
    {
        if self.reader.count == 0 {
            return true;
        }
        let turn = self.reader.count + 1;
        if turn < self.reader.layout.boot_turns() {
            return true;
        }
        false
    }

    /// One turn: `More` where a word was read and taken, `Done` where all had been, and the boot is counted now: this is
    /// the one write of a boot. `Blank` where word 0 is 0, `Damaged` at the place of the first faulty word, in the turn
    /// that reads it; `Lost` where the device lost the call, and in the last turn its write may be made. After a refusal
    /// or the last turn there is no further one.
    pub fn turn<F: Fram>(
        &mut self,
        dev: &mut F,
        set: &TaskSet,
        into: &mut State,
    ) -> Result<BootTurn, BootRefusal>
        requires booting { let words = words_of (F.log dev.old) (F.start dev.old) in
            IsBooting set.now words self.old into.old }
        requires own { IsOwn set.now (words_of (F.log dev.old) (F.start dev.old)) }
        requires room { let words = words_of (F.log dev.old) (F.start dev.old) in
            need_on (device_at set.now words) ≤ length (F.start dev.old) }
        requires boots { words_of (F.log dev.old) (F.start dev.old) 2 < 4294967295 }
        ensures more { let words = words_of (F.log dev.old) (F.start dev.old) in
            result ≡ Ok BootTurn.More → IsBooting set.now words self.new into.new }
        ensures count { result ≡ Ok BootTurn.More → turns_of self.new ≡ turns_of self.old + 1 }
        ensures early { let words = words_of (F.log dev.old) (F.start dev.old) in
            result ≡ Ok BootTurn.More
            → turns_of self.new < boot_turns_of (layout_on (device_at set.now words)) }
        ensures kept { result ≡ Ok BootTurn.More → F.log dev.new ≡ F.log dev.old }
        ensures last { let words = words_of (F.log dev.old) (F.start dev.old) in
            result ≡ Ok BootTurn.Done
            → turns_of self.old + 1 ≡ boot_turns_of (layout_on (device_at set.now words)) }
        ensures done { let words = words_of (F.log dev.old) (F.start dev.old) in
            result ≡ Ok BootTurn.Done
            → IsBooted set.now words (words_of (F.log dev.new) (F.start dev.new)) into.new }
        ensures counted { let words = words_of (F.log dev.old) (F.start dev.old) in
            let held = held_on (device_at set.now words) words in
            result ≡ Ok BootTurn.Done → F.log dev.new ≡ F.log dev.old ++ boot_writes held }
        ensures refused { let words = words_of (F.log dev.old) (F.start dev.old) in
            let turn = turns_of self.old in
            IfErr result (IsRefusedAt set.now words turn (F.lost dev.old) (F.lost dev.new)) }
        ensures unwritten { let words = words_of (F.log dev.old) (F.start dev.old) in
            OnErr result ((F.log dev.new ≡ F.log dev.old)
            ⊎ (result ≡ Err BootRefusal.Lost
            × IsCounted set.now words self.old (F.log dev.old) (F.log dev.new))) }
        ensures room { HasRoom set.now into.new }
        ensures start { F.start dev.new ≡ F.start dev.old }
        ensures never_falls { F.lost dev.old ≤ F.lost dev.new }
    {
        if self.reader.count == 0 {
            return more(self.reader.first(dev, set, into));
        }
        if self.reader.count + 1 < self.reader.layout.boot_turns() {
            return more(self.reader.next(dev, set, into));
        }
        match dev.write(2, into.boots + 1) {
            Ok(()) => {
                into.boots += 1;
                Ok(BootTurn::Done)
            }
            Err(_) => Err(BootRefusal::Lost),
        }
    }
}

// The answer of a turn that reads.
fn more(read: Result<(), BootRefusal>) -> Result<BootTurn, BootRefusal>
    ensures ok { OnOk read (result ≡ Ok BootTurn.More) }
    ensures err { IfErr read (λ refusal. result ≡ Err refusal) }
{
    match read {
        Ok(()) => Ok(BootTurn::More),
        Err(refusal) => Err(refusal),
    }
}
