//! One word more of the header, the root, or a word of the index.

ghost use Rattle.std.specs.Prelude.{◌≡◌, ◌≢◌, ◌+◌, ◌<◌, ◌≤◌, IfErr, OnOk, length};
ghost use Rattle.set_model.specs.Numbers.{first_index};
ghost use Rattle.device_model.specs.Layouts.{reads};
ghost use Rattle.device_model.specs.Decoding.{is_faulty_head};
ghost use Rattle.device_model.specs.Devices.{Device, layout_on, need_on};
ghost use Rattle.shadow_index.specs.States.{HasRoom};
ghost use Rattle.shadow_index.specs.Tells.{IsLayoutOf};
ghost use Rattle.recovery.specs.Images.{device_at, words_of};
ghost use Rattle.recovery.specs.Reading.{HasRead, IsRefusedAt};

use crate::reader::Reader;
use crate::refusals::BootRefusal;
use fram_dev::Fram;
use shadow_index::{Layout, State};
use task_set::TaskSet;

impl Reader {
    /// Reads a word before the pages that is not the root.
    pub(crate) fn read_header<F: Fram>(
        &mut self,
        dev: &mut F,
        set: &TaskSet,
        into: &mut State,
    ) -> Result<(), BootRefusal>
        requires read { let words = words_of (F.log dev.old) (F.start dev.old) in
            HasRead (device_at set.now words) words self.old into.old }
        requires head { let words = words_of (F.log dev.old) (F.start dev.old) in
            self.old.count < (layout_on (device_at set.now words)).head_reads }
        requires other { let words = words_of (F.log dev.old) (F.start dev.old) in
            self.old.count ≢ (layout_on (device_at set.now words)).root_read }
        requires room { let words = words_of (F.log dev.old) (F.start dev.old) in
            need_on (device_at set.now words) ≤ length (F.start dev.old) }
        ensures read { let words = words_of (F.log dev.old) (F.start dev.old) in
            OnOk result (HasRead (device_at set.now words) words self.new into.new) }
        ensures count { OnOk result (self.new.count ≡ self.old.count + 1) }
        ensures refused { let words = words_of (F.log dev.old) (F.start dev.old) in
            IfErr result (IsRefusedAt set.now words self.old.count (F.lost dev.old) (F.lost dev.new)) }
        ensures room { HasRoom set.now into.new }
        ensures log { F.log dev.new ≡ F.log dev.old }
        ensures start { F.start dev.new ≡ F.start dev.old }
        ensures never_falls { F.lost dev.old ≤ F.lost dev.new }
    {
        let at = self.count;
        let word = match dev.read(at) {
            Ok(word) => word,
            Err(_) => return Err(BootRefusal::Lost),
        };
        if is_faulty(&self.layout, set, at, word) {
            return Err(BootRefusal::Damaged(at));
        }
        keep(into, at, word);
        self.count = at + 1;
        Ok(())
    }

    /// Reads the root.
    pub(crate) fn read_root<F: Fram>(
        &mut self,
        dev: &mut F,
        set: &TaskSet,
        into: &mut State,
    ) -> Result<(), BootRefusal>
        requires read { let words = words_of (F.log dev.old) (F.start dev.old) in
            HasRead (device_at set.now words) words self.old into.old }
        requires root { let words = words_of (F.log dev.old) (F.start dev.old) in
            self.old.count ≡ (layout_on (device_at set.now words)).root_read }
        requires room { let words = words_of (F.log dev.old) (F.start dev.old) in
            need_on (device_at set.now words) ≤ length (F.start dev.old) }
        ensures read { let words = words_of (F.log dev.old) (F.start dev.old) in
            OnOk result (HasRead (device_at set.now words) words self.new into.new) }
        ensures count { OnOk result (self.new.count ≡ self.old.count + 1) }
        ensures refused { let words = words_of (F.log dev.old) (F.start dev.old) in
            IfErr result (IsRefusedAt set.now words self.old.count (F.lost dev.old) (F.lost dev.new)) }
        ensures room { HasRoom set.now into.new }
        ensures log { F.log dev.new ≡ F.log dev.old }
        ensures start { F.start dev.new ≡ F.start dev.old }
        ensures never_falls { F.lost dev.old ≤ F.lost dev.new }
    {
        let at = self.layout.root_at();
        let word = match dev.read(at) {
            Ok(word) => word,
            Err(_) => return Err(BootRefusal::Lost),
        };
        if !self.layout.is_root(word) {
            return Err(BootRefusal::Damaged(at));
        }
        into.root = word;
        self.count += 1;
        Ok(())
    }

    /// Reads a word of the index, where the root says that it is.
    pub(crate) fn read_index<F: Fram>(
        &mut self,
        dev: &mut F,
        set: &TaskSet,
        into: &mut State,
    ) -> Result<(), BootRefusal>
        requires read { let words = words_of (F.log dev.old) (F.start dev.old) in
            HasRead (device_at set.now words) words self.old into.old }
        requires behind { let words = words_of (F.log dev.old) (F.start dev.old) in
            (layout_on (device_at set.now words)).head_reads ≤ self.old.count }
        requires more { let words = words_of (F.log dev.old) (F.start dev.old) in
            self.old.count < reads (layout_on (device_at set.now words)) }
        requires room { let words = words_of (F.log dev.old) (F.start dev.old) in
            need_on (device_at set.now words) ≤ length (F.start dev.old) }
        ensures read { let words = words_of (F.log dev.old) (F.start dev.old) in
            OnOk result (HasRead (device_at set.now words) words self.new into.new) }
        ensures count { OnOk result (self.new.count ≡ self.old.count + 1) }
        ensures refused { let words = words_of (F.log dev.old) (F.start dev.old) in
            IfErr result (IsRefusedAt set.now words self.old.count (F.lost dev.old) (F.lost dev.new)) }
        ensures room { HasRoom set.now into.new }
        ensures log { F.log dev.new ≡ F.log dev.old }
        ensures start { F.start dev.new ≡ F.start dev.old }
        ensures never_falls { F.lost dev.old ≤ F.lost dev.new }
    {
        let i = self.count - self.layout.head_reads();
        let at = self.layout.index_at(into.root, i);
        let word = match dev.read(at) {
            Ok(word) => word,
            Err(_) => return Err(BootRefusal::Lost),
        };
        if !into.take(set, i, word) {
            return Err(BootRefusal::Damaged(at));
        }
        self.count += 1;
        Ok(())
    }
}

// Whether a word of the header is faulty, from word 1 on: the words 1 and 2 are not looked at.
fn is_faulty(layout: &Layout, set: &TaskSet, at: u32, word: u32) -> bool
    requires { at < first_index set.now }
    ensures { (d : Device) → IsLayoutOf d layout.now → d.set ≡ set.now
        → 0 < at → at ≢ (layout_on d).root_read
        → result ≡ is_faulty_head (layout_on d) d.set at word }
{
    at > 2 && word != layout.header_word(set, at)
}

// Keeps a word of the header: word 2 counts the boots.
fn keep(into: &mut State, at: u32, word: u32)
    ensures boots { at ≡ 2 → into.new.boots ≡ word }
    ensures other { at ≢ 2 → into.new.boots ≡ into.old.boots }
    ensures same { into.new ≡ record into.old { boots = into.new.boots } }
{
    if at == 2 {
        into.boots = word;
    }
}
