//! The words of a device, read one by one.

ghost use Rattle.std.specs.Prelude.{◌≡◌, ◌+◌, ◌-◌, ◌<◌, ◌≤◌, ◌==◌, IfErr, OnOk, length};
ghost use Rattle.device_model.specs.Words.{Words};
ghost use Rattle.device_model.specs.Layouts.{Plain, kind_named, magic_of, reads};
ghost use Rattle.device_model.specs.Devices.{Device, layout_on, migrated, need_on, plain};
ghost use Rattle.shadow_index.specs.States.{HasRoom, HasTaken};
ghost use Rattle.shadow_index.specs.Tells.{IsLayoutOf, device_by, device_of};
ghost use Rattle.recovery.specs.Images.{device_at, words_of};
ghost use Rattle.recovery.specs.Reading.{HasRead, IsFresh, IsRefusedAt};

use crate::kinds::{kind_named, shift_of};
use crate::refusals::BootRefusal;
use fram_dev::Fram;
use shadow_index::{DeviceKind, Layout, State};
use std::mem::swap;
use task_set::TaskSet;

/// Reads the words of a device in their order, and takes what they tell.
#[derive(Drop)]
pub struct Reader {
    /// Where the words stand: of the kind that word 0 names, once it is read.
    pub layout: Layout,
    /// Where they stand behind a migration: made at the begin, so that the turn that reads word 0 makes none.
    pub migrated: Layout,
    /// How many words were read.
    pub count: u32,
}

impl Reader {
    /// No word is read yet.
    pub fn begin(set: &TaskSet) -> Reader
        ensures { IsFresh set.now result }
    {
        Reader {
            layout: Layout::of(set, 0),
            migrated: Layout::of_kind(set, DeviceKind::Migrated),
            count: 0,
        }
    }

    /// Word 0 was read, and it names format 1.
    pub fn begin_plain(set: &TaskSet, into: &mut State) -> Reader
        requires { HasTaken set.now 0 into.old }
        ensures read { (words : Words) → words 0 ≡ magic_of Plain
            → HasRead (plain set.now) words result into.new }
        ensures one { result.count ≡ 1 }
    {
        // that the set keeps its limits
        let _ = set.format();
        into.shift = 0;
        Reader {
            layout: Layout::of_kind(set, DeviceKind::Plain),
            migrated: Layout::of_kind(set, DeviceKind::Migrated),
            count: 1,
        }
    }

    /// Reads word 0, which names the kind of the device.
    pub fn first<F: Fram>(
        &mut self,
        dev: &mut F,
        set: &TaskSet,
        into: &mut State,
    ) -> Result<(), BootRefusal>
        requires fresh { IsFresh set.now self.old }
        requires state { HasTaken set.now 0 into.old }
        requires room { let words = words_of (F.log dev.old) (F.start dev.old) in
            need_on (device_at set.now words) ≤ length (F.start dev.old) }
        ensures read { let words = words_of (F.log dev.old) (F.start dev.old) in
            OnOk result (HasRead (device_at set.now words) words self.new into.new) }
        ensures one { OnOk result (self.new.count ≡ 1) }
        ensures refused { let words = words_of (F.log dev.old) (F.start dev.old) in
            IfErr result (IsRefusedAt set.now words 0 (F.lost dev.old) (F.lost dev.new)) }
        ensures room { HasRoom set.now into.new }
        ensures log { F.log dev.new ≡ F.log dev.old }
        ensures start { F.start dev.new ≡ F.start dev.old }
        ensures never_falls { F.lost dev.old ≤ F.lost dev.new }
    {
        let word = match dev.read(0) {
            Ok(word) => word,
            Err(_) => return Err(BootRefusal::Lost),
        };
        if word == 0 {
            return Err(BootRefusal::Blank);
        }
        match kind_named(set.format(), word) {
            None => Err(BootRefusal::Damaged(0)),
            Some(kind) => {
                self.layout_for(set, kind);
                self.count = 1;
                into.shift = shift_of(&self.layout);
                Ok(())
            }
        }
    }

    // Takes the layout of a kind. It makes one only where the words are of format 1 for a set of format 2: these a caller
    // migrates first.
    fn layout_for(&mut self, set: &TaskSet, kind: DeviceKind)
        requires first { IsLayoutOf (device_of set.now 0) self.old.layout }
        requires moved { IsLayoutOf (migrated set.now) self.old.migrated }
        ensures { IsLayoutOf (device_by set.now kind) self.new.layout }
    {
        match (self.layout.kind(), kind) {
            (DeviceKind::Plain, DeviceKind::Plain) => {}
            (DeviceKind::Paged, DeviceKind::Paged) => {}
            (_, DeviceKind::Migrated) => swap(&mut self.layout, &mut self.migrated),
            _ => self.layout = Layout::of_kind(set, kind),
        }
    }

    /// Reads the next word.
    pub fn next<F: Fram>(
        &mut self,
        dev: &mut F,
        set: &TaskSet,
        into: &mut State,
    ) -> Result<(), BootRefusal>
        requires read { let words = words_of (F.log dev.old) (F.start dev.old) in
            HasRead (device_at set.now words) words self.old into.old }
        requires more { let words = words_of (F.log dev.old) (F.start dev.old) in
            self.old.count < reads (layout_on (device_at set.now words)) }
        requires room { let words = words_of (F.log dev.old) (F.start dev.old) in
            need_on (device_at set.now words) ≤ length (F.start dev.old) }
        ensures read { let words = words_of (F.log dev.old) (F.start dev.old) in
            OnOk result (HasRead (device_at set.now words) words self.new into.new) }
        ensures count { OnOk result (self.new.count ≡ self.old.count + 1) }
        ensures refused { let words = words_of (F.log dev.old) (F.start dev.old) in
            IfErr result (IsRefusedAt set.now words self.old.count (F.lost dev.old) (F.lost dev.new)) }
        ensures room { HasRoom set.now into.new }
        ensures log { F.log dev.new ≡ F.log dev.old }
        ensures start { F.start dev.new ≡ F.start dev.old }
        ensures never_falls { F.lost dev.old ≤ F.lost dev.new }
    {
        if self.count >= self.layout.head_reads() {
            self.read_index(dev, set, into)
        } else if self.is_at_root() {
            self.read_root(dev, set, into)
        } else {
            self.read_header(dev, set, into)
        }
    }

    // Whether the next word is the root, of those before the pages.
    fn is_at_root(&self) -> bool
        requires { self.now.count < 4294967295 }
        ensures { (d : Device) → IsLayoutOf d self.now.layout
            → result ≡ (self.now.count == (layout_on d).root_read) }
    {
        match self.layout.kind() {
            DeviceKind::Plain => self.count == 1,
            DeviceKind::Paged | DeviceKind::Migrated => self.count + 1 == self.layout.head_reads(),
        }
    }
}
