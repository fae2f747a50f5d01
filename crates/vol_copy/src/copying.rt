//! The copy of an object that an attempt reads, word by word.

ghost use Rattle.std.specs.Prelude.{◌≡◌};
ghost use Rattle.set_model.specs.Sets.{TaskSet};
ghost use Rattle.vol_copy.specs.Stages.{IsAfterWord, IsCopying, IsFetching};
ghost use Rattle.vol_copy.specs.Tries.{IsFor};
ghost use Rattle.vol_copy.specs.Turns.{CopiesWord, OpensRead};

use crate::attempt::{Attempt, Stage};
use crate::want::Want;
use interval::Version;
use nv_base::ObjId;

impl Attempt {
    /// A version of the object that it waits for is chosen: it counts as read, and its words come next.
    pub fn open_read(&mut self, v: Version)
        requires kept { (set : TaskSet) × IsFor set self.old }
        requires fetching { IsFetching v.object self.old.stage }
        ensures kept { (set : TaskSet) → IsFor set self.old → IsFor set self.new }
        ensures stage { IsCopying self.new.stage }
        ensures start { self.new.start ≡ self.old.start }
        ensures opens { OpensRead self.old v.object self.new }
    {
        let Stage::Fetching { object, want } = self.stage else {
            return;
        };
        // no set has more objects than the limit
        let _objects = self.words.len();
        self.reads.add(object);
        self.stage = Stage::Copying {
            object,
            want,
            copied: 0,
        };
    }

    /// The next word of the version is copied. True exactly at the last one: then the service has all, and the attempt
    /// runs on.
    pub fn copy_word(&mut self, word: u32) -> bool
        requires kept { (set : TaskSet) × IsFor set self.old }
        requires copying { IsCopying self.old.stage }
        ensures kept { (set : TaskSet) → IsFor set self.old → IsFor set self.new }
        ensures stage { IsAfterWord result self.new.stage }
        ensures start { self.new.start ≡ self.old.start }
        ensures copies { CopiesWord self.old word self.new result }
    {
        let Stage::Copying {
            object,
            want,
            copied,
        } = self.stage
        else {
            return false;
        };
        self.copy(object, want, copied, word)
    }

    /// One more word of the copy, with what the last one brings.
    fn copy(&mut self, object: ObjId, want: Want, copied: u8, word: u32) -> bool
        requires kept { (set : TaskSet) × IsFor set self.old }
        requires copying { self.old.stage ≡ Stage.Copying object want copied }
        ensures kept { (set : TaskSet) → IsFor set self.old → IsFor set self.new }
        ensures stage { IsAfterWord result self.new.stage }
        ensures start { self.new.start ≡ self.old.start }
        ensures copies { CopiesWord self.old word self.new result }
    {
        self.copies.put(object, copied, word);
        if usize::from(copied) + 1 < self.copies.get(object).len() {
            self.stage = Stage::Copying {
                object,
                want,
                copied: copied + 1,
            };
            return false;
        }
        self.receive(object, want);
        self.stage = Stage::Running;
        true
    }
}
