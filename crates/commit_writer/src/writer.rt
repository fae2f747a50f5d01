//! A commit under way: one write at each turn.

use crate::job::Job;
use crate::position::Position;
use fram_dev::{Fram, Lost};
use nv_base::NoMemory;
use shadow_index::{Copies, Plan, State};
use std::alloc::Global;
use task_set::TaskSet;

/// How a turn ended.
#[derive(Clone, Copy, PartialEq, Eq, Debug)]
pub enum Turn {
    /// A write was made, and more are left.
    Wrote,
    /// The root was written: the commit is whole.
    Flipped,
}

/// A commit, of which some writes are made.
#[derive(Drop)]
pub struct Writer {
    pub(crate) job: Job,
    pub(crate) position: Position,
}

impl Writer {
    ghost use Rattle.std.specs.Prelude.{ℕ, ◌≡◌, ◌≢◌, ◌+◌, ◌<◌, ◌≤◌, ◌⊎◌, [], ◌∷◌, ◌++◌, List, Some, IfOk, OnErr, OnOk, Bool, length, slice_index};
    ghost use Rattle.nv_base.specs.Streams.{FaultCounted};
    ghost use Rattle.kernel_model.specs.Effects.{written};
    ghost use Rattle.device_model.specs.Devices.{HoldsOn, IsKindOn, IsSlotWord, need_on, slot_on};
    ghost use Rattle.commit_writer.specs.Courses.{Course, IsBegun, held_after, root_after, writes_of};
    ghost use Rattle.device_model.specs.Decoding.{Held};
    ghost use Rattle.device_model.specs.Commits.{Commit};
    ghost use Rattle.shadow_index.specs.Tells.{IsShift};
    ghost use Rattle.commit_writer.specs.Rooms.{IsFor, IsStateOf, IsTold, course_of};
    ghost use Rattle.commit_writer.specs.Turns.{IsBeforeOrAfter, IsUnderWayIn, IsWriting, words_in, write_number};

    /// A writer for the commits of a set, with all the memory that it will need. `NoMemory` where there is none.
    pub fn new(alloc: Global, set: &TaskSet) -> Result<Writer, NoMemory>
        ensures { IfOk result (λ w. IsFor set.now w.job) }
    {
        Ok(Writer {
            job: Job::room(alloc, set)?,
            position: Position::Done,
        })
    }

    /// Begins the commit of a plan, from the state before its finish to the state after. A commit that was under way
    /// is dropped.
    pub fn begin(&mut self, set: &TaskSet, plan: &Plan, before: &State, after: &State)
        requires set { IsFor set.now self.old.job }
        requires shift { IsShift set.now before.now.shift }
        requires before { IsStateOf set.now before.now }
        requires after { IsStateOf set.now after.now }
        ensures set { IsFor set.now self.new.job }
        ensures begun { (h : Held) (c : Commit) (is_written : ℕ → Bool) (words : ℕ → List ℕ)
            → IsTold set.now plan.now before.now after.now h c is_written words
            → IsWriting set.now (course_of set.now before.now.shift h c) is_written words 0
            self.new }
    {
        self.job.fill(set, plan, before, after);
        self.position = self.job.first();
    }

    /// Makes the next write. `Flipped` with the last one, the root, and `Wrote` before. `Lost` where the device lost
    /// the call: its write is made, or it is not, and the writer is of no use for this commit.
    pub fn turn<F: Fram, C: Copies>(
        &mut self,
        dev: &mut F,
        set: &TaskSet,
        copies: &C,
    ) -> Result<Turn, Lost>
        requires { (g : Course) × (count : ℕ)
            × IsWriting set.now g (C.is_written copies.now) (C.words copies.now) count self.old
            × (need_on g.device ≤ length (F.start dev.old)) }
        // The log grows by just the next write of the commit.
        ensures written { OnOk result ((g : Course) (count : ℕ)
            → IsWriting set.now g (C.is_written copies.now) (C.words copies.now) count self.old
            → F.log dev.new ≡ F.log dev.old ++ write_number g count ∷ []) }
        ensures lost { OnErr result ((g : Course) (count : ℕ)
            → IsWriting set.now g (C.is_written copies.now) (C.words copies.now) count self.old
            → (F.log dev.new ≡ F.log dev.old)
            ⊎ (F.log dev.new ≡ F.log dev.old ++ write_number g count ∷ [])) }
        ensures start { F.start dev.new ≡ F.start dev.old }
        ensures failed { OnErr result (FaultCounted (F.lost dev.old) (F.lost dev.new)) }
        ensures never_falls { F.lost dev.old ≤ F.lost dev.new }
        // The writer stands for one write more, or the write was the commit's last.
        ensures wrote { result ≡ Ok Turn.Wrote → (g : Course) (count : ℕ)
            → IsWriting set.now g (C.is_written copies.now) (C.words copies.now) count self.old
            → IsWriting set.now g (C.is_written copies.now) (C.words copies.now) (count + 1)
            self.new
            × (count + 1 < length (writes_of g)) }
        ensures flipped { result ≡ Ok Turn.Flipped → (g : Course) (count : ℕ)
            → IsWriting set.now g (C.is_written copies.now) (C.words copies.now) count self.old
            → count + 1 ≡ length (writes_of g) }
        ensures kept { self.new.job ≡ self.old.job }
        // The device holds the state before until the last write, and the state after from then on.
        ensures under_way { OnOk result ((g : Course) (count : ℕ)
            → IsWriting set.now g (C.is_written copies.now) (C.words copies.now) count self.old
            → IsUnderWayIn g count (F.start dev.old) (F.log dev.old)
            → IsUnderWayIn g (count + 1) (F.start dev.new) (F.log dev.new)) }
        ensures before { result ≡ Ok Turn.Wrote → (g : Course) (count : ℕ)
            → IsWriting set.now g (C.is_written copies.now) (C.words copies.now) count self.old
            → IsUnderWayIn g count (F.start dev.old) (F.log dev.old)
            → IsKindOn g.device
            → HoldsOn g.device g.held (words_in (F.start dev.new) (F.log dev.new)) }
        ensures after { result ≡ Ok Turn.Flipped → (g : Course) (count : ℕ)
            → IsWriting set.now g (C.is_written copies.now) (C.words copies.now) count self.old
            → IsUnderWayIn g count (F.start dev.old) (F.log dev.old)
            → IsKindOn g.device
            → HoldsOn g.device (held_after g) (words_in (F.start dev.new) (F.log dev.new)) }
        ensures cut { OnErr result ((g : Course) (count : ℕ)
            → IsWriting set.now g (C.is_written copies.now) (C.words copies.now) count self.old
            → IsUnderWayIn g count (F.start dev.old) (F.log dev.old)
            → IsKindOn g.device
            → IsBeforeOrAfter g count (words_in (F.start dev.new) (F.log dev.new))) }
        ensures other_slots { (g : Course) (count o slot i : ℕ)
            → IsWriting set.now g (C.is_written copies.now) (C.words copies.now) count self.old
            → IsUnderWayIn g count (F.start dev.old) (F.log dev.old)
            → IsSlotWord g.device.set o slot i
            → ((given : List ℕ) → written g.commit.writes o ≡ Some given
            → slice_index g.commit.after.slots o ≢ slot)
            → words_in (F.start dev.new) (F.log dev.new) (slot_on g.device o slot i)
            ≡ words_in (F.start dev.old) (F.log dev.old) (slot_on g.device o slot i) }
    {
        self.advance(dev, set, copies)
    }

    /// The root after the commit that was begun: that of the state after it, once its last write is made.
    pub fn next_root(&self) -> u32
        ensures { (g : Course) (is_written : ℕ → Bool) (words : ℕ → List ℕ)
            → IsBegun g is_written words self.now.job → result ≡ root_after g }
    {
        self.job.next_root
    }

    // The same, as far as the log and the writer go.
    fn advance<F: Fram, C: Copies>(
        &mut self,
        dev: &mut F,
        set: &TaskSet,
        copies: &C,
    ) -> Result<Turn, Lost>
        requires { (g : Course) × (count : ℕ)
            × IsWriting set.now g (C.is_written copies.now) (C.words copies.now) count self.old
            × (need_on g.device ≤ length (F.start dev.old)) }
        ensures written { OnOk result ((g : Course) (count : ℕ)
            → IsWriting set.now g (C.is_written copies.now) (C.words copies.now) count self.old
            → F.log dev.new ≡ F.log dev.old ++ write_number g count ∷ []) }
        ensures lost { OnErr result ((g : Course) (count : ℕ)
            → IsWriting set.now g (C.is_written copies.now) (C.words copies.now) count self.old
            → (F.log dev.new ≡ F.log dev.old)
            ⊎ (F.log dev.new ≡ F.log dev.old ++ write_number g count ∷ [])) }
        ensures start { F.start dev.new ≡ F.start dev.old }
        ensures failed { OnErr result (FaultCounted (F.lost dev.old) (F.lost dev.new)) }
        ensures never_falls { F.lost dev.old ≤ F.lost dev.new }
        ensures wrote { result ≡ Ok Turn.Wrote → (g : Course) (count : ℕ)
            → IsWriting set.now g (C.is_written copies.now) (C.words copies.now) count self.old
            → IsWriting set.now g (C.is_written copies.now) (C.words copies.now) (count + 1)
            self.new
            × (count + 1 < length (writes_of g)) }
        ensures flipped { result ≡ Ok Turn.Flipped → (g : Course) (count : ℕ)
            → IsWriting set.now g (C.is_written copies.now) (C.words copies.now) count self.old
            → count + 1 ≡ length (writes_of g) }
        ensures kept { self.new.job ≡ self.old.job }
    {
        let position = self.position;
        let (place, word) = self.job.write_at(copies, position);
        dev.write(place, word)?;
        self.position = self.job.after(set, position);
        Ok(match self.position {
            Position::Done => Turn::Flipped,
            _ => Turn::Wrote,
        })
    }
}
