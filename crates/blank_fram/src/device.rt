//! A device in memory, given or of zeros: it loses every call once its writes are used up.

ghost use Rattle.std.specs.Prelude.{◌≡◌, ◌+◌, ◌-◌, ◌<◌, ◌≤◌, ◌⊎◌, List, [], ◌∷◌, ◌++◌, IfOk, OnOk, OnErr, IsOk, IsErr, slice_index, length, replicate, vec_len, vec_capacity};
ghost use Rattle.nv_base.specs.Streams.{FaultCounted};
ghost use Rattle.fram_dev.specs.Device.{made_in};

use crate::start::StartWords;
use crate::words::BlankWords;
use fram_dev::{Fram, Lost};
use nv_base::NoMemory;
use std::alloc::Global;

/// A device in memory. The words behind the last one that was given or written are 0, and take no time and no memory.
#[derive(Debug, Drop)]
pub struct BlankFram {
    start: StartWords,
    words: BlankWords,
    // how many words there are
    count: u32,
    log: Vec<(u32, u32)>,
    // how many writes pass yet
    passes: u32,
    lost: u64,
    ghost same_words: { words.items ≡ made_in log.items start.items },
    ghost same_len: { length words.items ≡ length start.items },
    ghost same_count: { length start.items ≡ count },
    ghost room: { vec_len log + passes ≤ vec_capacity log },
}

impl BlankFram {
    ghost use Rattle.blank_fram.specs.Device.{IsNew, Passes};

    /// A device of so many words, all 0. It passes so many writes, and then loses every call. `NoMemory` where there is no
    /// room for the words or for the log.
    pub fn zeros(alloc: Global, words: u32, writes: u32) -> Result<BlankFram, NoMemory>
        ensures fresh { IfOk result (IsNew (replicate words 0)) }
        ensures passes { IfOk result (Passes writes) }
    {
        let start = StartWords::zeros(alloc, words);
        let zeros = BlankWords::zeros(alloc, words as usize)?;
        BlankFram::begin(alloc, start, zeros, words, writes)
    }

    /// A device with these words, else as of `zeros`.
    pub fn given(alloc: Global, words: &[u32], writes: u32) -> Result<BlankFram, NoMemory>
        requires { length words.now < 4294967296 }
        ensures fresh { IfOk result (IsNew words.now) }
        ensures passes { IfOk result (Passes writes) }
    {
        let start = StartWords::given(alloc, words)?;
        let same = BlankWords::given(alloc, words)?;
        BlankFram::begin(alloc, start, same, words.len() as u32, writes)
    }

    fn begin(
        alloc: Global,
        start: StartWords,
        words: BlankWords,
        count: u32,
        writes: u32,
    ) -> Result<BlankFram, NoMemory>
        requires same { words.items ≡ start.items }
        requires count { length start.items ≡ count }
        ensures fresh { IfOk result (IsNew start.items) }
        ensures passes { IfOk result (Passes writes) }
    {
        Ok(BlankFram {
            start,
            words,
            count,
            log: Vec::with_capacity(alloc, writes as usize)?,
            passes: writes,
            lost: 0,
        })
    }

    /// The words as they stand.
    pub fn into_words(self) -> Vec<u32>
        ensures { result.items ≡ made_in self.log.items self.start.items }
    {
        self.words.into_vec()
    }

    // counts a lost call
    #[cold]
    fn lose(&mut self) -> Lost
        ensures start { self.new.start ≡ self.old.start }
        ensures words { self.new.words ≡ self.old.words }
        ensures count { self.new.count ≡ self.old.count }
        ensures log { self.new.log ≡ self.old.log }
        ensures passes { self.new.passes ≡ self.old.passes }
        ensures lost { FaultCounted self.old.lost self.new.lost }
    {
        self.lost = self.lost.saturating_add(1);
        Lost
    }
}

impl Fram for BlankFram {
    ghost start = { λ m. m.start.items };

    ghost log = { λ m. m.log.items };

    ghost lost = { λ m. m.lost };

    fn len(&self) -> u32 {
        self.count
    }

    fn read(&mut self, at: u32) -> Result<u32, Lost>
        requires { at < length self.old.start.items }
        ensures word { IfOk result (λ word. word
            ≡ slice_index (made_in (self.old.log.items) self.old.start.items) at) }
        ensures kept { self.new.log.items ≡ self.old.log.items }
        ensures same { self.new.start.items ≡ self.old.start.items }
        ensures failed { OnErr result (FaultCounted (self.old.lost) (self.new.lost)) }
        ensures never_falls { self.old.lost ≤ self.new.lost }
        ensures alive { 0 < self.old.passes → IsOk result }
        ensures dead { self.old.passes ≡ 0 → IsErr result }
        ensures passes { self.new.passes ≡ self.old.passes }
    {
        if self.passes == 0 {
            return Err(self.lose());
        }
        Ok(self.words.get(at as usize))
    }

    fn write(&mut self, at: u32, word: u32) -> Result<(), Lost>
        requires { at < length self.old.start.items }
        ensures written { OnOk result (self.new.log.items ≡ self.old.log.items ++ (at, word) ∷ []) }
        ensures either { OnErr result ((self.new.log.items ≡ self.old.log.items)
            ⊎ (self.new.log.items ≡ self.old.log.items ++ (at, word) ∷ [])) }
        ensures same { self.new.start.items ≡ self.old.start.items }
        ensures failed { OnErr result (FaultCounted (self.old.lost) (self.new.lost)) }
        ensures never_falls { self.old.lost ≤ self.new.lost }
        ensures alive { 0 < self.old.passes
            → (IsOk result) × (self.new.passes ≡ self.old.passes - 1) }
        ensures dead { self.old.passes ≡ 0
            → (IsErr result) × (self.new.passes ≡ 0)
            × (self.new.log.items ≡ self.old.log.items) }
    {
        if self.passes == 0 {
            return Err(self.lose());
        }
        self.passes -= 1;
        self.words.set(at as usize, word);
        self.log.push_reserved((at, word));
        Ok(())
    }

    fn losses(&self) -> u64 {
        self.lost
    }
}
