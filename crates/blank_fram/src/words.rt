//! Words with zeros behind them: only those up to the last one given or written are kept.

ghost use Rattle.std.specs.Prelude.{◌≡◌, ◌+◌, ◌-◌, ◌<◌, ◌≤◌, [], ◌∷◌, ◌++◌, IfOk, length, replicate, slice_index, slice_set, vec_capacity};

use nv_base::NoMemory;
use std::alloc::Global;
use std::marker::Model;

/// A fixed number of words. Contracts see the words.
#[derive(Debug, Drop)]
pub(crate) struct BlankWords {
    // there is room for the words behind these, too, but it is not touched
    kept: Vec<u32>,
    // so many words behind those are zero
    zeros: usize,
}

impl Model for BlankWords {
    ghost use Rattle.std.specs.Prelude.{◌+◌, ◌≤◌, ◌++◌, length, replicate, vec_capacity};
    ghost use Rattle.blank_fram.specs.Words.{Words};

    ghost Value = { Words };

    ghost view = { λ w. record { items = w.kept.items ++ replicate w.zeros 0 } };

    ghost invariant = { λ w. length w.kept.items + w.zeros ≤ vec_capacity w.kept };
}

impl BlankWords {
    /// These words. `NoMemory` where there is no room for them.
    pub(crate) fn given(alloc: Global, words: &[u32]) -> Result<BlankWords, NoMemory>
        ensures { IfOk result (λ w. w.items ≡ words.now) }
    {
        Ok(BlankWords {
            kept: words.to_vec(alloc)?,
            zeros: 0,
        })
    }

    /// So many zeros. `NoMemory` where there is no room for other words in their place.
    pub(crate) fn zeros(alloc: Global, count: usize) -> Result<BlankWords, NoMemory>
        ensures { IfOk result (λ w. w.items ≡ replicate count 0) }
    {
        Ok(BlankWords {
            kept: Vec::with_capacity(alloc, count)?,
            zeros: count,
        })
    }

    /// The word at a place.
    #[inline(always)]
    pub(crate) fn get(&self, at: usize) -> u32
        requires { at < length self.now.items }
        ensures { result ≡ slice_index self.now.items at }
    {
        if at < self.kept.len() {
            return self.kept[at];
        }
        0
    }

    /// Puts a word into its place.
    #[inline(always)]
    pub(crate) fn set(&mut self, at: usize, word: u32)
        requires { at < length self.old.items }
        ensures { self.new.items ≡ slice_set self.old.items at word }
    {
        if at < self.kept.len() {
            self.kept[at] = word;
        } else {
            self.zeros -= reach(&mut self.kept, at, word);
        }
    }

    /// The list of all words.
    pub(crate) fn into_vec(self) -> Vec<u32>
        ensures { result.items ≡ self.items }
    {
        let mut kept = self.kept;
        push_zeros(&mut kept, self.zeros);
        kept
    }
}

// Puts a word behind those that are kept, and zeros between. How many words more are kept then.
#[cold]
#[inline(never)]
fn reach(kept: &mut Vec<u32>, at: usize, word: u32) -> usize
    requires behind { length kept.old.items ≤ at }
    requires room { at < vec_capacity kept.old }
    ensures count { length kept.old.items + result ≡ at + 1 }
    ensures words { let between = at - length kept.old.items in
        kept.new.items ≡ kept.old.items ++ replicate between 0 ++ word ∷ [] }
    ensures room { vec_capacity kept.new ≡ vec_capacity kept.old }
{
    let between = at - kept.len();
    push_zeros(kept, between);
    kept.push_reserved(word);
    between + 1
}

// Puts so many zeros behind the words that are kept.
fn push_zeros(kept: &mut Vec<u32>, count: usize)
    requires { length kept.old.items + count ≤ vec_capacity kept.old }
    ensures words { kept.new.items ≡ kept.old.items ++ replicate count 0 }
    ensures room { vec_capacity kept.new ≡ vec_capacity kept.old }
{
    for _ in 0..count {
        kept.push_reserved(0);
    }
}
