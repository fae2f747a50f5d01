//! The words that a device began with: those that were given, or zeros, of which there is no list.

ghost use Rattle.std.specs.Prelude.{◌≡◌, IfOk, replicate};

use nv_base::NoMemory;
use std::alloc::Global;
use std::marker::Model;

/// The words that a device began with. Contracts see the words.
#[derive(Debug, Drop)]
pub(crate) struct StartWords {
    given: Vec<u32>,
    // so many words behind those are zero
    zeros: u32,
}

impl Model for StartWords {
    ghost use Rattle.std.specs.Prelude.{◌++◌, replicate};
    ghost use Rattle.blank_fram.specs.Words.{Words};

    ghost Value = { Words };

    ghost view = { λ s. record { items = s.given.items ++ replicate s.zeros 0 } };
}

impl StartWords {
    /// These words. `NoMemory` where there is no room for them.
    pub(crate) fn given(alloc: Global, words: &[u32]) -> Result<StartWords, NoMemory>
        ensures { IfOk result (λ s. s.items ≡ words.now) }
    {
        Ok(StartWords {
            given: words.to_vec(alloc)?,
            zeros: 0,
        })
    }

    /// So many zeros.
    pub(crate) fn zeros(alloc: Global, count: u32) -> StartWords
        ensures { result.items ≡ replicate count 0 }
    {
        StartWords {
            given: Vec::new(alloc),
            zeros: count,
        }
    }
}
