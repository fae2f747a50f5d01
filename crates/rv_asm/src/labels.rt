//! The labels of a text, each with its first line and the number of words before it.

ghost use Rattle.std.specs.Prelude.{◌≡◌, Some, None, not, is_some, IfOk, OnOk, ℕ, List};
ghost use Rattle.rv_asm.specs.Labels.{noted};

use indexmap::IndexMap;
use std::alloc::{AllocError, Global};

/// The line on which a label first stands, counted from 1, and the number of words before it.
#[derive(Clone, Copy, Debug, PartialEq, Eq)]
pub struct Spot {
    pub line: u32,
    pub place: u32,
}

/// The labels of a text, each with its first spot.
#[derive(Debug, Drop)]
pub struct Labels<'a> {
    spots: IndexMap<&'a [u8], Spot>,
}

impl<'a> Labels<'a> {
    ghost use Rattle.rv_asm.specs.Found.{find_in};

    /// No labels.
    pub fn new(alloc: Global) -> Labels<'a>
        ensures { (name : List ℕ) → find_in result name ≡ None }
    {
        Labels {
            spots: IndexMap::new(alloc),
        }
    }

    /// The first spot of a label; none where it stands nowhere.
    pub fn find(&self, name: &[u8]) -> Option<Spot>
        ensures { result ≡ find_in self.now name.now }
    {
        self.spots.get(name).copied()
    }

    /// Notes the spot of a label, unless it has one; whether it was new.
    pub fn note(&mut self, name: &'a [u8], spot: Spot) -> Result<bool, AllocError>
        ensures new_ { IfOk result (λ fresh. fresh
            ≡ not (is_some (find_in self.old name.entry.now))) }
        ensures noted { OnOk result (find_in self.new
            ≡ noted (find_in self.old) (Some name.entry.now) spot) }
    {
        if self.find(name).is_some() {
            return Ok(false);
        }
        self.spots.insert(name, spot)?;
        Ok(true)
    }
}
