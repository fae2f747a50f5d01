// Steps that are worked out before their turns come.

ghost use Rattle.std.specs.Prelude.{◌≡◌, ℕ, ◌≤◌, ◌<◌, ◌++◌, [], length};
ghost use Rattle.std.specs.Iterator.{YieldsFirst};

use crate::core_steps::CoreSteps;
use std::marker::Model;

/// How many steps are worked out at once, at most.
const ROOM: usize = 64;

/// The next steps, which contracts see as the list of their cores.
#[derive(Debug, Drop)]
pub(crate) struct Ahead {
    cores: [u8; ROOM],
    // the first that was not taken
    next: usize,
    // how many were worked out
    count: usize,
}

impl Model for Ahead {
    ghost use Rattle.std.specs.Prelude.{ℕ, ◌≡◌, ◌≤◌, List, drop, take, length};

    ghost Value = { List ℕ };

    ghost view = { λ a. drop a.next (take a.count a.cores) };

    ghost invariant = { λ a. (a.next ≤ a.count) × (a.count ≤ 64) × (length a.cores ≡ 64) };
}

impl Ahead {
    /// None yet.
    pub(crate) fn new() -> Ahead
        ensures { result ≡ [] }
    {
        Ahead {
            cores: [0; ROOM],
            next: 0,
            count: 0,
        }
    }

    /// The core of the next step.
    #[inline(always)]
    pub(crate) fn next_core(&mut self) -> Option<u8>
        ensures { YieldsFirst (λ cores. cores) self.old result self.new }
    {
        if self.next >= self.count {
            return None;
        }
        let core = self.cores[self.next];
        self.next += 1;
        Some(core)
    }

    /// In place of what there was, the first of some steps, and at most so many: at least one, if there is one. How many.
    pub(crate) fn fill(&mut self, steps: &mut CoreSteps<'_>, most: u32) -> u32
        requires { 0 < most }
        ensures steps { steps.old ≡ self.new ++ steps.new }
        ensures count { result ≡ length self.new }
        ensures most { result ≤ most }
        ensures some { self.new ≡ [] → steps.new ≡ [] }
    {
        let most = ROOM.min(most as usize);
        self.count = steps.fill(&mut self.cores[..most]);
        self.next = 0;
        self.count as u32
    }
}
