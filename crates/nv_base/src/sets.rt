// Sets of objects, each in one word of 128 bits.

ghost use Rattle.std.specs.Prelude.{◌≡◌, ◌<◌, ◌∷◌, [], MatchOption};
ghost use Rattle.object_sets.specs.ObjectSets.{is_among, with_object, AreBelow, IsIncreasing};

use crate::ids::ObjId;
use crate::limits::MAX_OBJECTS;
use std::marker::Model;

/// A set of objects below 128, which contracts see as the increasing list of their numbers.
#[derive(Clone, Copy, PartialEq, Eq, Debug)]
pub struct ObjSet {
    // object k is in the set where bit k is 1
    bits: u128,
}

impl Model for ObjSet {
    ghost use Rattle.std.specs.Prelude.{ℕ, List, ◌<◌, ◌^◌};
    ghost use Rattle.nv_base.specs.Bits.{objects_of, bits_word};
    ghost use Rattle.nv_base.specs.WordBack.{bits_word-objects_of};
    ghost use Rattle.std.proofs.Common.{ap};

    ghost Value = { List ℕ };

    ghost view = { λ a. objects_of a.bits };

    ghost invariant = { λ a. a.bits < 2 ^ 128 };

    ghost inverse = { λ xs. record { bits = bits_word xs } };

    ghost inverse_ok = { λ a h. ap (λ b. record { bits = b }) (bits_word-objects_of a.bits h) };
}

impl ObjSet {
    /// The set with no object.
    pub fn empty() -> ObjSet
        ensures { result ≡ [] }
    {
        ObjSet { bits: 0 }
    }

    /// Puts an object into the set.
    pub fn add(&mut self, o: ObjId)
        requires { o.0 < MAX_OBJECTS }
        ensures added { self.new ≡ with_object o.0 self.old }
        ensures increasing { IsIncreasing self.new }
        ensures below { AreBelow MAX_OBJECTS self.new }
    {
        self.bits |= 1 << o.0;
    }

    /// Whether an object is in the set. The clauses tell of each set that it is increasing.
    pub fn has(&self, o: ObjId) -> bool
        requires { o.0 < MAX_OBJECTS }
        ensures among { result ≡ is_among o.0 self.now }
        ensures increasing { IsIncreasing self.now }
        ensures below { AreBelow MAX_OBJECTS self.now }
    {
        self.bits >> o.0 & 1 == 1
    }

    /// Takes the least object out: none where the set is empty.
    pub fn take_least(&mut self) -> Option<ObjId>
        ensures taken { MatchOption result ((self.old ≡ []) × (self.new ≡ []))
            (λ o. self.old ≡ o.0 ∷ self.new) }
        ensures increasing { IsIncreasing self.old }
        ensures below { AreBelow MAX_OBJECTS self.old }
    {
        if self.bits == 0 {
            return None;
        }
        let least = self.bits.trailing_zeros() as u8;
        self.bits &= !(1 << least);
        Some(ObjId(least))
    }
}
