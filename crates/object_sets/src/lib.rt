//! Sets of objects, kept as increasing lists of their numbers: the definitions, in
//! `specs/ObjectSets.antt`, and their laws. Each function here states a law and does nothing.
#![tactic(auto)]

ghost use Rattle.std.specs.Prelude.{ℕ, ◌≡◌, ◌<◌, ◌==◌, ◌||◌, true, List};
ghost use Rattle.object_sets.specs.ObjectSets.{is_among, with_object, AreBelow, IsIncreasing};

/// An increasing list stays one when an object is put in.
pub fn with_object_keeps_increasing()
    ensures { (o : ℕ) (xs : List ℕ) → IsIncreasing xs → IsIncreasing (with_object o xs) }
{}

/// Among the objects after one was put in are this one and those before, and no others.
pub fn with_object_adds_one()
    ensures { (o p : ℕ) (xs : List ℕ)
        → is_among p (with_object o xs) ≡ ((o == p) || is_among p xs) }
{}

/// All objects stay below a number when one below it is put in.
pub fn with_object_keeps_below()
    ensures { (n o : ℕ) (xs : List ℕ) → o < n → AreBelow n xs → AreBelow n (with_object o xs) }
{}

/// Two increasing lists with the same objects are one: a set has one spelling.
pub fn same_objects_same_list()
    ensures { (xs ys : List ℕ) → IsIncreasing xs → IsIncreasing ys
        → ((o : ℕ) → is_among o xs ≡ is_among o ys) → xs ≡ ys }
{}
