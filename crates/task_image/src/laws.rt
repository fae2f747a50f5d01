//! What holds of packed sets, and of the places at which bytes are refused.

ghost use Rattle.std.specs.Prelude.{◌≡◌, ◌≤◌, ◌+◌, ℕ, List, [], ◌++◌, length, take, Ok, Err};
ghost use Rattle.set_model.specs.Limits.{IsTaskSet};
ghost use Rattle.set_model.specs.Names.{IsNamed};
ghost use Rattle.set_model.specs.Sets.{TaskSet};
ghost use Rattle.task_image.specs.Packed.{packed};
ghost use Rattle.task_image.specs.Reading.{AreBytes};
ghost use Rattle.task_image.specs.Unpacked.{unpacked};

use nv_base::limits::MAX_NAME;

/// The most bytes of a packed set.
pub const MAX_PACKED: u32 = 106_244;

/// Each set is read from its packed bytes.
pub fn packed_is_read()
    ensures { (set : TaskSet) → IsTaskSet set → IsNamed set → unpacked (packed set) ≡ Ok set }
{}

/// Bytes that are read as a set are its packed bytes, and the set is within all limits and has names.
pub fn read_is_packed()
    ensures { (bytes : List ℕ) (set : TaskSet) → AreBytes bytes → unpacked bytes ≡ Ok set
        → (bytes ≡ packed set) × IsTaskSet set × IsNamed set }
{}

/// The packed bytes of no set begin with those of another: sets with the same bytes are the same.
pub fn none_begins_another()
    ensures { (a b : TaskSet) (rest : List ℕ) → IsTaskSet a → IsNamed a → IsTaskSet b → IsNamed b
        → packed a ++ rest ≡ packed b → (a ≡ b) × (rest ≡ []) }
{}

/// A refused place is in the bytes or at their end, and at most where the longest packed set ends.
pub fn place_is_near()
    ensures { (bytes : List ℕ) (place : ℕ) → AreBytes bytes → unpacked bytes ≡ Err place
        → (place ≤ length bytes) × (place ≤ MAX_PACKED) }
{}

/// A refusal rests on the bytes up to the end of its field, of which the longest has 16: bytes that agree so far are refused at the same place.
pub fn refusal_is_local()
    ensures { (bytes other : List ℕ) (place : ℕ) → AreBytes bytes → unpacked bytes ≡ Err place
        → take (place + MAX_NAME) other ≡ take (place + MAX_NAME) bytes
        → unpacked other ≡ Err place }
{}
