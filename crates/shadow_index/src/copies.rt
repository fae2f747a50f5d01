//! The words that a finish writes, as the writer of a commit asks for them.

ghost use Rattle.std.specs.Prelude.{◌≡◌, ℕ, ◌<◌, List, Bool, true, length, slice_index};

use nv_base::ObjId;

/// Which objects a finish writes, and their words.
pub trait Copies {
    /// Whether an object is written.
    ghost is_written: { Self → ℕ → Bool };

    /// The words of a written object.
    ghost words: { Self → ℕ → List ℕ };

    /// Whether an object is written.
    fn writes(&self, o: ObjId) -> bool
        ensures { result ≡ is_written self.now o.0 };

    /// Word i of a written object.
    fn copy_word_of(&self, o: ObjId, i: u8) -> u32
        requires written { is_written self.now o.0 ≡ true }
        requires index { i < length (words self.now o.0) }
        ensures { result ≡ slice_index (words self.now o.0) i };
}
