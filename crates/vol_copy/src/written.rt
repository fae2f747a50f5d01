//! The words that an attempt has written, as the writer of a commit asks for them.

ghost use Rattle.std.specs.Prelude.{◌≡◌, true};
ghost use Rattle.object_sets.specs.ObjectSets.{AreBelow, is_among};
ghost use Rattle.kernel_model.specs.Effects.{object_words};

use crate::attempt::Attempt;
use nv_base::limits::MAX_OBJECTS;
use nv_base::{ObjId, ObjSet};
use shadow_index::Copies;

// Whether an object of any number is in a set.
fn has(objects: ObjSet, o: ObjId) -> bool
    ensures { result ≡ is_among o.0 objects }
{
    if o.0 < MAX_OBJECTS {
        return objects.has(o);
    }
    are_below(objects);
    false
}

// No object of a set has a number as great as that.
fn are_below(objects: ObjSet)
    ensures { AreBelow MAX_OBJECTS objects }
{
    let _zero = objects.has(ObjId(0));
}

impl Attempt {
    /// The words that it wrote last to an object.
    pub fn copy_of(&self, o: ObjId) -> &[u32]
        requires { is_among o.0 self.now.written ≡ true }
        ensures { result.now ≡ object_words self.now.words o.0 }
    {
        if usize::from(o.0) < self.words.len() {
            return self.words.get(o);
        }
        &[]
    }
}

impl Copies for Attempt {
    ghost use Rattle.object_sets.specs.ObjectSets.{is_among};
    ghost use Rattle.kernel_model.specs.Effects.{object_words};

    ghost is_written = { λ a o. is_among o a.written };

    ghost words = { λ a o. object_words a.words o };

    fn writes(&self, o: ObjId) -> bool {
        has(self.written, o)
    }

    fn copy_word_of(&self, o: ObjId, i: u8) -> u32 {
        self.words.get(o)[usize::from(i)]
    }
}
