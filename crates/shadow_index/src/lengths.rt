//! How many words the parts of a set take on a device.

ghost use Rattle.std.specs.Prelude.{◌≡◌, ◌≤◌, length, sum_by};
ghost use Rattle.set_model.specs.Limits.{IsTaskSet};
ghost use Rattle.set_model.specs.Numbers.{first_index, index_words, words_needed};
ghost use Rattle.device_model.specs.Layouts.{slots_words};

use crate::bounds::{MAX_CODE_WORDS, MAX_FIRST_INDEX, MAX_INDEX_WORDS, MAX_SLOTS_WORDS};
use nv_base::{ObjId, ProgId};
use task_set::TaskSet;

/// How many words stand before the first index place of format 1: the header, the directory and the code.
pub(crate) fn first_index(set: &TaskSet) -> u32
    ensures exact { result ≡ first_index set.now }
    ensures small { result ≤ MAX_FIRST_INDEX }
{
    let directory = 7 + u32::from(set.objects()) + 2 * u32::from(set.programs());
    directory + code_words(set)
}

/// How many words the code has.
fn code_words(set: &TaskSet) -> u32
    ensures exact { result ≡ sum_by (λ p. length p.code) set.now.programs }
    ensures small { result ≤ MAX_CODE_WORDS }
{
    let mut words = 0;
    for p in 0..set.programs() {
        words += set.code(ProgId(p)).len() as u32;
    }
    words
}

/// How many words the index has.
pub(crate) fn index_words(set: &TaskSet) -> u32
    ensures exact { result ≡ index_words set.now }
    ensures small { result ≤ MAX_INDEX_WORDS }
    ensures limits { IsTaskSet set.now }
{
    9 + u32::from(set.objects()) + 3 * u32::from(set.records())
}

/// How many words the slots of all objects have.
pub(crate) fn slots_words(set: &TaskSet) -> u32
    ensures exact { result ≡ sum_by slots_words set.now.objects }
    ensures small { result ≤ MAX_SLOTS_WORDS }
{
    let mut words = 0;
    for o in 0..set.objects() {
        words += u32::from(set.size(ObjId(o))) * u32::from(set.slots(ObjId(o)));
    }
    words
}
