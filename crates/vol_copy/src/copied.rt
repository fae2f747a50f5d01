//! The words that are copied of the objects that an attempt reads, in memory that is taken once.

ghost use Rattle.std.specs.Prelude.{◌≡◌, ◌<◌, ◌≤◌, IfOk, length, slice_set};
ghost use Rattle.kernel_model.specs.Effects.{object_words};
ghost use Rattle.set_model.specs.Formatted.{formatted};
ghost use Rattle.task_model.specs.Shape.{HasShape};

use nv_base::limits::{MAX_OBJECTS, MAX_SIZE};
use nv_base::{NoMemory, ObjId};
use set_model::laws::formatted_state_is_fit;
use std::alloc::Global;
use std::marker::Model;
use task_set::TaskSet;

/// The words of one object, at most as many as the limits allow, which contracts see as their list.
#[derive(Debug, Drop)]
struct ObjectWords {
    items: Vec<u32>,
}

impl Model for ObjectWords {
    ghost use Rattle.std.specs.Prelude.{List, ℕ, ◌≤◌, length};
    ghost use Rattle.nv_base.specs.declared.limits.TheConstants.{MAX_SIZE};

    ghost Value = { List ℕ };

    ghost view = { λ w. w.items.items };

    ghost invariant = { λ w. length w.items.items ≤ MAX_SIZE };
}

impl ObjectWords {
    fn of(alloc: Global, words: &[u32]) -> Result<ObjectWords, NoMemory>
        requires { length words.now ≤ MAX_SIZE }
        ensures { IfOk result (λ w. w ≡ words.now) }
    {
        Ok(ObjectWords {
            items: Vec::from_slice(alloc, words)?,
        })
    }

    fn as_slice(&self) -> &[u32]
        ensures exact { result.now ≡ self.now }
        ensures small { length result.now ≤ MAX_SIZE }
    {
        self.items.as_slice()
    }

    fn put(&mut self, i: u8, word: u32)
        requires { i < length self.old }
        ensures { self.new ≡ slice_set self.old i word }
    {
        self.items[usize::from(i)] = word;
    }
}

/// The copied words of each object, by its number: at most as many objects and words as the limits allow. Contracts
/// see a list of lists.
#[derive(Debug, Drop)]
pub(crate) struct CopiedWords {
    items: Vec<ObjectWords>,
}

impl Model for CopiedWords {
    ghost use Rattle.std.specs.Prelude.{List, ℕ, ◌≤◌, length};
    ghost use Rattle.nv_base.specs.declared.limits.TheConstants.{MAX_OBJECTS};

    ghost Value = { List (List ℕ) };

    ghost view = { λ c. c.items.items };

    ghost invariant = { λ c. length c.items.items ≤ MAX_OBJECTS };
}

impl CopiedWords {
    /// Room for a copy of each object of a set. Until an object is copied, its first words stand there.
    pub(crate) fn of_set(alloc: Global, set: &TaskSet) -> Result<CopiedWords, NoMemory>
        ensures exact { IfOk result (λ c. c ≡ (formatted set.now).objects) }
        ensures shape { IfOk result (λ c. HasShape set.now c) }
    {
        let mut copies = CopiedWords {
            items: Vec::with_capacity(alloc, usize::from(set.objects()))?,
        };
        for object in 0..set.objects() {
            copies
                .items
                .push(ObjectWords::of(alloc, set.first(ObjId(object)))?)?;
        }
        formatted_state_is_fit();
        Ok(copies)
    }

    /// The words of an object.
    pub(crate) fn get(&self, o: ObjId) -> &[u32]
        requires { o.0 < length self.now }
        ensures exact { result.now ≡ object_words self.now o.0 }
        ensures small { length result.now ≤ MAX_SIZE }
        ensures few { length self.now ≤ MAX_OBJECTS }
    {
        self.items[usize::from(o.0)].as_slice()
    }

    /// Puts word i of an object.
    pub(crate) fn put(&mut self, o: ObjId, i: u8, word: u32)
        requires inside { o.0 < length self.old }
        requires index { i < length (object_words self.old o.0) }
        ensures { let words = slice_set (object_words self.old o.0) i word in
            self.new ≡ slice_set self.old o.0 words }
    {
        self.items[usize::from(o.0)].put(i, word);
    }
}
