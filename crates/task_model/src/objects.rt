//! The words of the objects, in memory that is taken once.

ghost use Rattle.std.specs.Prelude.{◌≡◌, ◌<◌, ◌≤◌, ◌+◌, ◌++◌, ◌∷◌, [], IfOk, MatchResult, length, slice_set};
ghost use Rattle.rv_core.specs.Machine.{words_at, IsPlace};
ghost use Rattle.kernel_model.specs.Effects.{object_words};
ghost use Rattle.set_model.specs.Formatted.{formatted};
ghost use Rattle.task_model.specs.TaskSteps.{with_part};
ghost use Rattle.task_model.specs.Shape.{AreAlike, HasShape};

use crate::part::Part;
use nv_base::limits::{MAX_OBJECTS, MAX_SIZE};
use nv_base::{NoMemory, ObjId};
use rv_core::Machine;
use set_model::laws::formatted_state_is_fit;
use std::alloc::Global;
use std::marker::Model;
use task_set::TaskSet;

/// The words of one object, at most as many as the limits allow, which contracts see as their list.
#[derive(Debug, Drop)]
struct Words {
    items: Vec<u32>,
}

impl Model for Words {
    ghost use Rattle.std.specs.Prelude.{List, ℕ, ◌≤◌, length};
    ghost use Rattle.nv_base.specs.declared.limits.TheConstants.{MAX_SIZE};

    ghost Value = { List ℕ };

    ghost view = { λ w. w.items.items };

    ghost invariant = { λ w. length w.items.items ≤ MAX_SIZE };
}

impl Words {
    fn of(alloc: Global, words: &[u32]) -> Result<Words, NoMemory>
        requires { length words.now ≤ MAX_SIZE }
        ensures { IfOk result (λ w. w ≡ words.now) }
    {
        Ok(Words {
            items: Vec::from_slice(alloc, words)?,
        })
    }

    fn as_slice(&self) -> &[u32]
        ensures exact { result.now ≡ self.now }
        ensures small { length result.now ≤ MAX_SIZE }
    {
        self.items.as_slice()
    }

    // As many words as there are, from an address of a machine's memory.
    fn take_from(&mut self, machine: &Machine, at: u32)
        requires { IsPlace machine.now at (length self.old) }
        ensures { self.new ≡ words_at machine.now.memory at (length self.old) }
    {
        machine.copy_out(at, self.items.as_mut_slice());
    }

    // The words of a part, from a machine's memory, in place of those that there are.
    fn take_part(&mut self, part: Part, machine: &Machine)
        requires place { IsPlace machine.now part.at part.count }
        requires inside { part.first + part.count ≤ length self.old }
        ensures { let taken = words_at machine.now.memory part.at part.count in
            self.new ≡ with_part part.first taken self.old }
    {
        let first = part.first as usize;
        machine.copy_out(
            part.at,
            &mut self.items.as_mut_slice()[first..first + part.count as usize],
        );
    }

    fn set(&mut self, words: &[u32])
        requires { length words.now ≡ length self.old }
        ensures { self.new ≡ words.now }
    {
        self.items.as_mut_slice().copy_from_slice(words);
    }
}

/// The words of each object, by its number: at most as many objects and words as the limits allow. Contracts see a
/// list of lists.
#[derive(Debug, Drop)]
pub struct Objects {
    items: Vec<Words>,
}

impl Model for Objects {
    ghost use Rattle.std.specs.Prelude.{List, ℕ, ◌≤◌, length};
    ghost use Rattle.nv_base.specs.declared.limits.TheConstants.{MAX_OBJECTS};

    ghost Value = { List (List ℕ) };

    ghost view = { λ o. o.items.items };

    ghost invariant = { λ o. length o.items.items ≤ MAX_OBJECTS };
}

impl Objects {
    /// No objects yet.
    pub fn new(alloc: Global) -> Objects
        ensures { result ≡ [] }
    {
        Objects {
            items: Vec::new(alloc),
        }
    }

    /// How many objects there are.
    pub fn len(&self) -> usize
        ensures exact { result ≡ length self.now }
        ensures few { result ≤ MAX_OBJECTS }
    {
        self.items.len()
    }

    /// The words of an object.
    pub fn get(&self, o: ObjId) -> &[u32]
        requires { o.0 < length self.now }
        ensures exact { result.now ≡ object_words self.now o.0 }
        ensures small { length result.now ≤ MAX_SIZE }
    {
        self.items[usize::from(o.0)].as_slice()
    }

    /// Adds an object behind the others. `NoMemory` leaves the objects as they were.
    pub fn push(&mut self, alloc: Global, words: &[u32]) -> Result<(), NoMemory>
        requires few { length self.old < MAX_OBJECTS }
        requires small { length words.now ≤ MAX_SIZE }
        ensures { let more = self.old ++ words.now ∷ [] in
            MatchResult result (λ _. self.new ≡ more) (λ _. self.new ≡ self.old) }
    {
        let words = Words::of(alloc, words)?;
        self.items.push(words)?;
        Ok(())
    }

    /// The same words in memory of their own.
    pub fn copy(&self, alloc: Global) -> Result<Objects, NoMemory>
        ensures { IfOk result (λ o. o ≡ self.now) }
    {
        let mut items = Vec::with_capacity(alloc, self.items.len())?;
        for words in &self.items {
            items.push(Words::of(alloc, words.as_slice())?)?;
        }
        Ok(Objects { items })
    }

    /// Takes an object's words from an address of a machine's memory.
    pub fn take_from(&mut self, o: ObjId, machine: &Machine, at: u32)
        requires inside { o.0 < length self.old }
        requires place { IsPlace machine.now at (length (object_words self.old o.0)) }
        ensures { let taken = words_at machine.now.memory at (length (object_words self.old o.0)) in
            self.new ≡ slice_set self.old o.0 taken }
    {
        self.items[usize::from(o.0)].take_from(machine, at);
    }

    /// Takes a part of an object's words from a machine's memory.
    pub fn take_part(&mut self, o: ObjId, part: Part, machine: &Machine)
        requires inside { o.0 < length self.old }
        requires place { IsPlace machine.now part.at part.count }
        requires range { part.first + part.count ≤ length (object_words self.old o.0) }
        ensures { let taken = words_at machine.now.memory part.at part.count in
            self.new ≡ slice_set self.old o.0
            (with_part part.first taken (object_words self.old o.0)) }
    {
        self.items[usize::from(o.0)].take_part(part, machine);
    }

    /// Takes over these words of an object, and then a part of them from a machine's memory.
    pub fn take_over(&mut self, o: ObjId, words: &[u32], part: Part, machine: &Machine)
        requires inside { o.0 < length self.old }
        requires size { length words.now ≡ length (object_words self.old o.0) }
        requires place { IsPlace machine.now part.at part.count }
        requires range { part.first + part.count ≤ length words.now }
        ensures { let taken = words_at machine.now.memory part.at part.count in
            self.new ≡ slice_set self.old o.0 (with_part part.first taken words.now) }
    {
        let there = &mut self.items[usize::from(o.0)];
        there.set(words);
        there.take_part(part, machine);
    }

    /// Takes over the words of an object.
    pub fn set(&mut self, o: ObjId, words: &[u32])
        requires inside { o.0 < length self.old }
        requires size { length words.now ≡ length (object_words self.old o.0) }
        ensures { self.new ≡ slice_set self.old o.0 words.now }
    {
        self.items[usize::from(o.0)].set(words);
    }

    /// Takes the words of other objects, as many of each.
    pub(crate) fn restore(&mut self, others: &Objects)
        requires { AreAlike self.old others.now }
        ensures { self.new ≡ others.now }
    {
        for object in 0..others.items.len() {
            self.items[object].set(others.items[object].as_slice());
        }
    }
}

/// The objects that a format leaves: the first words of each object of the set.
pub fn first_objects(alloc: Global, set: &TaskSet) -> Result<Objects, NoMemory>
    ensures exact { IfOk result (λ o. o ≡ (formatted set.now).objects) }
    ensures shape { IfOk result (λ o. HasShape set.now o) }
{
    let mut objects = Objects::new(alloc);
    for object in 0..set.objects() {
        objects.push(alloc, set.first(ObjId(object)))?;
    }
    formatted_state_is_fit();
    Ok(objects)
}
