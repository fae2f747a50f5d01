//! What a run has beside its kernel, made once.

ghost use Rattle.std.specs.Prelude.{IfOk};
ghost use Rattle.simulation.specs.Places.{HasPlace};

use nv_base::NoMemory;
use nv_base::limits::MAX_SIZE;
use report::LineBuf;
use shadow_index::State;
use std::alloc::Global;
use task_set::TaskSet;

/// A buffer for a line, and room for the state that is read back and for the words of an object.
#[derive(Drop)]
pub struct Place {
    pub(crate) text: LineBuf,
    pub(crate) state: State,
    pub(crate) words: Vec<u32>,
}

impl Place {
    /// Takes all of it for a set. `NoMemory` where there is not enough.
    pub fn room(alloc: Global, set: &TaskSet) -> Result<Place, NoMemory>
        ensures { IfOk result (HasPlace set.now) }
    {
        let text = LineBuf::new(alloc)?;
        let state = State::room(alloc, set)?;
        let words = Vec::with_capacity(alloc, usize::from(MAX_SIZE))?;
        Ok(Place { text, state, words })
    }
}
