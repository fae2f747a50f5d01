//! The tasks that a task asks for while it runs.

ghost use Rattle.std.specs.Prelude.{◌≡◌, ◌<◌, ◌≤◌, ◌++◌, ◌∷◌, [], IfOk, length};

use nv_base::{NoMemory, Spawn, limits};
use std::alloc::Global;
use std::marker::Model;

/// How many tasks a task may spawn.
pub const MAX_SPAWNS: usize = limits::MAX_SPAWNS as usize;

/// The tasks that a task spawned, in order: at most so many, with room for all from the first on.
#[derive(Debug, Drop)]
pub struct Spawns {
    items: Vec<Spawn>,
}

impl Model for Spawns {
    ghost use Rattle.std.specs.Prelude.{List, ◌≤◌, length, vec_capacity};
    ghost use Rattle.nv_base.specs.declared.lines.Spawn.{Spawn};
    ghost use Rattle.task_model.specs.declared.spawns.TheConstants.{MAX_SPAWNS};

    ghost Value = { List Spawn };

    ghost view = { λ s. s.items.items };

    ghost invariant = { λ s. (length s.items.items ≤ MAX_SPAWNS)
        × (MAX_SPAWNS ≤ vec_capacity s.items) };
}

impl Spawns {
    /// No spawns, with room for all.
    pub fn with_room(alloc: Global) -> Result<Spawns, NoMemory>
        ensures { IfOk result (λ s. s ≡ []) }
    {
        Ok(Spawns {
            items: Vec::with_capacity(alloc, MAX_SPAWNS)?,
        })
    }

    /// How many there are.
    pub fn len(&self) -> usize
        ensures exact { result ≡ length self.now }
        ensures few { result ≤ MAX_SPAWNS }
    {
        self.items.len()
    }

    /// All of them, in order.
    pub fn as_slice(&self) -> &[Spawn]
        ensures exact { result.now ≡ self.now }
        ensures few { length result.now ≤ MAX_SPAWNS }
    {
        self.items.as_slice()
    }

    /// Adds one, for which there is room.
    pub fn push(&mut self, spawn: Spawn)
        requires { length self.old < MAX_SPAWNS }
        ensures { self.new ≡ self.old ++ spawn ∷ [] }
    {
        self.items.push_reserved(spawn);
    }

    /// Drops them.
    pub fn clear(&mut self)
        ensures { self.new ≡ [] }
    {
        self.items.clear();
    }
}
