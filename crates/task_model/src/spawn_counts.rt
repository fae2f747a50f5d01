//! How many tasks each finish of a listing spawned.

ghost use Rattle.std.specs.Prelude.{◌≡◌, ◌<◌, ◌≤◌, IfOk, ℕ, length, replicate, slice_set};

use nv_base::NoMemory;
use std::alloc::Global;
use std::marker::Model;

/// How many tasks each finish of a listing spawned, by its place. Contracts see a list of numbers.
#[derive(Debug, Drop)]
pub struct SpawnCounts {
    items: Vec<u8>,
}

impl Model for SpawnCounts {
    ghost use Rattle.std.specs.Prelude.{List, ℕ};

    ghost Value = { List ℕ };

    ghost view = { λ c. c.items.items };
}

impl SpawnCounts {
    /// For so many places, with none spawned.
    pub(crate) fn none(alloc: Global, places: usize) -> Result<SpawnCounts, NoMemory>
        ensures { IfOk result (λ c. c ≡ replicate places 0) }
    {
        Ok(SpawnCounts {
            items: vec![in alloc; 0u8; places]?,
        })
    }

    /// All of them, by place.
    pub fn as_slice(&self) -> &[u8]
        ensures { result.now ≡ self.now }
    {
        self.items.as_slice()
    }

    /// Notes how many the finish at a place spawned.
    pub(crate) fn set(&mut self, place: u32, spawned: u8)
        requires { place < length self.old }
        ensures { self.new ≡ slice_set self.old place spawned }
    {
        self.items[place as usize] = spawned;
    }
}
