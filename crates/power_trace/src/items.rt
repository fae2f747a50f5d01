// What a schedule is made of: runs of core steps.

ghost use Rattle.std.specs.Prelude.{◌≡◌, ◌^◌, ◌≤◌, ◌<◌, IfOk, length, slice_get, Some};
ghost use Rattle.schedule_model.specs.CoreSteps.{item_steps};
ghost use Rattle.schedule_model.specs.Limits.{step_count, IsItem};
ghost use Rattle.power_trace.specs.Items.{item_of};

use crate::{draw, sequence};
use nv_base::NoMemory;
use std::alloc::Global;
use std::marker::Model;

/// A sequence of cores, which contracts see as the list of their numbers.
#[derive(Debug, Drop)]
pub struct CoreList {
    cores: Vec<u8>,
}

impl Model for CoreList {
    ghost use Rattle.std.specs.Prelude.{ℕ, List};

    ghost Value = { List ℕ };

    ghost view = { λ a. a.cores.items };
}

impl CoreList {
    /// The sequence of these cores.
    pub fn of(cores: Vec<u8>) -> CoreList
        ensures { result ≡ cores.items }
    {
        CoreList { cores }
    }

    /// The cores in order.
    pub fn as_slice(&self) -> &[u8]
        ensures { result.now ≡ self.now }
    {
        self.cores.as_slice()
    }

    /// An equal sequence. `NoMemory` where it could not be copied.
    pub fn copy(&self, alloc: Global) -> Result<CoreList, NoMemory>
        ensures { IfOk result (λ r. r ≡ self.now) }
    {
        let mut cores = Vec::new(alloc);
        cores.extend_from_slice(self.cores.as_slice())?;
        Ok(CoreList { cores })
    }
}

/// Some core steps of a schedule.
#[derive(Debug, Drop)]
pub enum StepItem {
    /// The whole sequence, so many times over.
    Steps {
        /// Which core takes each step.
        cores: CoreList,
        /// How many times over.
        times: u32,
    },
    /// Steps that the generator PCG-XSH-RR draws, in its first stream: the core is a word modulo the number of cores.
    Mix {
        /// The seed of the generator.
        seed: u32,
        /// How many steps.
        count: u32,
    },
}

impl StepItem {
    /// An equal item. `NoMemory` where it could not be copied.
    pub fn copy(&self, alloc: Global) -> Result<StepItem, NoMemory>
        ensures { IfOk result (λ r. r ≡ self.now) }
    {
        Ok(match self {
            StepItem::Steps { cores, times } => StepItem::Steps {
                cores: cores.copy(alloc)?,
                times: *times,
            },
            StepItem::Mix { seed, count } => StepItem::Mix {
                seed: *seed,
                count: *count,
            },
        })
    }

    /// How many steps the item stands for.
    pub(crate) fn step_count(&self) -> u32
        requires { step_count (item_of self.now) < 2 ^ 32 }
        ensures { result ≡ step_count (item_of self.now) }
    {
        match self {
            StepItem::Steps { cores, times } => (cores.as_slice().len() as u64
                * u64::from(*times)) as u32,
            StepItem::Mix { count, .. } => *count,
        }
    }

    /// The core of step `n` of the item, from 0.
    pub(crate) fn core_at(&self, cores: u8, n: u32) -> u8
        requires some_core { 1 ≤ cores }
        requires within { n < step_count (item_of self.now) }
        ensures { slice_get (item_steps cores (item_of self.now)) n ≡ Some result }
    {
        match self {
            StepItem::Steps { cores: order, .. } => sequence::core_in_order(order.as_slice(), n),
            StepItem::Mix { seed, .. } => draw::drawn_core(*seed, cores, n),
        }
    }
}
