// The steps of a sequence of cores that is repeated, by number and in order.

ghost use Rattle.std.specs.Prelude.{◌≡◌, ℕ, ◌*◌, ◌<◌, length, slice_get, Some};
ghost use Rattle.std.specs.Iterator.{YieldsFirst};
ghost use Rattle.schedule_model.specs.CoreSteps.{repeated};
ghost use Rattle.power_trace.specs.Filling.{Fills};

use std::marker::Model;

/// Step n of a sequence that is repeated often enough.
pub(crate) fn core_in_order(order: &[u8], n: u32) -> u8
    requires { 0 < length order.now }
    ensures { (times : ℕ) → n < length order.now * times
        → slice_get (repeated times order.now) n ≡ Some result }
{
    order[n as usize % order.len()]
}

/// The steps that are left of a repeated sequence, which contracts see as the list of their cores.
#[derive(Debug, Drop)]
pub(crate) struct Sequence<'a> {
    // what is left of the pass under way
    rest: &'a [u8],
    order: &'a [u8],
    // how many whole passes follow it
    times: u32,
}

impl<'a> Model for Sequence<'a> {
    ghost use Rattle.std.specs.Prelude.{ℕ, List, ◌++◌};
    ghost use Rattle.schedule_model.specs.CoreSteps.{repeated};

    ghost Value = { List ℕ };

    ghost view = { λ a. a.rest.now ++ repeated a.times a.order.now };
}

impl<'a> Sequence<'a> {
    /// A sequence so many times over.
    pub(crate) fn new(order: &'a [u8], times: u32) -> Sequence<'a>
        ensures { result ≡ repeated times order.entry.now }
    {
        Sequence {
            rest: &order[..0],
            order,
            times,
        }
    }

    /// The first steps, as many as there is room for. How many.
    pub(crate) fn fill(&mut self, room: &mut [u8]) -> usize
        ensures { Fills self.old room.old room.new result self.new }
    {
        // what is not lent stays in registers
        let mut left = self.copy();
        let mut count = 0;
        while count < room.len() {
            let Some(core) = left.next_core() else {
                break;
            };
            room[count] = core;
            count += 1;
        }
        *self = left;
        count
    }

    #[inline(always)]
    fn copy(&self) -> Sequence<'a>
        ensures { result ≡ self.now }
    {
        Sequence {
            rest: self.rest,
            order: self.order,
            times: self.times,
        }
    }

    // The core of the next step.
    #[inline(always)]
    fn next_core(&mut self) -> Option<u8>
        ensures { YieldsFirst (λ cores. cores) self.old result self.new }
    {
        if let Some((core, rest)) = self.rest.split_first() {
            self.rest = rest;
            return Some(*core);
        }
        if self.times == 0 {
            return None;
        }
        self.times -= 1;
        let (core, rest) = self.order.split_first()?;
        self.rest = rest;
        Some(*core)
    }
}
