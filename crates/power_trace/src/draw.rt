// The steps that a generator draws, by number and in order.

ghost use Rattle.std.specs.Prelude.{◌≡◌, ◌⊎◌, ℕ, ◌<◌, ◌≤◌, IsTrue, map, slice_get, Some};
ghost use Rattle.std.specs.Iterator.{YieldsFirst};
ghost use Rattle.schedule_model.specs.CoreSteps.{core_of_word, generator_of, words};
ghost use Rattle.power_trace.specs.Filling.{Fills};

use rand_core::utils::NextWord;
use rand_pcg::Lcg64Xsh32;
use std::marker::Model;
use std::mem::replace;

/// Step n of those that a seed draws: a jump ahead, and one word.
pub(crate) fn drawn_core(seed: u32, cores: u8, n: u32) -> u8
    requires { 1 ≤ cores }
    ensures { (count : ℕ) → n < count
        → slice_get (map (core_of_word cores) (words count (generator_of seed))) n ≡ Some result }
{
    let mut generator = Lcg64Xsh32::new(u64::from(seed), 0);
    generator.advance(u64::from(n));
    (generator.next_word() % u32::from(cores)) as u8
}

/// The steps that are left of those that a seed draws, which contracts see as the list of their cores.
#[derive(Debug, Drop)]
pub(crate) struct Draw {
    generator: Lcg64Xsh32,
    cores: u8,
    // how many steps are left
    count: u32,
}

impl Model for Draw {
    ghost use Rattle.std.specs.Prelude.{ℕ, List, ◌≤◌, map};
    ghost use Rattle.schedule_model.specs.CoreSteps.{core_of_word, words};

    ghost Value = { List ℕ };

    ghost view = { λ a. map (core_of_word a.cores) (words a.count a.generator) };

    ghost invariant = { λ a. 1 ≤ a.cores };
}

impl Draw {
    /// So many steps of these cores.
    pub(crate) fn new(seed: u32, cores: u8, count: u32) -> Draw
        requires { 1 ≤ cores }
        ensures { result ≡ map (core_of_word cores) (words count (generator_of seed)) }
    {
        Draw {
            generator: Lcg64Xsh32::new(u64::from(seed), 0),
            cores,
            count,
        }
    }

    /// The first steps, as many as there is room for. How many.
    pub(crate) fn fill(&mut self, room: &mut [u8]) -> usize
        ensures { Fills self.old room.old room.new result self.new }
    {
        // what is not lent stays in registers
        let mut left = replace(self, Draw::new(0, 1, 0));
        let mut count = 0;
        while count < room.len() {
            let Some(core) = left.next_core() else {
                break;
            };
            room[count] = core;
            count += 1;
        }
        *self = left;
        count
    }

    // The core of the next step: one step of the generator.
    #[inline(always)]
    fn next_core(&mut self) -> Option<u8>
        ensures { YieldsFirst (λ cores. cores) self.old result self.new }
    {
        if self.count == 0 {
            return None;
        }
        self.count -= 1;
        Some(core_of(self.generator.next_word(), self.cores))
    }
}

// The core that a word draws: a remainder, which is a mask where the number of cores is a power of two.
#[inline(always)]
fn core_of(word: u32, cores: u8) -> u8
    requires { 1 ≤ cores }
    ensures { result ≡ core_of_word cores word }
{
    if is_power(cores) {
        (word & u32::from(cores - 1)) as u8
    } else {
        (word % u32::from(cores)) as u8
    }
}

// Whether a number of cores is a power of two.
#[inline(always)]
fn is_power(cores: u8) -> bool
    ensures { IsTrue result → (cores ≡ 1) ⊎ (cores ≡ 2) ⊎ (cores ≡ 4) ⊎ (cores ≡ 8) }
{
    matches!(cores, 1 | 2 | 4 | 8)
}
