//! Random histories of one to eight cores.

use beside_plain::{Pair, Told};
use nv_base::NoMemory;
use plain_history::{Answer, Start};
use std::alloc::Global;
use std::test::Fail;

// Numbers that follow one another without rule: the linear congruences of Numerical Recipes.
#[derive(Drop)]
struct Numbers {
    state: u32,
}

impl Numbers {
    // a number below n, or below 256
    fn below(&mut self, n: u8) -> u8 {
        self.state = self.state.wrapping_mul(1664525).wrapping_add(1013904223);
        let byte = self.state.to_le_bytes()[2];
        if n == 0 { byte } else { byte % n }
    }

    fn word(&mut self) -> u32 {
        let bytes = [self.below(0), self.below(0), self.below(0), self.below(0)];
        u32::from_le_bytes(bytes)
    }

    // how a history of so many tasks begins
    fn start(&mut self, tasks: u8) -> Start {
        let most = if self.below(3) == 0 { 7 } else { 2 };
        let slots = [
            self.below(most).saturating_add(2),
            self.below(most).saturating_add(2),
            self.below(most).saturating_add(2),
        ];
        Start {
            slots,
            records: tasks.saturating_add(self.below(4)),
            clock: u32::from(self.below(3)),
        }
    }

    fn args(&mut self, alloc: Global, tasks: u8) -> Result<Vec<u32>, NoMemory> {
        let mut args = Vec::new(alloc);
        for _ in 0..tasks {
            args.push(self.word())?;
        }
        Ok(args)
    }
}

// How often each answer came.
#[derive(Clone, Copy)]
struct Counts {
    reads: u32,
    older: u32,
    stale: u32,
    granted: u32,
    behind: u32,
    empty: u32,
    slots: u32,
    records: u32,
}

const NONE: Counts = Counts {
    reads: 0,
    older: 0,
    stale: 0,
    granted: 0,
    behind: 0,
    empty: 0,
    slots: 0,
    records: 0,
};

fn add(count: &mut u32) {
    *count = count.saturating_add(1);
}

impl Counts {
    // one answer to a core that asks for its finish more, where the clock is this
    fn count_asked(&mut self, answer: Answer, clock: u32) {
        match answer {
            Answer::Granted { point, .. } if point < clock => add(&mut self.behind),
            Answer::Granted { .. } => add(&mut self.granted),
            Answer::Empty { .. } => add(&mut self.empty),
            Answer::Slots(_) => add(&mut self.slots),
            Answer::Records { .. } => add(&mut self.records),
        }
    }

    // one answer more
    fn count(&mut self, told: Told, clock: u32) {
        match told {
            Told::Reads { newest: true, .. } => add(&mut self.reads),
            Told::Reads { .. } => add(&mut self.older),
            Told::Stale { .. } => add(&mut self.stale),
            Told::Asked(answer) => self.count_asked(answer, clock),
            _ => {}
        }
    }

    // whether each came so often at least
    fn are_least(self, least: u32) -> bool {
        self.reads >= least
            && self.older >= least
            && self.granted >= least
            && self.behind >= least
            && self.empty >= least
            && self.slots >= least
            && self.records >= least
    }
}

// one step of a core: whether both agree
fn step(alloc: Global, pair: &mut Pair, core: u8, counts: &mut Counts) -> Result<bool, NoMemory> {
    let Some(told) = pair.step(alloc, core)? else {
        return Ok(false);
    };
    counts.count(told, pair.clock());
    Ok(pair.agree())
}

// steps of so many cores: whether both agree all along
fn walk(
    alloc: Global,
    pair: &mut Pair,
    cores: u8,
    numbers: &mut Numbers,
    counts: &mut Counts,
) -> Result<bool, NoMemory> {
    for _ in 0..150 {
        if !step(alloc, pair, numbers.below(cores), counts)? {
            return Ok(false);
        }
    }
    Ok(pair.is_serial())
}

// one history, from random tasks on
fn history(alloc: Global, numbers: &mut Numbers, counts: &mut Counts) -> Result<bool, NoMemory> {
    let tasks = numbers.below(8).saturating_add(1);
    let start = numbers.start(tasks);
    let args = numbers.args(alloc, tasks)?;
    let cores = numbers.below(8).saturating_add(1);
    let Some(mut pair) = Pair::opened(alloc, start, args.as_slice())? else {
        return Ok(false);
    };
    walk(alloc, &mut pair, cores, numbers, counts)
}

// so many histories
fn histories(
    alloc: Global,
    number: u32,
    numbers: &mut Numbers,
    counts: &mut Counts,
) -> Result<bool, NoMemory> {
    for _ in 0..number {
        if !history(alloc, numbers, counts)? {
            return Ok(false);
        }
    }
    Ok(true)
}

#[test]
fn answers_are_those_of_a_plain_program(rt: HostRuntime) -> Result<(), Fail> {
    let mut numbers = Numbers { state: 11 };
    let mut counts = NONE;
    let agreed = histories(rt.alloc(), 2000, &mut numbers, &mut counts)?;
    assert!(rt; agreed);
    assert!(rt; counts.are_least(1000));
    assert!(rt; counts.stale > 10);
    Ok(())
}
