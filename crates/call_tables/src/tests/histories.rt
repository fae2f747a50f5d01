//! What two calls have told, the second of which resumed on what the first had left: the finishes of both, and of the device
//! between them, are one history, which a plain replay runs again.

use super::reader::Held;
use nv_base::NoMemory;

/// A finish. Serial order is by point, and then by number.
#[derive(Clone, Copy, PartialEq, Eq, PartialOrd, Ord, Debug)]
pub(crate) struct Finish {
    point: u32,
    number: u32,
    task: u32,
    exit: u32,
}

/// The finishes that were told so far, or stand on the device.
#[derive(Drop)]
pub(crate) struct History {
    finishes: Vec<Finish>,
}

// the number that a word is
fn number_of(word: Option<&[u8]>) -> Option<u32> {
    let mut number = 0u32;
    for byte in word? {
        let digit = byte.checked_sub(b'0')?;
        number = number.checked_mul(10)?.checked_add(u32::from(digit))?;
    }
    Some(number)
}

// the finish that a line tells
fn finish_of(line: &[u8]) -> Option<Finish> {
    let mut words = line.split(|byte| *byte == b' ');
    let kind = words.next()?;
    if kind != b"finish".as_slice() && kind != b"found".as_slice() {
        return None;
    }
    let number = number_of(words.next())?;
    let task = number_of(words.nth(1))?;
    let point = number_of(words.nth(1))?;
    let exit = number_of(words.nth(1))?;
    Some(Finish {
        point,
        number,
        task,
        exit,
    })
}

impl History {
    /// Nothing was told.
    pub(crate) fn new(rt: &HostRuntime) -> History {
        History {
            finishes: Vec::new(rt.alloc()),
        }
    }

    /// How many there are.
    pub(crate) fn count(&self) -> u32 {
        u32::try_from(self.finishes.len()).unwrap_or(u32::MAX)
    }

    /// Adds the finishes that a report tells.
    pub(crate) fn tell(&mut self, report: &[u8]) -> Result<(), NoMemory> {
        for line in report.split(|byte| *byte == b'\n') {
            if let Some(finish) = finish_of(line) {
                self.finishes.push(finish)?;
            }
        }
        Ok(())
    }

    /// Adds the last finish on a device where no line has told it, as its write was lost. False where the device has not just
    /// the finishes that are there then.
    pub(crate) fn find(&mut self, held: &Held) -> Result<bool, NoMemory> {
        let number = held.number();
        if number != self.count() {
            let (task, point, exit) = held.last();
            self.finishes.push(Finish {
                point,
                number,
                task,
                exit,
            })?;
        }
        Ok(number == self.count())
    }

    // whether they are numbered from 1 on
    fn is_numbered(&self) -> bool {
        let mut next = 1;
        for finish in &self.finishes {
            if finish.number != next {
                return false;
            }
            next = next.wrapping_add(1);
        }
        true
    }

    // how many are of a task
    fn times(&self, task: u32) -> u32 {
        let mut times = 0u32;
        for finish in &self.finishes {
            if finish.task == task {
                times = times.saturating_add(1);
            }
        }
        times
    }

    /// Whether they are numbered from 1 on, and none of so many tasks finishes twice, and no other one.
    pub(crate) fn is_once_each(&self, tasks: u32) -> bool {
        let mut all = 0u32;
        for task in 1..=tasks {
            let times = self.times(task);
            if times > 1 {
                return false;
            }
            all = all.saturating_add(times);
        }
        all == self.count() && self.is_numbered()
    }

    /// They in serial order.
    pub(crate) fn sort(&mut self) -> Result<(), NoMemory> {
        self.finishes.sort()?;
        Ok(())
    }

    /// The greatest point, where they are in serial order.
    pub(crate) fn clock(&self) -> u32 {
        self.finishes.last().map_or(0, |finish| finish.point)
    }

    /// What x and y are behind them: task 1 makes y one more than x, and task 2 makes x 9; each exits with the object that it
    /// wrote.
    pub(crate) fn replay(&self) -> Option<(u32, u32)> {
        let (mut x, mut y) = (5u32, 8u32);
        for finish in &self.finishes {
            match (finish.task, finish.exit) {
                (1, 1) => y = x.wrapping_add(1),
                (2, 0) => x = 9,
                _ => return None,
            }
        }
        Some((x, y))
    }
}
