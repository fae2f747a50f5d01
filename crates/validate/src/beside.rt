//! What is kept of the attempts on other cores.

ghost use Rattle.std.specs.Prelude.{◌≡◌, ◌<◌, ◌≤◌, ◌+◌, ◌++◌, [], length, map, take};
ghost use Rattle.validate.specs.declared.beside.TheConstants.{MAX_OTHERS};
ghost use Rattle.validate.specs.Views.{copied_by, with_copied};

use interval::{Interval, Pin};
use nv_base::{ObjId, Point, limits};

/// The most attempts on other cores.
pub const MAX_OTHERS: usize = limits::MAX_CORES as usize - 1;

/// What is kept of another attempt.
#[derive(Clone, Copy, PartialEq, Eq, Debug)]
pub struct View {
    /// The points at which it may stand, by what it has read.
    pub interval: Interval,
    /// The slot that it copies from, if it copies.
    pub copying: Option<Pin>,
}

/// What some attempts may read and do copy, as the table of versions is asked.
#[derive(Drop)]
pub(crate) struct Beside {
    intervals: [Interval; MAX_OTHERS],
    attempts: usize,
    pins: [Pin; MAX_OTHERS],
    copies: usize,
    ghost attempts_fit: { attempts ≤ MAX_OTHERS },
    ghost copies_fit: { copies ≤ MAX_OTHERS },
}

impl Beside {
    /// That of these attempts.
    pub(crate) fn of(others: &[View]) -> Beside
        requires { length others.now ≤ MAX_OTHERS }
        ensures intervals { take result.attempts result.intervals
            ≡ map (λ v. v.interval) others.now }
        ensures pins { take result.copies result.pins ≡ copied_by others.now }
    {
        let mut intervals = [Interval::from(Point(0)); MAX_OTHERS];
        let mut pins = [Pin {
            object: ObjId(0),
            slot: 0,
        }; MAX_OTHERS];
        let mut copies = 0;
        for (i, view) in others.iter().enumerate() {
            intervals[i] = view.interval;
            copies = add_pin(&mut pins, copies, view.copying);
        }
        Beside {
            intervals,
            attempts: others.len(),
            pins,
            copies,
        }
    }

    /// The intervals of their reads.
    pub(crate) fn intervals(&self) -> &[Interval]
        ensures { result.now ≡ take self.now.attempts self.now.intervals }
    {
        &self.intervals[..self.attempts]
    }

    /// The pins of those that copy.
    pub(crate) fn pins(&self) -> &[Pin]
        ensures { result.now ≡ take self.now.copies self.now.pins }
    {
        &self.pins[..self.copies]
    }
}

// Puts a pin behind so many others, if there is one. How many there are then.
fn add_pin(pins: &mut [Pin; MAX_OTHERS], count: usize, pin: Option<Pin>) -> usize
    requires { count < MAX_OTHERS }
    ensures put { take result pins.new ≡ take count pins.old ++ with_copied pin [] }
    ensures few { result ≤ count + 1 }
{
    match pin {
        None => count,
        Some(pin) => {
            pins[count] = pin;
            count + 1
        }
    }
}
