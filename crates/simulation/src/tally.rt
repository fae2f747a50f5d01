//! How many lines of each kind a run has.

ghost use Rattle.std.specs.Prelude.{◌≡◌, ◌≤◌, ◌+◌, ℕ, []};
ghost use Rattle.set_model.specs.Views.{line_of};
ghost use Rattle.simulation.specs.Counts.{AreFew, tally_of, with_line};

use nv_base::Line;

/// How many lines of each kind a run has.
#[derive(Clone, Copy, PartialEq, Eq, Debug)]
pub struct Tally {
    /// Finishes: the lines `finish` and `found`.
    pub finishes: u32,
    /// Attempts that could not read on: the lines `stale`.
    pub stales: u32,
    /// Attempts that were refused, for each cause: the lines `refuse`.
    pub refusals: u32,
    /// Failures of power: the lines `fail`.
    pub fails: u32,
    /// Boots: the lines `boot`.
    pub boots: u32,
}

impl Tally {
    /// Of no line.
    pub(crate) fn none() -> Tally
        ensures { result ≡ tally_of [] }
    {
        Tally {
            finishes: 0,
            stales: 0,
            refusals: 0,
            fails: 0,
            boots: 0,
        }
    }

    /// With one line more. A boot that tells a finish is a line of each.
    pub(crate) fn add(&mut self, line: &Line)
        requires { AreFew 4294967294 self.old }
        ensures counts { self.new ≡ with_line self.old (line_of line.now) }
        ensures few { (n : ℕ) → AreFew n self.old → AreFew (n + 1) self.new }
    {
        match line {
            Line::Nothing | Line::Start { .. } => {}
            Line::Stale { .. } => self.stales += 1,
            Line::RefuseEmpty { .. } | Line::RefuseSlots { .. } | Line::RefuseRecords { .. } => {
                self.refusals += 1;
            }
            Line::Finish(_) | Line::Found(_) => self.finishes += 1,
            Line::Fail => self.fails += 1,
            Line::Booted { found: None, .. } => self.boots += 1,
            Line::Booted { found: Some(_), .. } => {
                self.finishes += 1;
                self.boots += 1;
            }
        }
    }
}
