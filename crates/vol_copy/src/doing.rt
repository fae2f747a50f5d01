//! What an attempt does, as the core that holds it asks.

ghost use Rattle.std.specs.Prelude.{◌≡◌};
ghost use Rattle.vol_copy.specs.Doings.{doing_in};

use crate::attempt::{Attempt, Stage};
use nv_base::ObjId;

/// What an attempt does.
#[derive(Clone, Copy, PartialEq, Eq, Debug)]
pub enum Doing {
    /// Nothing: it has no task.
    Nothing,
    /// It runs.
    Runs,
    /// It waits for a version of this object.
    Fetches(ObjId),
    /// It copies this object, word by word. So many are copied.
    Copies { object: ObjId, copied: u8 },
    /// It has ended, and waits for a verdict.
    Waits,
}

impl Attempt {
    /// What the attempt does.
    #[inline(always)]
    pub fn doing(&self) -> Doing
        ensures { result ≡ doing_in self.now.stage }
    {
        match self.stage {
            Stage::Blank => Doing::Nothing,
            Stage::Running => Doing::Runs,
            Stage::Fetching { object, .. } => Doing::Fetches(object),
            Stage::Copying { object, copied, .. } => Doing::Copies { object, copied },
            Stage::Ready(_) => Doing::Waits,
        }
    }
}
