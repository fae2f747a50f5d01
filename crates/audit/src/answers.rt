//! What an audit answers.

ghost use Rattle.std.specs.Prelude.{◌≡◌};
ghost use Rattle.audit.specs.declared.answers.AuditRefusal.TheVariants.{NoMemory as none};

use nv_base::NoMemory;

/// A report agrees with the serial replay of its listing: how many finishes it lists.
#[derive(Clone, Copy, PartialEq, Eq, Debug)]
pub struct Agreed(pub u32);

/// Why a report does not agree.
#[derive(Clone, Copy, PartialEq, Eq, Debug)]
pub enum AuditRefusal {
    /// The number of the first line, from 1, at which the report differs from the serial replay of its listing.
    Differs(u32),
    /// There was not memory enough.
    NoMemory,
}

impl From<NoMemory> for AuditRefusal {
    ghost from_gives = { λ _ e. e ≡ none };

    fn from(_error: NoMemory) -> AuditRefusal {
        AuditRefusal::NoMemory
    }
}
