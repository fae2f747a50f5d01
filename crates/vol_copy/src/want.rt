//! What a service that waits for an object's words does with them.

ghost use Rattle.std.specs.Prelude.{◌≡◌};
ghost use Rattle.vol_copy.specs.Wants.{part_in};

use task_model::Part;

/// What is done with some words of an object.
#[derive(Clone, Copy, Debug)]
pub(crate) enum Want {
    /// They are put at the address.
    Give(Part),
    /// Those at the address take their place.
    Take(Part),
}

impl Want {
    /// The words that it is about.
    pub(crate) fn part(self) -> Part
        ensures { result ≡ part_in self }
    {
        match self {
            Want::Give(part) => part,
            Want::Take(part) => part,
        }
    }
}
