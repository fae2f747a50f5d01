//! What tests ask of a chain before they call it.

ghost use Rattle.std.specs.Prelude.{◌≡◌, is_some};
ghost use Rattle.interval.specs.Ranges.{number_of};
ghost use Rattle.ver_table.specs.Chains.{holds_newest, in_slot, newest_before};

use super::{Chain, first_before};
use nv_base::Point;

/// How many slots the object has.
pub(crate) fn slots(chain: &Chain) -> u8
    ensures { result ≡ chain.now.slots }
{
    chain.slots
}

/// Whether a version begins before `hi`.
pub(crate) fn has_before(chain: &Chain, hi: Option<Point>) -> bool
    ensures { result ≡ is_some (newest_before (number_of hi) chain.now.stored) }
{
    first_before(chain.order.as_slice(), &chain.begins, hi).is_some()
}

/// Whether a slot holds a version.
pub(crate) fn holds(chain: &Chain, slot: u8) -> bool
    ensures { result ≡ is_some (in_slot slot chain.now.stored) }
{
    chain.order.contains(&slot)
}

/// Whether it holds the newest one.
pub(crate) fn holds_newest(chain: &Chain, slot: u8) -> bool
    ensures { result ≡ holds_newest slot chain.now.stored }
{
    chain.order[0] == slot
}
