//! Outside reads: which version is read, and what is left of the interval then.

ghost use Rattle.std.specs.Prelude.{◌≡◌, ◌<◌, IsSome, MatchResult, false, length, unwrap_or};
ghost use Rattle.kernel_model.specs.Intervals.{is_empty as has_no_point};
ghost use Rattle.interval.specs.Ranges.{number_of, range_of};
ghost use Rattle.slot_model.specs.Tabled.{Place, with_place};
ghost use Rattle.ver_table.specs.Chains.{chain_at, in_slot, newest_before};
ghost use Rattle.validate.specs.Reading.{IsAdmitted, IsStale, IsVersionAt};

use interval::{Interval, Version};
use nv_base::{ObjId, Point};
use ver_table::Versions;

/// An attempt whose interval of reads has no point: no version is left for it.
#[derive(Clone, Copy, PartialEq, Eq, Debug)]
pub struct Stale {
    /// The interval's first point.
    pub lo: Point,
    /// Its end, which comes by then.
    pub hi: Point,
}

/// The version of an object that an attempt with this interval of reads takes: `Stale` exactly where no point is in it.
pub fn admit(versions: &Versions, reads: Interval, object: ObjId) -> Result<Version, Stale>
    requires inside { object.0 < length versions.now }
    requires begun { has_no_point (range_of reads) ≡ false
        → IsSome (newest_before (number_of reads.hi) (chain_at versions.now object.0).stored) }
    ensures { MatchResult result (IsAdmitted versions.now reads object.0)
        (IsStale versions.now reads object.0) }
{
    if reads.is_empty() {
        return Err(Stale {
            lo: reads.lo,
            hi: end_of(reads.hi),
        });
    }
    Ok(versions.choose(object, reads.hi))
}

/// An interval of reads once a version was read that stands in the table.
pub fn opened(versions: &Versions, reads: Interval, version: Version) -> Interval
    requires inside { version.object.0 < length versions.now }
    requires stands { IsSome (in_slot version.slot
        (chain_at versions.now version.object.0).stored) }
    ensures { (p : Place) → IsVersionAt versions.now version p
        → range_of result ≡ with_place p (range_of reads) }
{
    let mut interval = reads;
    interval.raise(version.begin);
    if let Some(end) = versions.end_of(version) {
        interval.cut(end);
    }
    interval
}

/// The point of an end, and 0 where there is none.
pub(crate) fn end_of(hi: Option<Point>) -> Point
    ensures { result.0 ≡ unwrap_or (number_of hi) 0 }
{
    match hi {
        None => Point(0),
        Some(hi) => hi,
    }
}
