// Intervals, the points at which an attempt may stand: raised, cut, asked, and one point picked.

ghost use Rattle.std.specs.Prelude.{◌≡◌, ◌<◌, ◌-◌, ◌^◌, Some, None, true, false, List, MatchOption};
ghost use Rattle.kernel_model.specs.Effects.{Write};
ghost use Rattle.kernel_model.specs.Versions.{Version};
ghost use Rattle.kernel_model.specs.Intervals.{is_empty as has_no_point, last_place as last_point, point_of, sooner as earlier};
ghost use Rattle.kernel_model.specs.Room.{is_below, meet};
ghost use Rattle.kernel_model.specs.Chain.{cut as cut_at};
ghost use Rattle.interval.specs.Ranges.{IsAfterFirst, is_some_write, number_of, raised_to, range_of};

use nv_base::Point;

/// The points from `lo`, included, to `hi`, excluded, or all from `lo` on.
#[derive(Clone, Copy, PartialEq, Eq, Debug)]
pub struct Interval {
    /// The first point.
    pub lo: Point,
    /// The first point behind the last one, if there is one.
    pub hi: Option<Point>,
}

impl Interval {
    /// All points from an attempt's start on.
    pub fn from(start: Point) -> Interval
        ensures { range_of result ≡ record { lo = start.0; hi = None } }
    {
        Interval {
            lo: start,
            hi: None,
        }
    }

    /// Leaves out all points before `p`.
    pub fn raise(&mut self, p: Point)
        ensures { range_of self.new ≡ raised_to p.0 (range_of self.old) }
    {
        if self.lo.0 < p.0 {
            self.lo = p;
        }
    }

    /// Leaves out all points from `p` on.
    pub fn cut(&mut self, p: Point)
        ensures { range_of self.new ≡ cut_at p.0 true (range_of self.old) }
    {
        self.hi = Some(sooner(p, self.hi));
    }

    /// Whether no point is in it.
    pub fn is_empty(&self) -> bool
        ensures { result ≡ has_no_point (range_of self.now) }
    {
        match self.hi {
            None => false,
            Some(hi) => hi.0 <= self.lo.0,
        }
    }

    /// Whether a version that lives from `begin`, included, to `end`, excluded, and the interval have a common point.
    pub fn meets(&self, begin: Point, end: Option<Point>) -> bool
        ensures { (v : Version) → v.begin ≡ begin.0 → v.end ≡ number_of end
            → result ≡ meet v (range_of self.now) }
    {
        let lo = if begin.0 < self.lo.0 { self.lo } else { begin };
        is_before(lo, end) && is_before(lo, self.hi)
    }

    /// The serialization point of a finish with this interval: None exactly where no point is in it. One that writes
    /// stands at the last point before `hi`, or else behind the clock; another stands at `lo`.
    pub fn pick(&self, clock: Point, writes: bool) -> Option<Point>
        requires { clock.0 < 2 ^ 32 - 1 }
        ensures { let i = range_of self.now in
            MatchOption result (has_no_point i ≡ true) (λ p. (has_no_point i ≡ false)
            × ((ws : List Write) → is_some_write ws ≡ writes → p.0 ≡ point_of clock.0 ws i)) }
    {
        if self.is_empty() {
            return None;
        }
        if !writes {
            return Some(self.lo);
        }
        Some(last_place(clock, self.hi))
    }
}

// The sooner of a point and an end, if there is one.
fn sooner(p: Point, end: Option<Point>) -> Point
    ensures { Some result.0 ≡ earlier (Some p.0) (number_of end) }
{
    match end {
        None => p,
        Some(end) => { if end.0 < p.0 { end } else { p } }
    }
}

// Whether a point comes before an end; before no end each one does.
fn is_before(p: Point, end: Option<Point>) -> bool
    ensures { result ≡ is_below p.0 (number_of end) }
{
    match end {
        None => true,
        Some(end) => p.0 < end.0,
    }
}

// The last point before an end, or else the next after the clock.
fn last_place(clock: Point, end: Option<Point>) -> Point
    requires clock { clock.0 < 2 ^ 32 - 1 }
    requires end { IsAfterFirst (number_of end) }
    ensures { result.0 ≡ last_point clock.0 (number_of end) }
{
    match end {
        None => Point(clock.0 + 1),
        Some(end) => Point(end.0 - 1),
    }
}
