//! Points from one on, or between two.

/// The points from `lo`, included, to `hi`, excluded, or all from `lo` on.
#[derive(Clone, Copy, PartialEq, Eq)]
pub struct Span {
    pub lo: u32,
    pub hi: Option<u32>,
}

/// Whether a point comes before an end.
pub fn is_before(point: u32, end: Option<u32>) -> bool {
    match end {
        None => true,
        Some(end) => point < end,
    }
}

// the sooner end
fn sooner(a: Option<u32>, b: Option<u32>) -> Option<u32> {
    match a {
        None => b,
        Some(a) => Some(if is_before(a, b) { a } else { b.unwrap_or(a) }),
    }
}

impl Span {
    /// Whether no point is in it.
    pub fn is_empty(self) -> bool {
        !is_before(self.lo, self.hi)
    }

    /// The points that are in the life of a version, too.
    pub fn within(self, begin: u32, end: Option<u32>) -> Span {
        Span {
            lo: if self.lo < begin { begin } else { self.lo },
            hi: sooner(self.hi, end),
        }
    }
}
