// Where bytes come from and where they go.

ghost use Rattle.std.specs.Prelude.{◌≡◌, ◌<◌, ◌≤◌, Ok, length, take, IfOk, OnErr};
ghost use Rattle.nv_base.specs.Streams.{AtEnd, Fails, PutsText, Stream, Takes};

use thiserror::Error;

/// A source did not answer.
#[derive(Clone, Copy, PartialEq, Eq, Debug, Error)]
#[error("the source failed")]
pub struct SourceFailed;

/// A sink did not answer.
#[derive(Clone, Copy, PartialEq, Eq, Debug, Error)]
#[error("the sink failed")]
pub struct SinkFailed;

/// Where bytes come from.
pub trait Source {
    /// The bytes left, where the source tells them, and how many calls failed. The count stands
    /// still at the end of its type.
    ghost seen: { Self → Stream };

    /// Takes bytes from the front of those left, and tells how many: none, for a buffer that is
    /// not empty, only at the end. A call that fails takes nothing.
    fn take(&mut self, buf: &mut [u8]) -> Result<usize, SourceFailed>
        ensures within { IfOk result (λ n. n ≤ length buf.new) }
        ensures took { IfOk result (λ n. Takes n buf.new (seen self.old) (seen self.new)) }
        ensures end { result ≡ Ok 0 → 0 < length buf.new → AtEnd (seen self.old).bytes }
        ensures failed { OnErr result (Fails (seen self.old) (seen self.new)) }
        ensures never_falls { (seen self.old).faults ≤ (seen self.new).faults };
}

/// Where bytes go.
pub trait Sink {
    /// The bytes taken so far, where the sink tells them, and how many calls failed. The count
    /// stands still at the end of its type.
    ghost seen: { Self → Stream };

    /// Appends a front of the piece, and tells how many bytes it has: at least one of a piece that
    /// is not empty. A call that fails appends nothing.
    fn put(&mut self, piece: &[u8]) -> Result<usize, SinkFailed>
        ensures within { IfOk result (λ n. n ≤ length piece.now) }
        ensures some { IfOk result (λ n. 0 < length piece.now → 0 < n) }
        ensures put { IfOk result
            (λ n. PutsText (take n piece.now) (seen self.old) (seen self.new)) }
        ensures failed { OnErr result (Fails (seen self.old) (seen self.new)) }
        ensures never_falls { (seen self.old).faults ≤ (seen self.new).faults };
}
