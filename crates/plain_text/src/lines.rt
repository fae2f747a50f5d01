//! Bytes cut into lines, one after another.

ghost use Rattle.std.specs.Prelude.{◌≡◌, ◌∷◌, ◌==◌, length, ◌<◌, ◌≤◌, position, map, vec_len, IfOk};
ghost use Rattle.std.specs.Iterator.{YieldsFirstBy, item_count};
ghost use Rattle.std.specs.Str.Lines.{lines, strip_carriage_return};

use std::alloc::{AllocError, Global};

/// The lines of bytes, as `str::lines` gives those of a text: each without its line feed and without the carriage
/// return directly before that. What stands behind the last line feed is a line where it is not empty.
#[derive(Clone, Copy, Debug)]
pub struct Lines<'a> {
    rest: &'a [u8],
}

impl<'a> Lines<'a> {
    ghost use Rattle.plain_text.specs.Left.{lines_left};

    /// The lines of these bytes: at most as many as there are bytes.
    #[tactic(auto, using(crate::proofs::Cuts::lines_few))]
    pub fn new(bytes: &'a [u8]) -> Lines<'a>
        ensures lines { lines_left result ≡ lines bytes.entry.now }
        ensures few { length (lines_left result) ≤ length bytes.entry.now }
    {
        Lines { rest: bytes }
    }
}

/// A line without the carriage return at its end.
fn without_return(line: &[u8]) -> &[u8]
    ensures { result.now ≡ strip_carriage_return line.now }
{
    match line {
        [front @ .., b'\r'] => front,
        _ => line,
    }
}

fn feed_at(bytes: &[u8]) -> Option<usize>
    ensures { result ≡ position (λ b. b == 10) bytes.now }
{
    bytes.iter().position(|b| *b == b'\n')
}

/// The first line, and what stands after its line feed.
fn first_line(bytes: &[u8]) -> (&[u8], &[u8])
    requires { 0 < length bytes.now }
    ensures { lines bytes.now ≡ result.0.now ∷ lines result.1.now }
{
    match feed_at(bytes) {
        Some(end) => (without_return(&bytes[..end]), &bytes[end + 1..]),
        None => (bytes, &[]),
    }
}

impl<'a> Iterator for Lines<'a> {
    type Item = &'a [u8];

    ghost use Rattle.plain_text.specs.Left.{lines_left};

    ghost next_gives = { YieldsFirstBy (λ line. line.now) lines_left };

    ghost remaining = { item_count lines_left };

    fn next(&mut self) -> Option<&'a [u8]> {
        if self.rest.is_empty() {
            return None;
        }
        let (line, rest) = first_line(self.rest);
        self.rest = rest;
        Some(line)
    }
}

/// The lines of these bytes, in one list.
pub fn lines_of(alloc: Global, bytes: &[u8]) -> Result<Vec<&[u8]>, AllocError>
    ensures exact { IfOk result (λ ls. map (λ line. line.now) ls.items ≡ lines bytes.entry.now) }
    ensures few { IfOk result (λ ls. vec_len ls ≤ length bytes.entry.now) }
{
    Lines::new(bytes).collect(alloc)
}
