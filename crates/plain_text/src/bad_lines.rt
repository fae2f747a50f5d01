//! The first line with a byte that is not allowed.

ghost use Rattle.std.specs.Prelude.{◌≡◌, ◌<◌, length, map, position, IfSome};
ghost use Rattle.plain_text.specs.BadLines.{is_bad};

use crate::words::is_plain;

fn bad_place(lines: &[&[u8]]) -> Option<usize>
    ensures first { result ≡ position (λ line. is_bad line.now) lines.now }
    ensures within { IfSome result (λ place. place < length lines.now) }
{
    lines.iter().position(|line| !is_plain(line))
}

/// The place of the first line that has a byte that is not allowed, from 0. None where no line has one.
pub fn first_bad(lines: &[&[u8]]) -> Option<usize>
    ensures first { result ≡ position is_bad (map (λ line. line.now) lines.now) }
    ensures within { IfSome result (λ place. place < length lines.now) }
{
    bad_place(lines)
}
