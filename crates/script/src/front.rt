//! A script up to and with its `run` line, with anything behind it.

ghost use Rattle.std.specs.Prelude.{◌≡◌, ◌<◌, ◌≤◌, ◌==◌, ◌&&◌, not, IfOk, IfSome, length, position, take};
ghost use Rattle.nv_base.specs.Refusals.{Gives};
ghost use Rattle.script.specs.Fronts.{front_of, is_open_after as open_after, is_run as run_line, line_end as end_of_line, read_front as front_read};
ghost use Rattle.script.specs.Views.{script_of as script};

use crate::reading::{Script, read_script};
use crate::refusals::ScriptRefusal;
use crate::section::{block_opened_by, ends};
use plain_text::{Lines, Words};
use std::alloc::Global;

/// Whether the first word of a line is `run`.
fn is_run(line: &[u8]) -> bool
    ensures { result ≡ run_line line.now }
{
    match Words::new(line).next() {
        Some(word) => word == b"run".as_slice(),
        None => false,
    }
}

/// Whether a line is the `run` line, where a block is open before it or not.
fn ends_front(was: bool, line: &[u8]) -> bool
    ensures { result ≡ (not was && run_line line.now) }
{
    !was && is_run(line)
}

/// Whether a block is open behind a line, where one was open before it or not.
fn is_open_after(was: bool, line: &[u8]) -> bool
    ensures { result ≡ open_after was line.now }
{
    if was {
        !ends(line)
    } else {
        block_opened_by(line).is_some()
    }
}

fn feed_at(bytes: &[u8]) -> Option<usize>
    ensures at { result ≡ position (λ b. b == 10) bytes.now }
    ensures within { IfSome result (λ at. at < length bytes.now) }
{
    bytes.iter().position(|b| *b == b'\n')
}

/// How many bytes the first line is, with its line feed.
fn line_end(bytes: &[u8]) -> usize
    ensures exact { result ≡ end_of_line bytes.now }
    ensures within { result ≤ length bytes.now }
{
    match feed_at(bytes) {
        Some(at) => at + 1,
        None => bytes.len(),
    }
}

/// How many bytes there are up to and with the `run` line: all where there is none.
#[tactic(auto, unfolding(crate::specs::Fronts::front_of))]
fn front_end(bytes: &[u8]) -> usize
    ensures front { take result bytes.now ≡ front_of bytes.now }
    ensures within { result ≤ length bytes.now }
{
    let mut in_block = false;
    let mut rest = bytes;
    while let Some(line) = Lines::new(rest).next() {
        rest = &rest[line_end(rest)..];
        if ends_front(in_block, line) {
            return bytes.len() - rest.len();
        }
        in_block = is_open_after(in_block, line);
    }
    bytes.len() - rest.len()
}

/// Reads a script up to and with its `run` line, and tells how many bytes that is, with the line feed. What stands
/// behind it is not looked at. `At` with the first line that is refused and its first cause; of a script without a
/// `run` line all lines are read. `NoMemory` where there was not memory enough.
#[tactic(auto, unfolding(crate::specs::Fronts::read_front))]
pub fn read_front(alloc: Global, bytes: &[u8]) -> Result<(Script, usize), ScriptRefusal>
    ensures reads { Gives (λ r. (script r.0, r.1)) result (front_read bytes.now) }
    ensures front { IfOk result (λ r. take r.1 bytes.now ≡ front_of bytes.now) }
    ensures within { IfOk result (λ r. r.1 ≤ length bytes.now) }
{
    let end = front_end(bytes);
    let script = read_script(alloc, &bytes[..end])?;
    Ok((script, end))
}
