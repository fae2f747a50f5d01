//! The summary of a run whose lines were counted, and how many finishes agree.

ghost use Rattle.std.specs.Prelude.{◌≡◌, ◌≤◌, ◌+◌, ◌++◌, length, codes};
ghost use Rattle.arrayvec.specs.ArrayString.{array_string_len};
ghost use Rattle.sim_run.specs.Summary.{number_line, summary_text};

use arrayvec::ArrayString;
use simulation::Tally;

/// Room for seven lines, which have at most 124 bytes.
const ROOM: usize = 128;

/// Text behind what is there.
fn push(lines: &mut ArrayString<ROOM>, text: &str)
    requires { array_string_len lines.old + length text.now ≤ ROOM }
    ensures text { lines.new.bytes ≡ lines.old.bytes ++ text.now }
    ensures len { array_string_len lines.new ≡ array_string_len lines.old + length text.now }
{
    // it cannot fail: the room is there
    let _ = lines.try_push_str(text);
}

/// A line of a word and a number, behind what is there.
fn push_line(lines: &mut ArrayString<ROOM>, word: &str, n: u32)
    requires { array_string_len lines.old + length word.now + 11 ≤ ROOM }
    ensures text { lines.new.bytes ≡ lines.old.bytes ++ number_line word.now n }
    ensures len { array_string_len lines.new
        ≤ array_string_len lines.old + length word.now + 11 }
{
    let mut digits = itoa::Buffer::new();
    push(lines, word);
    push(lines, digits.format(n));
    push(lines, "\n");
}

/// The line that tells how many finishes agree with their serial replay. Takes no memory.
pub(crate) fn agreed(count: u32) -> ArrayString<ROOM>
    ensures { result.bytes ≡ number_line (codes "agreed ") count }
{
    let mut lines = ArrayString::new();
    push_line(&mut lines, "agreed ", count);
    lines
}

/// The seven lines that sum up a run with this seed. Takes no memory.
#[tactic(auto, unfolding(crate::specs::Summary::summary_text))]
pub(crate) fn summary(seed: u32, tally: &Tally) -> ArrayString<ROOM>
    ensures { result.bytes ≡ summary_text seed tally.now }
{
    let mut lines = ArrayString::new();
    push_line(&mut lines, "made ", seed);
    push_line(&mut lines, "finishes ", tally.finishes);
    push_line(&mut lines, "stale ", tally.stales);
    push_line(&mut lines, "refused ", tally.refusals);
    push_line(&mut lines, "fails ", tally.fails);
    push_line(&mut lines, "boots ", tally.boots);
    push_line(&mut lines, "agreed ", tally.finishes);
    lines
}
