//! The line that names an answer.

ghost use Rattle.std.specs.Prelude.{◌≡◌, ◌≤◌, ◌+◌, ◌++◌, length};
ghost use Rattle.std.specs.Fmt.{decimal};
ghost use Rattle.arrayvec.specs.ArrayString.{array_string_len};
ghost use Rattle.answers.specs.Exits.{line_for};
ghost use Rattle.answers.specs.Names.{PutsName};

use crate::status::{ImageFault, Status};
use arrayvec::ArrayString;
use nv_base::{Sink, put_all};

/// Room for the longest such line, which has 38 bytes.
const ROOM: usize = 64;

/// Text behind what is there.
fn push(line: &mut ArrayString<ROOM>, text: &str)
    requires { array_string_len line.old + length text.now ≤ ROOM }
    ensures text { line.new.bytes ≡ line.old.bytes ++ text.now }
    ensures len { array_string_len line.new ≡ array_string_len line.old + length text.now }
{
    // it cannot fail: the room is there
    let _ = line.try_push_str(text);
}

/// A number in decimal, behind what is there.
fn push_number(line: &mut ArrayString<ROOM>, n: u32)
    requires { array_string_len line.old + 10 ≤ ROOM }
    ensures text { line.new.bytes ≡ line.old.bytes ++ decimal n }
    ensures len { array_string_len line.new ≤ array_string_len line.old + 10 }
{
    let mut digits = itoa::Buffer::new();
    push(line, digits.format(n));
}

/// The line that names an answer, with its line feed. Done and a sink that failed have none.
fn line_for(status: Status) -> ArrayString<ROOM>
    ensures { result.bytes ≡ line_for status }
{
    let mut line = ArrayString::new();
    match status {
        Status::Done | Status::WriteFault => {}
        Status::Differs(place) => {
            push(&mut line, "differs ");
            push_number(&mut line, place);
            push(&mut line, "\n");
        }
        Status::Usage => push(&mut line, "error usage\n"),
        Status::Script(error) => {
            push(&mut line, "error script ");
            push_number(&mut line, error.line);
            push(&mut line, " ");
            push(&mut line, error.cause.words());
            push(&mut line, "\n");
        }
        Status::Packed(place) => {
            push(&mut line, "error packed ");
            push_number(&mut line, place);
            push(&mut line, "\n");
        }
        Status::Report(place) => {
            push(&mut line, "error report ");
            push_number(&mut line, place);
            push(&mut line, "\n");
        }
        Status::ReadFault => push(&mut line, "error read\n"),
        Status::NoMemory => push(&mut line, "error memory\n"),
        Status::DeviceLost => push(&mut line, "error device\n"),
        Status::Image(ImageFault::Blank) => push(&mut line, "error image blank\n"),
        Status::Image(ImageFault::Damaged(place)) => {
            push(&mut line, "error image damaged ");
            push_number(&mut line, place);
            push(&mut line, "\n");
        }
        Status::Image(ImageFault::Worn) => push(&mut line, "error image worn\n"),
        Status::Small { need, len } => {
            push(&mut line, "error small ");
            push_number(&mut line, need);
            push(&mut line, " ");
            push_number(&mut line, len);
            push(&mut line, "\n");
        }
    }
    line
}

/// Puts the line that names an answer. A sink that fails here does not change the answer.
pub fn put_name<K: Sink>(out: &mut K, status: Status)
    ensures { PutsName status (K.seen out.old) (K.seen out.new) }
{
    let line = line_for(status);
    let _ = put_all(out, line.as_bytes());
}
