//! The command `asm`: assembler text in, its words out.

ghost use Rattle.std.specs.Prelude.{◌≡◌, ◌≤◌, IfOk, length, map, string_bytes};
ghost use Rattle.std.specs.Str.Lines.{lines};
ghost use Rattle.rv_asm.specs.Assembly.{assembled};
ghost use Rattle.sim_run.specs.BeforeAnswerLine.{PutReply};
ghost use Rattle.sim_run.specs.Replies.{Puts, asm_reply, assembly_reply, words_text};

use crate::texts::put_text;
use answers::{Status, of_assembly};
use nv_base::limits::MAX_INPUT;
use nv_base::{NoMemory, Sink};
use plain_text::{first_bad, lines_of};
use rv_asm::assemble_lines;
use rv_isa::push_hexadecimal;
use script::{ScriptCause, ScriptError};
use std::alloc::Global;

/// Words as text: each a line of 8 hexadecimal digits.
fn text_of(alloc: Global, words: &[u32]) -> Result<String, NoMemory>
    ensures { IfOk result (λ text. string_bytes text ≡ words_text words.now) }
{
    let mut text = String::new(alloc);
    for word in words {
        push_hexadecimal(&mut text, 8, *word)?;
        text.push_str("\n")?;
    }
    Ok(text)
}

/// Puts words, each on a line.
fn put_words<K: Sink>(alloc: Global, words: &[u32], out: &mut K) -> Status
    ensures replied { let reply = Puts (words_text words.now) in
        PutReply reply (K.seen out.old) (K.seen out.new) result }
{
    let Ok(text) = text_of(alloc, words) else {
        return Status::NoMemory;
    };
    put_text(out, text.as_bytes())
}

/// Puts the words of lines none of which has a bad byte, or answers with the first faulty line.
fn assemble<K: Sink>(alloc: Global, lines: &[&[u8]], out: &mut K) -> Status
    requires { length lines.now ≤ MAX_INPUT }
    ensures replied { let reply = assembly_reply (assembled (map (λ line. line.now) lines.now)) in
        PutReply reply (K.seen out.old) (K.seen out.new) result }
{
    match assemble_lines(alloc, lines) {
        Ok(words) => put_words(alloc, words.as_slice(), out),
        Err(refusal) => of_assembly(refusal),
    }
}

/// Puts the words of a text, each on a line, or answers with the first line that is refused: for a byte that is not
/// allowed, before each fault of an instruction.
pub(crate) fn asm<K: Sink>(alloc: Global, input: &[u8], out: &mut K) -> Status
    requires { length input.now ≤ MAX_INPUT }
    ensures replied { let reply = asm_reply (lines input.now) in
        PutReply reply (K.seen out.old) (K.seen out.new) result }
{
    let Ok(lines) = lines_of(alloc, input) else {
        return Status::NoMemory;
    };
    match first_bad(lines.as_slice()) {
        Some(place) => Status::Script(ScriptError {
            line: place as u32 + 1,
            cause: ScriptCause::Byte,
        }),
        None => assemble(alloc, lines.as_slice(), out),
    }
}
