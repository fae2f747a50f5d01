//! The lines of a `program` block, as the assembler reads them.

ghost use Rattle.std.specs.Prelude.{◌≡◌, ◌+◌, ◌<◌, ◌≤◌, ◌^◌, map, length, IfOk, Some, None};
ghost use Rattle.rv_asm.specs.Assembly.{assembled};
ghost use Rattle.nv_base.specs.declared.refusals.Refusal.TheVariants.{At};
ghost use Rattle.nv_base.specs.Refusals.{Gives, Refuses};
ghost use Rattle.script.specs.Blocks.{earlier, fault_at, or_empty, program_code as program_words};

use crate::refusals::{ScriptCause, ScriptError, ScriptRefusal};
use nv_base::limits::MAX_INPUT;
use plain_text::{first_bad, is_plain};
use rv_asm::{AsmError, AsmRefusal, assemble_lines};
use std::alloc::{AllocError, Global};
use task_set::Words as WordList;

/// The lines, empty where they have a byte that is not allowed.
fn or_empties<'a>(alloc: Global, body: &[&'a [u8]]) -> Result<Vec<&'a [u8]>, AllocError>
    ensures { IfOk result (λ lines. map (λ line. line.now) lines.items
        ≡ map (λ line. or_empty line.now) body.now) }
{
    let mut lines = Vec::new(alloc);
    for line in body {
        let line: &'a [u8] = line;
        lines.push(if is_plain(line) { line } else { &line[..0] })?;
    }
    Ok(lines)
}

/// The refusal of the assembler's fault, in a block whose first line is `n`.
fn fault(n: u32, error: AsmError) -> ScriptRefusal
    requires { n + error.line < 2 ^ 32 }
    ensures { result ≡ At (fault_at n error) }
{
    ScriptRefusal::At(ScriptError {
        line: n + error.line,
        cause: ScriptCause::Code(error.cause),
    })
}

/// The code of lines without a byte that is not allowed, in a block whose first line is `n`.
#[tactic(auto, using(crate::proofs::Faults::fault_small))]
fn plain_code(alloc: Global, n: u32, lines: &[&[u8]]) -> Result<WordList, ScriptRefusal>
    requires few { length lines.now ≤ MAX_INPUT }
    requires numbers { n + length lines.now + 1 < 2 ^ 32 }
    ensures { Gives (λ code. code) result
        (earlier n None (assembled (map (λ line. line.now) lines.now))) }
{
    match assemble_lines(alloc, lines) {
        Ok(words) => Ok(WordList::from_slice(alloc, &words)?),
        Err(AsmRefusal::At(error)) => Err(fault(n, error)),
        Err(AsmRefusal::NoMemory) => Err(ScriptRefusal::NoMemory),
    }
}

/// The refusal of lines of which the one at `place` is the first that has a byte that is not allowed.
#[tactic(auto, using(crate::proofs::Faults::fault_small))]
fn bad_code(alloc: Global, n: u32, place: usize, lines: &[&[u8]]) -> ScriptRefusal
    requires few { length lines.now ≤ MAX_INPUT }
    requires numbers { n + length lines.now + 1 < 2 ^ 32 }
    requires place { place < length lines.now }
    ensures { Refuses result
        (earlier n (Some place) (assembled (map (λ line. line.now) lines.now))) }
{
    match assemble_lines(alloc, lines) {
        Err(AsmRefusal::NoMemory) => ScriptRefusal::NoMemory,
        Err(AsmRefusal::At(error)) if (error.line as usize) < place + 1 => fault(n, error),
        _ => ScriptRefusal::At(ScriptError {
            line: n + 1 + place as u32,
            cause: ScriptCause::Byte,
        }),
    }
}

/// The code of the lines of a `program` block whose first line is `n`.
#[tactic(auto, using(crate::proofs::BodyLines::all_plain, crate::proofs::BodyLines::or_empty_map))]
pub(crate) fn program_code(alloc: Global, n: u32, body: &[&[u8]]) -> Result<WordList, ScriptRefusal>
    requires few { length body.now ≤ MAX_INPUT }
    requires numbers { n + length body.now + 1 < 2 ^ 32 }
    ensures { Gives (λ code. code) result (program_words n (map (λ line. line.now) body.now)) }
{
    match first_bad(body) {
        None => plain_code(alloc, n, body),
        Some(place) => {
            let lines = or_empties(alloc, body)?;
            Err(bad_code(alloc, n, place, &lines))
        }
    }
}
