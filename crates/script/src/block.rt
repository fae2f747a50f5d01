//! A block: a program, by its first line, the lines of its code, and its `end` line.

ghost use Rattle.std.specs.Prelude.{◌≡◌, ◌≢◌, ◌≤◌, ◌<◌, ◌+◌, ◌^◌, [], map, length, option_map, OnOk};
ghost use Rattle.plain_text.specs.Left.{words_left};
ghost use Rattle.nv_base.specs.Refusals.{Gives, Leaves};
ghost use Rattle.script.specs.Blocks.{block_after, code_after, code_line_after, code_lines_after, code_of as code_words_of, code_word as code_word_of, header_of as words_header, hex_word as hex, is_ended, program_after, with_words};
ghost use Rattle.script.specs.Views.{header_of};

use crate::draft::Draft;
use crate::keyword::{BlockKind, Stage};
use crate::program::program_code;
use crate::refusals::{LineRefusal, ScriptCause, ScriptRefusal};
use crate::section::Block;
use crate::set_lines::new_program_name;
use crate::words::{allowed, number, two};
use nv_base::limits::{MAX_CODE, MAX_FUEL, MAX_INPUT, MAX_PROGRAMS};
use plain_text::{Words, is_plain, value_in};
use std::alloc::Global;
use task_set::{Name, ProgPart, Words as WordList};

/// The most words that a program has.
const MOST_WORDS: usize = MAX_CODE as usize;

/// What the first line of a block says.
#[derive(Clone, Copy, Debug)]
pub(crate) struct Header<'a> {
    pub(crate) name: &'a [u8],
    pub(crate) fuel: u32,
}

/// The word that exactly 8 hexadecimal digits write.
#[tactic(auto, using(crate::proofs::HexWords::hex_word_small))]
fn hex_word(word: &[u8]) -> Option<u32>
    ensures { result ≡ hex word.now }
{
    if word.len() != 8 {
        return None;
    }
    match value_in(16, 8, word) {
        Some(value) => Some(value as u32),
        None => None,
    }
}

fn code_word(word: &[u8]) -> Result<u32, LineRefusal>
    ensures { Gives (λ n. n) result (code_word_of word.now) }
{
    match hex_word(word) {
        Some(value) => Ok(value),
        None => Err(LineRefusal::At(ScriptCause::Number)),
    }
}

/// Adds words behind the code so far.
fn push_words(code: &mut WordList, words: Words<'_>) -> Result<(), LineRefusal>
    ensures { Leaves code.new result (with_words code.old (words_left words.entry)) }
{
    for word in words {
        code.push(code_word(word)?)?;
    }
    Ok(())
}

/// A line of a `code` block.
#[tactic(auto, unfolding(crate::specs::Blocks::code_after))]
fn take_code_line(code: &mut WordList, line: &[u8]) -> Result<(), LineRefusal>
    ensures { Leaves code.new result (code_line_after code.old line.now) }
{
    if !is_plain(line) {
        return Err(LineRefusal::At(ScriptCause::Byte));
    }
    let words = Words::new(line);
    let mut others = words;
    let Some(first) = others.next() else {
        return Ok(());
    };
    if hex_word(first).is_none() {
        return Err(LineRefusal::At(ScriptCause::Word));
    }
    push_words(code, words)?;
    if MOST_WORDS < code.as_slice().len() {
        return Err(LineRefusal::At(ScriptCause::Many));
    }
    Ok(())
}

/// The lines of a `code` block, from line `n` on.
#[tactic(auto, unfolding(crate::specs::Blocks::code_lines_after), using(crate::proofs::BodyLines::lines_next, crate::proofs::BodyLines::lines_over))]
fn code_lines(alloc: Global, n: u32, body: &[&[u8]]) -> Result<WordList, ScriptRefusal>
    requires { n + length body.now < 2 ^ 32 }
    ensures { Gives (λ code. code) result
        (code_lines_after n [] (map (λ line. line.now) body.now)) }
{
    let mut code = WordList::new(alloc);
    let mut number = n;
    for line in body {
        if let Err(refusal) = take_code_line(&mut code, line) {
            return Err(refusal.at(number));
        }
        number += 1;
    }
    Ok(code)
}

/// The code of a block whose first line is `n`.
fn code_of(
    alloc: Global,
    kind: BlockKind,
    n: u32,
    body: &[&[u8]],
) -> Result<WordList, ScriptRefusal>
    requires few { length body.now ≤ MAX_INPUT }
    requires numbers { n + length body.now + 1 < 2 ^ 32 }
    ensures { Gives (λ code. code) result (code_words_of kind n (map (λ line. line.now) body.now)) }
{
    match kind {
        BlockKind::Program => program_code(alloc, n, body),
        BlockKind::Code => code_lines(alloc, n + 1, body),
    }
}

/// The `end` line, where it stands and has no other word.
fn end_line(end: Option<&[u8]>) -> Result<&[u8], LineRefusal>
    ensures { Gives (λ line. line.now) result (is_ended (option_map (λ line. line.now) end.entry)) }
{
    let Some(line) = end else {
        return Err(LineRefusal::At(ScriptCause::End));
    };
    if !is_plain(line) {
        return Err(LineRefusal::At(ScriptCause::Byte));
    }
    if Words::new(line).word_count() != 1 {
        return Err(LineRefusal::At(ScriptCause::Count));
    }
    Ok(line)
}

impl Draft {
    /// What the first line of a block says, by the words behind its first.
    #[tactic(auto, unfolding(crate::specs::Blocks::header_of))]
    fn header<'a>(&self, words: Words<'a>) -> Result<Header<'a>, LineRefusal>
        ensures exact { Gives header_of result (words_header self.now (words_left words.entry)) }
        ensures room { OnOk result (length self.now.set.programs ≢ MAX_PROGRAMS) }
    {
        let _stage = allowed(self.last, Stage::Program)?;
        let (name_word, fuel_word) = two(words)?;
        let name = new_program_name(self.set.programs.as_slice(), name_word)?;
        let fuel = number(1, MAX_FUEL, fuel_word)?;
        if self.set.programs.as_slice().len() == usize::from(MAX_PROGRAMS) {
            return Err(LineRefusal::At(ScriptCause::Many));
        }
        Ok(Header { name, fuel })
    }

    /// Takes a program, at its `end` line.
    #[tactic(auto, unfolding(crate::specs::Blocks::program_after))]
    fn take_program(
        &mut self,
        alloc: Global,
        header: Header<'_>,
        code: WordList,
        end: Option<&[u8]>,
    ) -> Result<(), LineRefusal>
        requires { length self.old.set.programs ≢ MAX_PROGRAMS }
        ensures { Leaves self.new result
            (program_after self.old (header_of header.entry) code
            (option_map (λ line. line.now) end.entry)) }
    {
        let _line = end_line(end)?;
        if (self.set.memory as usize) < 4 * code.as_slice().len() {
            return Err(LineRefusal::At(ScriptCause::Many));
        }
        self.set.programs.push(ProgPart {
            name: Name::from_slice(alloc, header.name)?,
            fuel: header.fuel,
            code,
        })?;
        self.last = Some(Stage::Program);
        Ok(())
    }

    /// Takes a block whose first line is `n`.
    #[tactic(auto, unfolding(crate::specs::Blocks::block_after))]
    pub(crate) fn take_block(
        &mut self,
        alloc: Global,
        n: u32,
        block: Block<'_>,
    ) -> Result<(), ScriptRefusal>
        requires few { length block.body.items ≤ MAX_INPUT }
        requires numbers { n + length block.body.items + 1 < 2 ^ 32 }
        ensures { Leaves self.new result
            (block_after n self.old block.entry.kind (words_left block.entry.words)
            (map (λ line. line.now) block.entry.body.items)
            (option_map (λ line. line.now) block.entry.end)) }
    {
        let header = match self.header(block.words) {
            Ok(header) => header,
            Err(refusal) => return Err(refusal.at(n)),
        };
        let code = code_of(alloc, block.kind, n, &block.body)?;
        let last = n + 1 + block.body.len() as u32;
        match self.take_program(alloc, header, code, block.end) {
            Ok(()) => Ok(()),
            Err(refusal) => Err(refusal.at(last)),
        }
    }
}
