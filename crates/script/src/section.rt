//! A script cut into lines that stand alone, and blocks of lines up to an `end` line.

ghost use Rattle.std.specs.Prelude.{◌≡◌, ◌∷◌, ◌+◌, ◌<◌, ◌≤◌, [], Some, None, length, option_map, IfOk, IfSome, MatchOption};
ghost use Rattle.plain_text.specs.Left.{lines_left};
ghost use Rattle.script.specs.Sections.{ends as line_ends, line_count, opened, sections, sections_from};
ghost use Rattle.script.specs.Views.{block_of, open_of, section_of};

use crate::keyword::{BlockKind, block_kind_of};
use plain_text::{Lines, Words, is_plain};
use std::alloc::{AllocError, Global};

/// The first line of a block.
#[derive(Clone, Copy, Debug)]
pub(crate) struct Opening<'a> {
    pub(crate) kind: BlockKind,
    // the words behind the first
    pub(crate) words: Words<'a>,
}

/// A block of lines, which gives a program.
#[derive(Debug, Drop)]
pub(crate) struct Block<'a> {
    pub(crate) kind: BlockKind,
    // the words of the first line behind its first
    pub(crate) words: Words<'a>,
    pub(crate) body: Vec<&'a [u8]>,
    // none where the input ends before it
    pub(crate) end: Option<&'a [u8]>,
}

/// A line that stands alone, or a block.
#[derive(Debug, Drop)]
pub(crate) enum Section<'a> {
    Line(&'a [u8]),
    Block(Block<'a>),
}

/// The block that a line opens.
pub(crate) fn block_opened_by(line: &[u8]) -> Option<Opening<'_>>
    ensures { option_map open_of result ≡ opened line.now }
{
    if !is_plain(line) {
        return None;
    }
    let mut words = Words::new(line);
    match words.next() {
        Some(first) => match block_kind_of(first) {
            Some(kind) => Some(Opening { kind, words }),
            None => None,
        },
        None => None,
    }
}

/// Whether a line ends a block.
pub(crate) fn ends(line: &[u8]) -> bool
    ensures { result ≡ line_ends line.now }
{
    match Words::new(line).next() {
        Some(word) => word == b"end".as_slice(),
        None => false,
    }
}

/// The rest of a block, behind its first line.
#[tactic(auto, unfolding(crate::specs::Sections::sections_from))]
fn take_block<'a>(
    alloc: Global,
    opening: Opening<'a>,
    lines: &mut Lines<'a>,
) -> Result<Block<'a>, AllocError>
    ensures block { IfOk result
        (λ b. sections_from (Some (open_of opening.entry)) (lines_left lines.old)
        ≡ block_of b ∷ sections_from None (lines_left lines.new)) }
    ensures counted { IfOk result (λ b. length b.body.items + length (lines_left lines.new)
        ≤ length (lines_left lines.old)) }
{
    let mut body = Vec::new(alloc);
    while let Some(line) = lines.next() {
        if ends(line) {
            return Ok(Block {
                kind: opening.kind,
                words: opening.words,
                body,
                end: Some(line),
            });
        }
        body.push(line)?;
    }
    Ok(Block {
        kind: opening.kind,
        words: opening.words,
        body,
        end: None,
    })
}

/// The next line alone, or the next block. None behind the last one.
#[tactic(auto, unfolding(crate::specs::Sections::sections_from))]
pub(crate) fn next_section<'a>(
    alloc: Global,
    lines: &mut Lines<'a>,
) -> Result<Option<Section<'a>>, AllocError>
    ensures section { IfOk result (λ o. MatchOption o (sections (lines_left lines.old)
        ≡ []) (λ s. sections (lines_left lines.old)
        ≡ section_of s ∷ sections (lines_left lines.new))) }
    ensures counted { IfOk result (λ o. IfSome o (λ s. line_count (section_of s)
        + length (lines_left lines.new) ≤ length (lines_left lines.old) + 1)) }
    ensures shrinks { IfOk result (λ o. IfSome o (λ s. length (lines_left lines.new)
        < length (lines_left lines.old))) }
{
    let Some(line) = lines.next() else {
        return Ok(None);
    };
    match block_opened_by(line) {
        Some(opening) => Ok(Some(Section::Block(take_block(alloc, opening, lines)?))),
        None => Ok(Some(Section::Line(line))),
    }
}
