//! Two passes over lines: where labels stand, and then the words.

ghost use Rattle.std.specs.Prelude.{◌≡◌, ◌≤◌, ◌++◌, length, map, option_map, vec_len, IfOk, OnOk, []};
ghost use Rattle.std.specs.Str.Lines.{lines as lines_in};
ghost use Rattle.nv_base.specs.Refusals.{Gives, Leaves};
ghost use Rattle.rv_asm.specs.Assembly.{assembled, label_taken, line_after, lines_after};
ghost use Rattle.rv_asm.specs.Found.{find_in};
ghost use Rattle.rv_asm.specs.Labels.{labels_of as labels_in, line_count, noted, spot};
ghost use Rattle.rv_asm.specs.Lines.{parsed};
ghost use Rattle.rv_asm.specs.Seen.{code_words};

use crate::cause::{AsmCause, AsmRefusal, LineRefusal};
use crate::labels::{Labels, Spot};
use crate::lines::parse;
use crate::words::{Code, code_of, count};
use nv_base::limits::{MAX_CODE, MAX_INPUT};
use plain_text::lines_of;
use std::alloc::{AllocError, Global};

/// Notes the label of a line, and answers how many words the line has.
fn note_line<'a>(
    labels: &mut Labels<'a>,
    number: u32,
    place: u32,
    bytes: &'a [u8],
) -> Result<u32, AllocError>
    ensures labels { OnOk result (find_in labels.new
        ≡ noted (find_in labels.old) (parsed bytes.entry.now).label (spot number place)) }
    ensures count { IfOk result (λ n. (n
        ≡ line_count (find_in labels.old) (parsed bytes.entry.now)) × (n ≤ 2)) }
{
    let line = parse(bytes);
    match line.label {
        None => Ok(count(line.body)),
        Some(name) => {
            let spot = Spot {
                line: number,
                place,
            };
            if labels.note(name, spot)? {
                Ok(count(line.body))
            } else {
                Ok(0)
            }
        }
    }
}

/// The labels of all lines.
#[tactic(auto, unfolding(crate::specs::Labels::labels_from))]
fn labels_of<'a>(alloc: Global, lines: &[&'a [u8]]) -> Result<Labels<'a>, AllocError>
    requires { length lines.now ≤ MAX_INPUT }
    ensures { IfOk result (λ labels. find_in labels
        ≡ labels_in (map parsed (map (λ line. line.now) lines.now))) }
{
    let mut labels = Labels::new(alloc);
    let mut number = 1;
    let mut place = 0;
    for line in lines {
        place += note_line(&mut labels, number, place, line)?;
        number += 1;
    }
    Ok(labels)
}

/// Whether a label did not stand on an earlier line.
fn check_label(labels: &Labels<'_>, number: u32, label: Option<&[u8]>) -> Result<(), AsmCause>
    ensures { result ≡ label_taken (find_in labels.now) number
        (option_map (λ name. name.now) label.entry) }
{
    let Some(name) = label else {
        return Ok(());
    };
    match labels.find(name) {
        Some(spot) if spot.line < number => Err(AsmCause::Twice),
        _ => Ok(()),
    }
}

fn push_code(words: &mut Vec<u32>, code: Code) -> Result<(), AllocError>
    ensures { OnOk result (words.new.items ≡ words.old.items ++ code_words code) }
{
    match code {
        Code::Nothing => {}
        Code::One(word) => words.push(word)?,
        Code::Two(first, second) => {
            words.push(first)?;
            words.push(second)?;
        }
    }
    Ok(())
}

/// Puts the words of a line behind those of the lines before it.
#[tactic(auto, unfolding(crate::specs::Assembly::line_after))]
fn take_line(
    words: &mut Vec<u32>,
    labels: &Labels<'_>,
    number: u32,
    bytes: &[u8],
) -> Result<(), LineRefusal>
    requires { vec_len words.old ≤ MAX_CODE }
    ensures line { Leaves words.new.items result
        (line_after (find_in labels.now) number words.old.items (parsed bytes.now)) }
    ensures few { OnOk result (vec_len words.new ≤ MAX_CODE) }
{
    let line = parse(bytes);
    check_label(labels, number, line.label)?;
    let code = code_of(labels, words.len() as u32, line.body?)?;
    if usize::from(MAX_CODE) < words.len() + code.count() as usize {
        return Err(LineRefusal::At(AsmCause::TooLong));
    }
    push_code(words, code)?;
    Ok(())
}

/// The words of lines whose labels are known.
#[tactic(auto, unfolding(crate::specs::Assembly::lines_after))]
fn encode_lines(alloc: Global, labels: &Labels<'_>, lines: &[&[u8]]) -> Result<Vec<u32>, AsmRefusal>
    requires { length lines.now ≤ MAX_INPUT }
    ensures { Gives (λ words. words.items) result
        (lines_after (find_in labels.now) 1 [] (map parsed (map (λ line. line.now) lines.now))) }
{
    let mut words = Vec::new(alloc);
    let mut number = 1;
    for line in lines {
        if let Err(refusal) = take_line(&mut words, labels, number, line) {
            return Err(refusal.at(number));
        }
        number += 1;
    }
    Ok(words)
}

/// The words of lines, which are counted from 1: each without its line feed, and with its comment.
/// `At` the first faulty line with its first cause, `NoMemory` where memory ran out.
pub fn assemble_lines(alloc: Global, lines: &[&[u8]]) -> Result<Vec<u32>, AsmRefusal>
    requires { length lines.now ≤ MAX_INPUT }
    ensures { Gives (λ words. words.items) result (assembled (map (λ line. line.now) lines.now)) }
{
    let labels = labels_of(alloc, lines)?;
    encode_lines(alloc, &labels, lines)
}

/// The words of a text of at most 1,048,576 bytes. `At` the first faulty line, counted from 1, with its first cause,
/// `NoMemory` where memory ran out.
pub fn assemble(alloc: Global, text: &str) -> Result<Vec<u32>, AsmRefusal>
    requires { length text.now ≤ MAX_INPUT }
    ensures { Gives (λ words. words.items) result (assembled (lines_in text.now)) }
{
    let lines = lines_of(alloc, text.as_bytes())?;
    assemble_lines(alloc, lines.as_slice())
}
