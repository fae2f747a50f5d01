//! The lines of the task set.

ghost use Rattle.std.specs.Prelude.{◌≡◌, ◌<◌, ◌≤◌, length, nat_eq, replicate, IfOk, IfSome};
ghost use Rattle.std.specs.Cmp.Lexicographic.{pointwise};
ghost use Rattle.plain_text.specs.Left.{words_left};
ghost use Rattle.nv_base.specs.Refusals.{Gives, Leaves};
ghost use Rattle.script.specs.Results.{each};
ghost use Rattle.script.specs.SetLines.{cores_after, format_after, first_values as first_words, memory_after, object_after, records_after, task_after};
ghost use Rattle.script.specs.Words.{known_name, new_name, place_of, value as value_word};

use crate::refusals::{LineRefusal, ScriptCause};
use crate::words::{number, one, three, two, value};
use nv_base::limits::{
    MAX_CORES, MAX_FORMAT, MAX_MEMORY, MAX_PROGRAMS, MAX_SIZE, MAX_SLOTS, MIN_MEMORY, MIN_SLOTS,
};
use nv_base::{NoMemory, ProgId, Spawn};
use plain_text::{Words, is_name};
use std::alloc::Global;
use task_set::{Name, ObjPart, ProgPart, SetParts, Words as WordList, max_objects, max_records};

fn is_same(name: &[u8], other: &[u8]) -> bool
    ensures { result ≡ pointwise nat_eq name.now other.now }
{
    name == other
}

/// Where an object of this name stands. None where no object has it.

fn object_place(objects: &[ObjPart], name: &[u8]) -> Option<usize>
    ensures { result ≡ place_of (λ o. o.name) name.now objects.now }
{
    objects
        .iter()
        .position(|o| is_same(o.name.as_slice(), name))
}

/// Where a program of this name stands. None where no program has it.

fn program_place(programs: &[ProgPart], name: &[u8]) -> Option<usize>
    ensures place { result ≡ place_of (λ p. p.name) name.now programs.now }
    ensures within { IfSome result (λ place. place < length programs.now) }
{
    programs
        .iter()
        .position(|p| is_same(p.name.as_slice(), name))
}

/// `nvk F`.
#[tactic(auto, unfolding(crate::specs::SetLines::format_after))]
pub(crate) fn take_format(set: &mut SetParts, words: Words<'_>) -> Result<(), LineRefusal>
    ensures exact { Leaves set.new result (format_after set.old (words_left words.entry)) }
    ensures programs { set.new.programs ≡ set.old.programs }
{
    let format = number(1, u32::from(MAX_FORMAT), one(words)?)?;
    set.format = format as u8;
    Ok(())
}

/// `cores N`.
#[tactic(auto, unfolding(crate::specs::SetLines::cores_after))]
pub(crate) fn take_cores(set: &mut SetParts, words: Words<'_>) -> Result<(), LineRefusal>
    ensures exact { Leaves set.new result (cores_after set.old (words_left words.entry)) }
    ensures programs { set.new.programs ≡ set.old.programs }
{
    let cores = number(1, u32::from(MAX_CORES), one(words)?)?;
    set.cores = cores as u8;
    Ok(())
}

/// `memory M`.
#[tactic(auto, unfolding(crate::specs::SetLines::memory_after))]
pub(crate) fn take_memory(set: &mut SetParts, words: Words<'_>) -> Result<(), LineRefusal>
    ensures exact { Leaves set.new result (memory_after set.old (words_left words.entry)) }
    ensures programs { set.new.programs ≡ set.old.programs }
{
    let memory = number(MIN_MEMORY, MAX_MEMORY, one(words)?)?;
    if memory % 4 != 0 {
        return Err(LineRefusal::At(ScriptCause::Range));
    }
    set.memory = memory;
    Ok(())
}

/// `records R`.
#[tactic(auto, unfolding(crate::specs::SetLines::records_after))]
pub(crate) fn take_records(set: &mut SetParts, words: Words<'_>) -> Result<(), LineRefusal>
    ensures exact { Leaves set.new result (records_after set.old (words_left words.entry)) }
    ensures programs { set.new.programs ≡ set.old.programs }
{
    let records = number(1, u32::from(max_records(set.format)), one(words)?)?;
    set.records = records as u16;
    Ok(())
}

/// A well-formed name that no object has.
fn new_object_name<'a>(objects: &[ObjPart], word: &'a [u8]) -> Result<&'a [u8], LineRefusal>
    ensures { Gives (λ w. w.now) result (new_name (λ o. o.name) objects.now word.entry.now) }
{
    if !is_name(word) {
        return Err(LineRefusal::At(ScriptCause::Name));
    }
    if object_place(objects, word).is_some() {
        return Err(LineRefusal::At(ScriptCause::Twice));
    }
    Ok(word)
}

/// A well-formed name that no program has.
pub(crate) fn new_program_name<'a>(
    programs: &[ProgPart],
    word: &'a [u8],
) -> Result<&'a [u8], LineRefusal>
    ensures { Gives (λ w. w.now) result (new_name (λ p. p.name) programs.now word.entry.now) }
{
    if !is_name(word) {
        return Err(LineRefusal::At(ScriptCause::Name));
    }
    if program_place(programs, word).is_some() {
        return Err(LineRefusal::At(ScriptCause::Twice));
    }
    Ok(word)
}

/// Where the program of a well-formed name stands.
fn known_program(programs: &[ProgPart], word: &[u8]) -> Result<usize, LineRefusal>
    ensures exact { Gives (λ place. place) result (known_name (λ p. p.name) programs.now word.now) }
    ensures within { IfOk result (λ place. place < length programs.now) }
{
    if !is_name(word) {
        return Err(LineRefusal::At(ScriptCause::Name));
    }
    match program_place(programs, word) {
        Some(place) => Ok(place),
        None => Err(LineRefusal::At(ScriptCause::Unknown)),
    }
}

/// So many zeros.
fn zeros(alloc: Global, size: u32) -> Result<WordList, NoMemory>
    ensures { IfOk result (λ list. list ≡ replicate size 0) }
{
    let zeros = vec![in alloc; 0; size as usize]?;
    WordList::from_slice(alloc, &zeros)
}

/// The word values that words write.
fn values(alloc: Global, words: Words<'_>) -> Result<WordList, LineRefusal>
    ensures { Gives (λ list. list) result (each value_word (words_left words.entry)) }
{
    let mut values = WordList::new(alloc);
    for word in words {
        values.push(value(word)?)?;
    }
    Ok(values)
}

/// The first values of an object.
#[tactic(auto, unfolding(crate::specs::SetLines::first_values))]
fn first_values(alloc: Global, size: u32, words: Words<'_>) -> Result<WordList, LineRefusal>
    ensures { Gives (λ list. list) result (first_words size (words_left words.entry)) }
{
    let count = words.word_count();
    if count == 0 {
        return Ok(zeros(alloc, size)?);
    }
    if count != size as usize {
        return Err(LineRefusal::At(ScriptCause::Count));
    }
    values(alloc, words)
}

/// `object NAME SIZE SLOTS [VALUE ..]`.
#[tactic(auto, unfolding(crate::specs::SetLines::object_after))]
pub(crate) fn take_object(
    alloc: Global,
    set: &mut SetParts,
    words: Words<'_>,
) -> Result<(), LineRefusal>
    ensures exact { Leaves set.new result (object_after set.old (words_left words.entry)) }
    ensures programs { set.new.programs ≡ set.old.programs }
{
    let (name, size, slots, words) = three(words)?;
    let name = new_object_name(set.objects.as_slice(), name)?;
    let size = number(1, u32::from(MAX_SIZE), size)?;
    let slots = number(u32::from(MIN_SLOTS), u32::from(MAX_SLOTS), slots)?;
    let first = first_values(alloc, size, words)?;
    if set.objects.as_slice().len() == usize::from(max_objects(set.format)) {
        return Err(LineRefusal::At(ScriptCause::Many));
    }
    set.objects.push(ObjPart {
        name: Name::from_slice(alloc, name)?,
        size: size as u8,
        slots: slots as u8,
        first,
    })?;
    Ok(())
}

/// `task NAME ARG`.
#[tactic(auto, unfolding(crate::specs::SetLines::task_after))]
pub(crate) fn take_task(set: &mut SetParts, words: Words<'_>) -> Result<(), LineRefusal>
    requires { length set.old.programs ≤ MAX_PROGRAMS }
    ensures exact { Leaves set.new result (task_after set.old (words_left words.entry)) }
    ensures programs { set.new.programs ≡ set.old.programs }
{
    let (name, arg) = two(words)?;
    let place = known_program(set.programs.as_slice(), name)?;
    let arg = value(arg)?;
    if set.tasks.as_slice().len() == usize::from(set.records) {
        return Err(LineRefusal::At(ScriptCause::Many));
    }
    let program = ProgId(place as u8);
    set.tasks.push(Spawn { program, arg })?;
    Ok(())
}
