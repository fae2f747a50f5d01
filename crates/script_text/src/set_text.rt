//! A task set written as a script.

ghost use Rattle.std.specs.Prelude.{◌≡◌, ◌<◌, ◌++◌, IfOk, OnOk, length, codes, string_bytes, map};
ghost use Rattle.std.specs.List.{flat_map};
ghost use Rattle.set_model.specs.Names.{IsName};
ghost use Rattle.set_model.specs.Sets.{object_at, program_at};
ghost use Rattle.set_model.specs.Views.{spawn_of};
ghost use Rattle.nv_base.specs.Texts.{field};
ghost use Rattle.script_text.specs.ScriptText.{code_text, number_text, object_text, program_text, script_text as text_of_set, task_text};

use nv_base::{NoMemory, ObjId, ProgId, Spawn};
use rv_isa::push_text;
use std::alloc::{AllocError, Global};
use task_set::TaskSet;

/// A name as text.
#[tactic(auto, using(crate::proofs::NamesAsText::name_is_text))]
fn as_text(name: &[u8]) -> &str
    requires { IsName name.now }
    ensures { result.now ≡ name.now }
{
    match str::from_utf8(name) {
        Ok(text) => text,
        Err(_) => unreachable!(),
    }
}

/// A number behind what stands before it.
fn push_field(out: &mut String, before: &str, n: u32) -> Result<(), AllocError>
    ensures { OnOk result (string_bytes out.new ≡ string_bytes out.old ++ field before.now n) }
{
    let mut digits = itoa::Buffer::new();
    out.push_str(before)?;
    out.push_str(digits.format(n))
}

/// A line of a word and a number.
fn push_number(out: &mut String, word: &str, n: u32) -> Result<(), AllocError>
    ensures { OnOk result (string_bytes out.new ≡ string_bytes out.old ++ number_text word.now n) }
{
    push_field(out, word, n)?;
    out.push_str("\n")
}

/// Words, each behind a space.
fn push_words(out: &mut String, words: &[u32]) -> Result<(), AllocError>
    ensures { OnOk result (string_bytes out.new
        ≡ string_bytes out.old ++ flat_map (field (codes " ")) words.now) }
{
    for word in words {
        push_field(out, " ", *word)?;
    }
    Ok(())
}

/// The line of an object.
fn push_object(out: &mut String, set: &TaskSet, o: ObjId) -> Result<(), AllocError>
    requires { o.0 < length set.now.objects }
    ensures { OnOk result (string_bytes out.new
        ≡ string_bytes out.old ++ object_text (object_at set.now o.0)) }
{
    out.push_str("object ")?;
    out.push_str(as_text(set.object_name(o)))?;
    push_field(out, " ", u32::from(set.size(o)))?;
    push_field(out, " ", u32::from(set.slots(o)))?;
    push_words(out, set.first(o))?;
    out.push_str("\n")
}

/// Words of code, an instruction a line.
fn push_code(out: &mut String, code: &[u32]) -> Result<(), NoMemory>
    ensures { OnOk result (string_bytes out.new
        ≡ string_bytes out.old ++ flat_map code_text code.now) }
{
    for word in code {
        push_text(out, *word)?;
        out.push_str("\n")?;
    }
    Ok(())
}

/// The lines of a program.
fn push_program(out: &mut String, set: &TaskSet, p: ProgId) -> Result<(), NoMemory>
    requires { p.0 < length set.now.programs }
    ensures { OnOk result (string_bytes out.new
        ≡ string_bytes out.old ++ program_text (program_at set.now p.0)) }
{
    out.push_str("program ")?;
    out.push_str(as_text(set.program_name(p)))?;
    push_field(out, " ", set.fuel(p))?;
    out.push_str("\n")?;
    push_code(out, set.code(p))?;
    out.push_str("end\n")?;
    Ok(())
}

/// The line of a task.
fn push_task(out: &mut String, set: &TaskSet, task: Spawn) -> Result<(), AllocError>
    requires { task.program.0 < length set.now.programs }
    ensures { OnOk result (string_bytes out.new
        ≡ string_bytes out.old ++ task_text set.now (spawn_of task)) }
{
    out.push_str("task ")?;
    out.push_str(as_text(set.program_name(task.program)))?;
    push_field(out, " ", task.arg)?;
    out.push_str("\n")
}

/// The lines of all objects.
fn push_objects(out: &mut String, set: &TaskSet) -> Result<(), AllocError>
    ensures { OnOk result (string_bytes out.new
        ≡ string_bytes out.old ++ flat_map object_text set.now.objects) }
{
    for o in 0..set.objects() {
        push_object(out, set, ObjId(o))?;
    }
    Ok(())
}

/// The lines of all programs.
fn push_programs(out: &mut String, set: &TaskSet) -> Result<(), NoMemory>
    ensures { OnOk result (string_bytes out.new
        ≡ string_bytes out.old ++ flat_map program_text set.now.programs) }
{
    for p in 0..set.programs() {
        push_program(out, set, ProgId(p))?;
    }
    Ok(())
}

/// The lines of all tasks.
fn push_tasks(out: &mut String, set: &TaskSet) -> Result<(), AllocError>
    ensures { OnOk result (string_bytes out.new
        ≡ string_bytes out.old ++ flat_map (task_text set.now) set.now.tasks) }
{
    for task in set.tasks() {
        push_task(out, set, *task)?;
    }
    Ok(())
}

/// A set as a script: the lines `nvk`, `cores`, `memory` and `records`, one for each object with all its first
/// values, each program with its code as assembler text, one line for each task, and `run`. Words have one space
/// between them, numbers are decimal, and there are no lines of a schedule. `NoMemory` where no room for the text was
/// found. By `script_text_is_read_back`, `read_script` of this text answers the set with an empty schedule, or that
/// memory ran out.
#[tactic(auto, unfolding(crate::specs::ScriptText::script_text))]
pub fn script_text(alloc: Global, set: &TaskSet) -> Result<String, NoMemory>
    ensures { IfOk result (λ text. string_bytes text ≡ text_of_set set.now) }
{
    let mut out = String::new(alloc);
    push_number(&mut out, "nvk ", u32::from(set.format()))?;
    push_number(&mut out, "cores ", u32::from(set.cores()))?;
    push_number(&mut out, "memory ", set.memory())?;
    push_number(&mut out, "records ", u32::from(set.records()))?;
    push_objects(&mut out, set)?;
    push_programs(&mut out, set)?;
    push_tasks(&mut out, set)?;
    out.push_str("run\n")?;
    Ok(out)
}
