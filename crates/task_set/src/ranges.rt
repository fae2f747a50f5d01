//! What the types of the parts say of their numbers: these functions compute nothing.

ghost use Rattle.std.specs.List.{AllByRecursion};
ghost use Rattle.set_model.specs.Limits.{IsWord};
ghost use Rattle.set_model.specs.Views.{spawn_of};
ghost use Rattle.task_set.specs.Ranges.{HasWords};
ghost use Rattle.std.specs.Prelude.{map};

use crate::parts::{ObjPart, ProgPart, SetParts};
use nv_base::Spawn;

fn are_words(words: &[u32])
    ensures { AllByRecursion IsWord words.now }
{}

fn first_words_are_words(objects: &[ObjPart])
    ensures { AllByRecursion (λ o. AllByRecursion IsWord o.first) objects.now }
{
    for object in objects {
        are_words(object.first.as_slice());
    }
}

fn codes_are_words(programs: &[ProgPart])
    ensures { AllByRecursion (λ p. AllByRecursion IsWord p.code) programs.now }
{
    for program in programs {
        are_words(program.code.as_slice());
    }
}

fn argument_is_word(task: &Spawn)
    ensures { IsWord task.now.arg }
{
    let _arg = task.arg;
}

fn arguments_are_words(tasks: &[Spawn])
    ensures { AllByRecursion (λ t. IsWord t.arg) tasks.now }
{
    for task in tasks {
        argument_is_word(task);
    }
}

pub(crate) fn has_words(parts: &SetParts)
    ensures { HasWords parts.now }
{
    first_words_are_words(parts.objects.as_slice());
    codes_are_words(parts.programs.as_slice());
    arguments_are_words(parts.tasks.as_slice());
}
