//! What names look like, and that each is given once.

ghost use Rattle.std.specs.Prelude.{◌≡◌, ◌&&◌, ◌++◌, ◌∷◌, [], IfOk, MatchBool, map};
ghost use Rattle.std.specs.Bool.{OnTrue};
ghost use Rattle.plain_text.specs.Names.{is_name as name_test};
ghost use Rattle.set_model.specs.Names.{AreNames, IsNamed, is_new};

use crate::parts::{ObjPart, ProgPart, SetParts};
use indexmap::IndexSet;
use nv_base::NoMemory;
use plain_text::is_name;
use std::alloc::Global;

/// Takes a name that is well formed and not yet taken: whether it is so. `NoMemory` where it could not be kept.
pub fn take_name<'a>(taken: &mut IndexSet<&'a [u8]>, name: &'a [u8]) -> Result<bool, NoMemory>
    ensures tells { IfOk result (λ fresh. fresh
        ≡ (name_test name.now && is_new (map (λ k. k.now) taken.old.keys) name.now)) }
    ensures takes { IfOk result (λ fresh. OnTrue fresh (map (λ k. k.now) taken.new.keys
        ≡ map (λ k. k.now) taken.old.keys ++ name.now ∷ [])) }
    ensures names { AreNames (map (λ k. k.now) taken.old.keys)
        → IfOk result (λ fresh. MatchBool fresh (AreNames (map (λ k. k.now) taken.new.keys))
        (AreNames (map (λ k. k.now) taken.old.keys ++ name.now ∷ []) → ⊥)) }
{
    if !is_name(name) {
        return Ok(false);
    }
    Ok(taken.insert(name)?)
}

/// Whether each object has a name, and no other object has it. Takes memory.
pub(crate) fn objects_are_named(alloc: Global, objects: &[ObjPart]) -> Result<bool, NoMemory>
    ensures { IfOk result (λ named. MatchBool named (AreNames (map (λ o. o.name) objects.now))
        (AreNames (map (λ o. o.name) objects.now) → ⊥)) }
{
    let mut taken = IndexSet::new(alloc);
    for object in objects {
        if !take_name(&mut taken, object.name.as_slice())? {
            return Ok(false);
        }
    }
    Ok(true)
}

/// Whether each program has a name, and no other program has it. Takes memory.
pub(crate) fn programs_are_named(alloc: Global, programs: &[ProgPart]) -> Result<bool, NoMemory>
    ensures { IfOk result (λ named. MatchBool named (AreNames (map (λ p. p.name) programs.now))
        (AreNames (map (λ p. p.name) programs.now) → ⊥)) }
{
    let mut taken = IndexSet::new(alloc);
    for program in programs {
        if !take_name(&mut taken, program.name.as_slice())? {
            return Ok(false);
        }
    }
    Ok(true)
}

/// Whether each object and each program has a name, given once among its kind. Takes memory.
pub(crate) fn are_named(alloc: Global, parts: &SetParts) -> Result<bool, NoMemory>
    ensures { IfOk result (λ named. MatchBool named (IsNamed parts.now) (IsNamed parts.now → ⊥)) }
{
    if !objects_are_named(alloc, parts.objects.as_slice())? {
        return Ok(false);
    }
    programs_are_named(alloc, parts.programs.as_slice())
}
