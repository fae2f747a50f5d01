//! What a task set is made of, before its limits are looked at.

ghost use Rattle.std.specs.Prelude.{◌≡◌, IfOk};

use crate::lists::{Name, ObjectParts, ProgramParts, Tasks, Words};
use nv_base::NoMemory;
use std::alloc::Global;
use std::marker::Model;

/// An object. Contracts see it as the definitions' record of an object.
#[derive(Debug, Drop)]
pub struct ObjPart {
    /// Its name, in ASCII.
    pub name: Name,
    /// How many words it has.
    pub size: u8,
    /// For how many versions it has slots.
    pub slots: u8,
    /// Its words at first.
    pub first: Words,
}

impl Model for ObjPart {
    ghost use Rattle.set_model.specs.Sets.{ObjPart};

    ghost Value = { ObjPart };

    ghost view = { λ o. record { name = o.name; size = o.size; slots = o.slots; first = o.first } };
}

impl ObjPart {
    /// The same object, in memory of its own.
    pub fn copy(&self, alloc: Global) -> Result<ObjPart, NoMemory>
        ensures { IfOk result (λ o. o ≡ self.now) }
    {
        Ok(ObjPart {
            name: self.name.copy(alloc)?,
            size: self.size,
            slots: self.slots,
            first: self.first.copy(alloc)?,
        })
    }
}

/// A program. Contracts see it as the definitions' record of a program.
#[derive(Debug, Drop)]
pub struct ProgPart {
    /// Its name, in ASCII.
    pub name: Name,
    /// How many instructions a run of it may count.
    pub fuel: u32,
    /// Its code, in words.
    pub code: Words,
}

impl Model for ProgPart {
    ghost use Rattle.set_model.specs.Sets.{ProgPart};

    ghost Value = { ProgPart };

    ghost view = { λ p. record { name = p.name; fuel = p.fuel; code = p.code } };
}

impl ProgPart {
    /// The same program, in memory of its own.
    pub fn copy(&self, alloc: Global) -> Result<ProgPart, NoMemory>
        ensures { IfOk result (λ p. p ≡ self.now) }
    {
        Ok(ProgPart {
            name: self.name.copy(alloc)?,
            fuel: self.fuel,
            code: self.code.copy(alloc)?,
        })
    }
}

/// The parts of a task set. Contracts see them as the definitions' record of a task set, which may break limits.
#[derive(Debug, Drop)]
pub struct SetParts {
    /// By which the most objects and task records go: 1 or 2.
    pub format: u8,
    /// How many cores there are.
    pub cores: u8,
    /// The private memory of each attempt, in bytes.
    pub memory: u32,
    /// How many tasks may be open at a time.
    pub records: u16,
    /// The objects, by their numbers.
    pub objects: ObjectParts,
    /// The programs, by their numbers.
    pub programs: ProgramParts,
    /// The tasks that are open at first, under the ids 1, 2, ..
    pub tasks: Tasks,
}

impl Model for SetParts {
    ghost use Rattle.std.specs.Prelude.{map};
    ghost use Rattle.set_model.specs.Sets.{TaskSet};
    ghost use Rattle.set_model.specs.Views.{spawn_of};

    ghost Value = { TaskSet };

    ghost view = { λ a. record { format = a.format; cores = a.cores; memory = a.memory; records = a.records; objects = a.objects; programs = a.programs; tasks = map spawn_of a.tasks } };
}

impl SetParts {
    /// The same parts, in memory of their own.
    pub fn copy(&self, alloc: Global) -> Result<SetParts, NoMemory>
        ensures { IfOk result (λ a. a ≡ self.now) }
    {
        Ok(SetParts {
            format: self.format,
            cores: self.cores,
            memory: self.memory,
            records: self.records,
            objects: self.objects.copy(alloc)?,
            programs: self.programs.copy(alloc)?,
            tasks: self.tasks.copy(alloc)?,
        })
    }
}
