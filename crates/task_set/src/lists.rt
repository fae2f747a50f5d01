//! The lists that parts are made of: each is a `Vec` that lends its slice, and contracts see it as the list of its items.

ghost use Rattle.std.specs.Prelude.{◌≡◌, ◌++◌, ◌∷◌, [], IfOk, MatchResult};

use crate::parts::{ObjPart, ProgPart};
use nv_base::{NoMemory, Spawn};
use std::alloc::Global;
use std::marker::Model;

/// The bytes of a name.
#[derive(Debug, Drop)]
pub struct Name {
    items: Vec<u8>,
}

impl Model for Name {
    ghost use Rattle.std.specs.Prelude.{List, ℕ};

    ghost Value = { List ℕ };

    ghost view = { λ a. a.items.items };
}

impl Name {
    /// None yet.
    pub fn new(alloc: Global) -> Name
        ensures { result ≡ [] }
    {
        Name {
            items: Vec::new(alloc),
        }
    }

    /// These bytes, in memory of their own.
    pub fn from_slice(alloc: Global, items: &[u8]) -> Result<Name, NoMemory>
        ensures { IfOk result (λ a. a ≡ items.now) }
    {
        Ok(Name {
            items: Vec::from_slice(alloc, items)?,
        })
    }

    /// Adds a byte behind the others. `NoMemory` leaves them as they were.
    pub fn push(&mut self, byte: u8) -> Result<(), NoMemory>
        ensures { MatchResult result (λ _. self.new ≡ self.old ++ byte ∷ []) (λ _. self.new
            ≡ self.old) }
    {
        self.items.push(byte)?;
        Ok(())
    }

    /// All of them, in order.
    pub fn as_slice(&self) -> &[u8]
        ensures { result.now ≡ self.now }
    {
        self.items.as_slice()
    }

    /// The same bytes, in memory of their own.
    pub fn copy(&self, alloc: Global) -> Result<Name, NoMemory>
        ensures { IfOk result (λ a. a ≡ self.now) }
    {
        Name::from_slice(alloc, self.as_slice())
    }
}

/// Words of 32 bits: the first words of an object, or the code of a program.
#[derive(Debug, Drop)]
pub struct Words {
    items: Vec<u32>,
}

impl Model for Words {
    ghost use Rattle.std.specs.Prelude.{List, ℕ};

    ghost Value = { List ℕ };

    ghost view = { λ a. a.items.items };
}

impl Words {
    /// None yet.
    pub fn new(alloc: Global) -> Words
        ensures { result ≡ [] }
    {
        Words {
            items: Vec::new(alloc),
        }
    }

    /// These words, in memory of their own.
    pub fn from_slice(alloc: Global, items: &[u32]) -> Result<Words, NoMemory>
        ensures { IfOk result (λ a. a ≡ items.now) }
    {
        Ok(Words {
            items: Vec::from_slice(alloc, items)?,
        })
    }

    /// Adds a word behind the others. `NoMemory` leaves them as they were.
    pub fn push(&mut self, word: u32) -> Result<(), NoMemory>
        ensures { MatchResult result (λ _. self.new ≡ self.old ++ word ∷ []) (λ _. self.new
            ≡ self.old) }
    {
        self.items.push(word)?;
        Ok(())
    }

    /// All of them, in order.
    pub fn as_slice(&self) -> &[u32]
        ensures { result.now ≡ self.now }
    {
        self.items.as_slice()
    }

    /// The same words, in memory of their own.
    pub fn copy(&self, alloc: Global) -> Result<Words, NoMemory>
        ensures { IfOk result (λ a. a ≡ self.now) }
    {
        Words::from_slice(alloc, self.as_slice())
    }
}

/// Objects, by their numbers.
#[derive(Debug, Drop)]
pub struct ObjectParts {
    items: Vec<ObjPart>,
}

impl Model for ObjectParts {
    ghost use Rattle.std.specs.Prelude.{List, ℕ};
    ghost use Rattle.set_model.specs.Sets.{ObjPart};

    ghost Value = { List ObjPart };

    ghost view = { λ a. a.items.items };
}

impl ObjectParts {
    /// None yet.
    pub fn new(alloc: Global) -> ObjectParts
        ensures { result ≡ [] }
    {
        ObjectParts {
            items: Vec::new(alloc),
        }
    }

    /// Adds an object behind the others. `NoMemory` leaves them as they were.
    pub fn push(&mut self, object: ObjPart) -> Result<(), NoMemory>
        ensures { MatchResult result (λ _. self.new ≡ self.old ++ object ∷ []) (λ _. self.new
            ≡ self.old) }
    {
        self.items.push(object)?;
        Ok(())
    }

    /// All of them, in order.
    pub fn as_slice(&self) -> &[ObjPart]
        ensures { result.now ≡ self.now }
    {
        self.items.as_slice()
    }

    /// The same objects, in memory of their own.
    pub fn copy(&self, alloc: Global) -> Result<ObjectParts, NoMemory>
        ensures { IfOk result (λ a. a ≡ self.now) }
    {
        let mut items = Vec::with_capacity(alloc, self.items.len())?;
        for object in &self.items {
            items.push(object.copy(alloc)?)?;
        }
        Ok(ObjectParts { items })
    }
}

/// Programs, by their numbers.
#[derive(Debug, Drop)]
pub struct ProgramParts {
    items: Vec<ProgPart>,
}

impl Model for ProgramParts {
    ghost use Rattle.std.specs.Prelude.{List, ℕ};
    ghost use Rattle.set_model.specs.Sets.{ProgPart};

    ghost Value = { List ProgPart };

    ghost view = { λ a. a.items.items };
}

impl ProgramParts {
    /// None yet.
    pub fn new(alloc: Global) -> ProgramParts
        ensures { result ≡ [] }
    {
        ProgramParts {
            items: Vec::new(alloc),
        }
    }

    /// Adds a program behind the others. `NoMemory` leaves them as they were.
    pub fn push(&mut self, program: ProgPart) -> Result<(), NoMemory>
        ensures { MatchResult result (λ _. self.new ≡ self.old ++ program ∷ []) (λ _. self.new
            ≡ self.old) }
    {
        self.items.push(program)?;
        Ok(())
    }

    /// All of them, in order.
    pub fn as_slice(&self) -> &[ProgPart]
        ensures { result.now ≡ self.now }
    {
        self.items.as_slice()
    }

    /// The same programs, in memory of their own.
    pub fn copy(&self, alloc: Global) -> Result<ProgramParts, NoMemory>
        ensures { IfOk result (λ a. a ≡ self.now) }
    {
        let mut items = Vec::with_capacity(alloc, self.items.len())?;
        for program in &self.items {
            items.push(program.copy(alloc)?)?;
        }
        Ok(ProgramParts { items })
    }
}

/// Tasks that are open at first, under the ids 1, 2, ..
#[derive(Debug, Drop)]
pub struct Tasks {
    items: Vec<Spawn>,
}

impl Model for Tasks {
    ghost use Rattle.std.specs.Prelude.{List, ℕ};
    ghost use Rattle.nv_base.specs.declared.lines.Spawn.{Spawn};

    ghost Value = { List Spawn };

    ghost view = { λ a. a.items.items };
}

impl Tasks {
    /// None yet.
    pub fn new(alloc: Global) -> Tasks
        ensures { result ≡ [] }
    {
        Tasks {
            items: Vec::new(alloc),
        }
    }

    /// These tasks, in memory of their own.
    pub fn from_slice(alloc: Global, items: &[Spawn]) -> Result<Tasks, NoMemory>
        ensures { IfOk result (λ a. a ≡ items.now) }
    {
        Ok(Tasks {
            items: Vec::from_slice(alloc, items)?,
        })
    }

    /// Adds a task behind the others. `NoMemory` leaves them as they were.
    pub fn push(&mut self, task: Spawn) -> Result<(), NoMemory>
        ensures { MatchResult result (λ _. self.new ≡ self.old ++ task ∷ []) (λ _. self.new
            ≡ self.old) }
    {
        self.items.push(task)?;
        Ok(())
    }

    /// All of them, in order.
    pub fn as_slice(&self) -> &[Spawn]
        ensures { result.now ≡ self.now }
    {
        self.items.as_slice()
    }

    /// The same tasks, in memory of their own.
    pub fn copy(&self, alloc: Global) -> Result<Tasks, NoMemory>
        ensures { IfOk result (λ a. a ≡ self.now) }
    {
        Tasks::from_slice(alloc, self.as_slice())
    }
}
