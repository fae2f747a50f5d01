//! A device that counts its calls, and loses one read.

use fram_dev::{Fram, Lost, MemFram};

/// A device that counts its calls, loses the read with this number, counted from 1, and then goes on.
#[derive(Drop)]
pub(crate) struct Watched {
    memory: MemFram,
    loses: u32,
    pub(crate) reads: u32,
    pub(crate) writes: u32,
    lost: u64,
}

impl Watched {
    /// This device, which loses this read, if it is none no read.
    pub(crate) fn new(memory: MemFram, loses: u32) -> Watched {
        Watched {
            memory,
            loses,
            reads: 0,
            writes: 0,
            lost: 0,
        }
    }
}

impl Fram for Watched {
    ghost start = { λ w. w.memory.start.items };

    ghost log = { λ w. w.memory.log.items };

    ghost lost = { λ w. w.lost };

    fn len(&self) -> u32 {
        self.memory.len()
    }

    fn read(&mut self, at: u32) -> Result<u32, Lost> {
        self.reads = self.reads.saturating_add(1);
        if self.reads == self.loses {
            self.lost = self.lost.saturating_add(1);
            return Err(Lost);
        }
        let Ok(word) = self.memory.read(at) else {
            self.lost = self.lost.saturating_add(1);
            return Err(Lost);
        };
        Ok(word)
    }

    fn write(&mut self, at: u32, word: u32) -> Result<(), Lost> {
        self.writes = self.writes.saturating_add(1);
        let Ok(()) = self.memory.write(at, word) else {
            self.lost = self.lost.saturating_add(1);
            return Err(Lost);
        };
        Ok(())
    }

    fn losses(&self) -> u64 {
        self.lost
    }
}
