//! Finishes of the plain program, and whether they are serial.

use super::{Finish, Plain, Put, Seen, number};
use crate::small_runs::{OBJECTS, Run, has};
use nv_base::NoMemory;

impl Plain {
    // the versions that a finish with this number writes
    fn put(&mut self, writer: u32, run: Run, slots: [u8; 3]) -> Result<(), NoMemory> {
        for object in 0..OBJECTS {
            if has(run.writes, object) {
                self.puts.push(Put {
                    object,
                    slot: slots[usize::from(object)],
                    writer,
                })?;
            }
        }
        Ok(())
    }

    // the versions that it has read
    fn see(&mut self, core: u8, reader: u32) -> Result<(), NoMemory> {
        for object in 0..OBJECTS {
            if let Some(writer) = self.read(core, object) {
                self.seen.push(Seen {
                    reader,
                    object,
                    writer,
                })?;
            }
        }
        Ok(())
    }

    /// An attempt finishes.
    pub fn finish(
        &mut self,
        core: u8,
        run: Run,
        point: u32,
        slots: [u8; 3],
    ) -> Result<(), NoMemory> {
        let count = number(self.finishes.len());
        let task = self.task(core);
        self.finishes.push(Finish {
            task,
            point,
            reads: run.reads,
            writes: run.writes,
            spawns: run.spawns,
        })?;
        self.put(count, run, slots)?;
        self.see(core, count)?;
        self.drop_try(core);
        Ok(())
    }

    // whether a finish stands before another in serial order: by point, then by number
    fn precedes(&self, a: u32, b: u32) -> bool {
        self.point(a) < self.point(b) || self.point(a) == self.point(b) && a < b
    }

    // the last writer of an object before a finish in serial order
    fn writer_before(&self, object: u8, reader: u32) -> u32 {
        let mut last = 0;
        for (place, finish) in self.finishes.iter().enumerate() {
            let writer = number(place);
            if has(finish.writes, object)
                && self.precedes(writer, reader)
                && self.precedes(last, writer)
            {
                last = writer;
            }
        }
        last
    }

    /// Whether each finish has read what it reads when all run alone, one after another in serial order.
    pub fn is_serial(&self) -> bool {
        for seen in &self.seen {
            if self.writer_before(seen.object, seen.reader) != seen.writer {
                return false;
            }
        }
        true
    }
}
