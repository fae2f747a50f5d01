//! Which versions are needed, and which slots are free, by the plain program.

use super::{Plain, Span, number};
use crate::small_runs::{OBJECTS, Run, has};

// whether a version with this life may be read at one of these points
fn is_in_reach(others: &[Span], begin: u32, end: Option<u32>) -> bool {
    for span in others {
        if !span.within(begin, end).is_empty() {
            return true;
        }
    }
    false
}

impl Plain {
    // whether a version is needed beside these intervals
    fn is_needed(&self, core: u8, others: &[Span], object: u8, writer: u32) -> bool {
        let end = self.end(object, writer);
        is_in_reach(others, self.point(writer), end) || self.is_copied(core, object, writer)
    }

    // how many versions of an object are needed, that are not the newest
    fn count_needed(&self, core: u8, others: &[Span], object: u8) -> u32 {
        let mut count = 0u32;
        for (place, finish) in self.finishes.iter().enumerate() {
            let writer = number(place);
            if has(finish.writes, object)
                && self.chosen(object, None) != Some(writer)
                && self.is_needed(core, others, object, writer)
            {
                count = count.saturating_add(1);
            }
        }
        count
    }

    // whether a slot holds the newest version, or one that is needed
    fn is_taken(&self, core: u8, others: &[Span], object: u8, slot: u8) -> bool {
        match self.holder(object, slot) {
            None => false,
            Some(writer) => {
                self.chosen(object, None) == Some(writer)
                    || self.is_needed(core, others, object, writer)
            }
        }
    }

    // the least slot that is not taken
    fn free_slot(&self, core: u8, others: &[Span], object: u8, slots: u8) -> Option<u8> {
        for slot in 0..slots {
            if !self.is_taken(core, others, object, slot) {
                return Some(slot);
            }
        }
        None
    }

    // the slot for a version of an object. Room counts what is needed.
    fn slot_with_room(&self, core: u8, others: &[Span], object: u8, slots: u8) -> Option<u8> {
        let needed = self.count_needed(core, others, object);
        if u32::from(slots) < needed.saturating_add(2) {
            return None;
        }
        self.free_slot(core, others, object, slots)
    }

    // the same where the object is written, and else 255
    fn slot_if_written(&self, core: u8, others: &[Span], run: Run, object: u8) -> Option<u8> {
        if !has(run.writes, object) {
            return Some(255);
        }
        let slots = self.slots.get(usize::from(object)).copied().unwrap_or(0);
        self.slot_with_room(core, others, object, slots)
    }

    /// The slots of what is written, or the least object that has none.
    pub(super) fn free_slots(&self, core: u8, others: &[Span], run: Run) -> Result<[u8; 3], u8> {
        let mut slots = [255u8; 3];
        for object in 0..OBJECTS {
            match self.slot_if_written(core, others, run, object) {
                None => return Err(object),
                Some(slot) => slots[usize::from(object)] = slot,
            }
        }
        Ok(slots)
    }
}
