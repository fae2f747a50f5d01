//! A place in bytes, from which fields are read.

ghost use Rattle.std.specs.Prelude.{◌≡◌, ◌≤◌, ◌<◌, ◌++◌, ◌∷◌, [], IfOk, IfErr, true, nat_lt, map, length, take};
ghost use Rattle.std.specs.Int.{is_in_range};
ghost use Rattle.nv_base.specs.Refusals.{Gives};
ghost use Rattle.nv_base.specs.declared.refusals.Refusal.TheVariants.{At};
ghost use Rattle.task_image.specs.Reading.{number, literal, new_name, end, past};
ghost use Rattle.task_image.specs.Unpacked.{is_memory};

use crate::refusal::Stop;
use byteorder::{ByteOrder, LittleEndian};
use indexmap::IndexSet;
use nv_base::limits::{MAX_FORMAT, MAX_MEMORY, MIN_MEMORY};
use std::marker::Model;
use task_set::take_name;

/// A place in bytes, and the bytes from there on.
#[derive(Drop)]
pub(crate) struct Cursor<'a> {
    place: usize,
    left: &'a [u8],
}

impl<'a> Model for Cursor<'a> {
    ghost use Rattle.std.specs.Prelude.{◌+◌, ◌^◌, ◌<◌, length};
    ghost use Rattle.task_image.specs.Reading.{Here};

    ghost Value = { Here };

    ghost view = { λ a. record { place = a.place; left = a.left.now } };

    ghost invariant = { λ a. a.place + length a.left.now < 2 ^ 64 };
}

impl<'a> Cursor<'a> {
    /// The start of these bytes.
    pub(crate) fn new(bytes: &'a [u8]) -> Cursor<'a>
        ensures { result ≡ record { place = 0; left = bytes.now } }
    {
        Cursor {
            place: 0,
            left: bytes,
        }
    }

    // The bytes of the next field, which are not passed yet.
    fn ahead(&self, n: usize) -> Result<&'a [u8], Stop>
        ensures ok { IfOk result (λ bytes. (n ≤ length self.now.left)
            × (bytes.now ≡ take n self.now.left)) }
        ensures err { IfErr result (λ e. (length self.now.left < n) × (e ≡ At self.now.place)) }
    {
        if self.left.len() < n {
            return Err(Stop::At(self.place));
        }
        Ok(&self.left[..n])
    }

    fn pass(&mut self, n: usize)
        requires { n ≤ length self.old.left }
        ensures { self.new ≡ past n self.old }
    {
        self.left = &self.left[n..];
        self.place += n;
    }

    /// A number of one byte from low to high.
    #[tactic(auto, unfolding(crate::specs::Reading::field))]
    pub(crate) fn byte(&mut self, low: u8, high: u8) -> Result<u8, Stop>
        ensures { Gives (λ n. (n, self.new)) result (number 1 (is_in_range low high) self.old) }
    {
        let bytes = self.ahead(1)?;
        let number = bytes[0];
        if number < low || high < number {
            return Err(Stop::At(self.place));
        }
        self.pass(1);
        Ok(number)
    }

    /// A number of two bytes from low to high.
    #[tactic(auto, unfolding(crate::specs::Reading::field))]
    pub(crate) fn half(&mut self, low: u16, high: u16) -> Result<u16, Stop>
        ensures { Gives (λ n. (n, self.new)) result (number 2 (is_in_range low high) self.old) }
    {
        let number = LittleEndian::read_u16(self.ahead(2)?);
        if number < low || high < number {
            return Err(Stop::At(self.place));
        }
        self.pass(2);
        Ok(number)
    }

    /// A number of two bytes that is a format: 1 or 2.
    #[tactic(auto, unfolding(crate::specs::Reading::field))]
    pub(crate) fn format(&mut self) -> Result<u8, Stop>
        ensures { Gives (λ n. (n, self.new)) result (number 2 (is_in_range 1 MAX_FORMAT) self.old) }
    {
        let bytes = self.ahead(2)?;
        let number = LittleEndian::read_u16(bytes);
        if number < 1 || u16::from(MAX_FORMAT) < number {
            return Err(Stop::At(self.place));
        }
        self.pass(2);
        Ok(number as u8)
    }

    /// A number of four bytes from low to high.
    #[tactic(auto, unfolding(crate::specs::Reading::field))]
    pub(crate) fn word(&mut self, low: u32, high: u32) -> Result<u32, Stop>
        ensures { Gives (λ n. (n, self.new)) result (number 4 (is_in_range low high) self.old) }
    {
        let number = LittleEndian::read_u32(self.ahead(4)?);
        if number < low || high < number {
            return Err(Stop::At(self.place));
        }
        self.pass(4);
        Ok(number)
    }

    /// Any number of four bytes.
    #[tactic(auto, unfolding(crate::specs::Reading::field))]
    pub(crate) fn any_word(&mut self) -> Result<u32, Stop>
        ensures { Gives (λ n. (n, self.new)) result (number 4 (λ _. true) self.old) }
    {
        let number = LittleEndian::read_u32(self.ahead(4)?);
        self.pass(4);
        Ok(number)
    }

    /// A number of four bytes that private memory may have: 1,024 to 65,536, a multiple of 4.
    #[tactic(auto, unfolding(crate::specs::Reading::field))]
    pub(crate) fn memory(&mut self) -> Result<u32, Stop>
        ensures { Gives (λ n. (n, self.new)) result (number 4 is_memory self.old) }
    {
        let number = LittleEndian::read_u32(self.ahead(4)?);
        if number < MIN_MEMORY || MAX_MEMORY < number || number % 4 != 0 {
            return Err(Stop::At(self.place));
        }
        self.pass(4);
        Ok(number)
    }

    /// A number of one byte below an end.
    #[tactic(auto, unfolding(crate::specs::Reading::field))]
    pub(crate) fn below(&mut self, end: u8) -> Result<u8, Stop>
        ensures { Gives (λ n. (n, self.new)) result (number 1 (λ n. nat_lt n end) self.old) }
    {
        let number = self.ahead(1)?[0];
        if end <= number {
            return Err(Stop::At(self.place));
        }
        self.pass(1);
        Ok(number)
    }

    /// Exactly these bytes.
    #[tactic(auto, unfolding(crate::specs::Reading::field))]
    pub(crate) fn literal(&mut self, text: &[u8]) -> Result<(), Stop>
        ensures { Gives (λ n. (n, self.new)) result (literal text.now self.old) }
    {
        if self.ahead(text.len())? != text {
            return Err(Stop::At(self.place));
        }
        self.pass(text.len());
        Ok(())
    }

    /// A name of so many bytes that is none of those taken, which then has it too.
    #[tactic(auto, unfolding(crate::specs::Reading::field))]
    pub(crate) fn new_name(
        &mut self,
        taken: &mut IndexSet<&'a [u8]>,
        n: u8,
    ) -> Result<&'a [u8], Stop>
        ensures reading { Gives (λ name. (name.now, self.new)) result
            (new_name (map (λ k. k.now) taken.old.keys) n self.old) }
        ensures taken { IfOk result (λ name. map (λ k. k.now) taken.new.keys
            ≡ map (λ k. k.now) taken.old.keys ++ name.now ∷ []) }
    {
        let n = usize::from(n);
        let name = self.ahead(n)?;
        if !take_name(taken, name)? {
            return Err(Stop::At(self.place));
        }
        self.pass(n);
        Ok(name)
    }

    /// No byte is left.
    #[tactic(auto, unfolding(crate::specs::Reading::end))]
    pub(crate) fn end(&mut self) -> Result<(), Stop>
        ensures { Gives (λ n. (n, self.new)) result (end self.old) }
    {
        if !self.left.is_empty() {
            return Err(Stop::At(self.place));
        }
        Ok(())
    }
}
