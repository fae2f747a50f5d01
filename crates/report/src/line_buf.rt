// A buffer with room for the longest line of a report.

ghost use Rattle.std.specs.Prelude.{◌≡◌, ◌≤◌, ◌+◌, ◌++◌, [], length, IfOk};
ghost use Rattle.std.specs.Fmt.{decimal};
ghost use Rattle.nv_base.specs.Texts.{field};

use nv_base::NoMemory;
use std::alloc::Global;
use std::marker::Model;

/// The bytes of the longest line: `object `, a name of 16 bytes, 64 words of a space and ten digits, and a line feed.
pub(crate) const LONGEST_LINE: usize = 728;

/// One line of a report, which contracts see as its bytes. Only `new` takes memory.
#[derive(Debug, Drop)]
pub struct LineBuf {
    bytes: Vec<u8>,
}

impl Model for LineBuf {
    ghost use Rattle.std.specs.Prelude.{ℕ, List, ◌≤◌, vec_capacity};
    ghost use Rattle.report.specs.declared.line_buf.TheConstants.{LONGEST_LINE};

    ghost Value = { List ℕ };

    ghost view = { λ b. b.bytes.items };

    ghost invariant = { λ b. LONGEST_LINE ≤ vec_capacity b.bytes };
}

impl LineBuf {
    /// Takes the room for the longest line, and holds nothing. NoMemory where the allocator gives none.
    pub fn new(alloc: Global) -> Result<LineBuf, NoMemory>
        ensures { IfOk result (λ b. b ≡ []) }
    {
        let bytes = Vec::with_capacity(alloc, LONGEST_LINE)?;
        Ok(LineBuf { bytes })
    }

    /// The line that was put last.
    pub fn bytes(&self) -> &[u8]
        ensures { result.now ≡ self.now }
    {
        self.bytes.as_slice()
    }

    /// Lets the line go.
    pub(crate) fn clear(&mut self)
        ensures { self.new ≡ [] }
    {
        self.bytes.clear();
    }

    /// Bytes as they stand, behind those that are there.
    pub(crate) fn append(&mut self, text: &[u8])
        requires { length self.old + length text.now ≤ LONGEST_LINE }
        ensures text { self.new ≡ self.old ++ text.now }
        ensures len { length self.new ≡ length self.old + length text.now }
    {
        // it cannot fail: the room is there
        let _ = self.bytes.extend_from_slice(text);
    }

    /// A word and the number behind it, in decimal.
    pub(crate) fn append_field(&mut self, word: &[u8], n: u32)
        requires { length self.old + length word.now + 10 ≤ LONGEST_LINE }
        ensures text { self.new ≡ self.old ++ field word.now n }
        ensures len { length self.new ≤ length self.old + length word.now + 10 }
    {
        let mut digits = itoa::Buffer::new();
        self.append(word);
        self.append(digits.format(n).as_bytes());
    }
}
