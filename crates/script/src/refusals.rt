//! Why a script is refused.

ghost use Rattle.std.specs.Prelude.{◌≡◌};
ghost use Rattle.script.specs.Words.{cause_of as cause_of_fault};

use nv_base::{LineError, Refusal};
use plain_text::NumberFault;
use rv_asm::AsmCause;

/// What is wrong with a line. This project's own, in the order of their numbers, from 1.
#[derive(Clone, Copy, PartialEq, Eq, Debug)]
pub enum ScriptCause {
    /// The input has more than 1,048,576 bytes: told of line 0.
    Long,
    /// The line has a byte that is not allowed.
    Byte,
    /// The first word may not stand here.
    Word,
    /// There are too few words, or too many.
    Count,
    /// A name is malformed.
    Name,
    /// A name was given to an object before, or to a program.
    Twice,
    /// No program has the name.
    Unknown,
    /// A number is malformed.
    Number,
    /// A number is out of its limit.
    Range,
    /// The assembler refuses the line.
    Code(AsmCause),
    /// There is one more of something than there may be.
    Many,
    /// The input ends too early: told of the line behind the last one.
    End,
}

impl ScriptCause {
    ghost use Rattle.script.specs.Causes.{cause_number};

    /// The number of the cause, from 1 to 12.
    pub fn number(self) -> u32
        ensures { result ≡ cause_number self }
    {
        match self {
            ScriptCause::Long => 1,
            ScriptCause::Byte => 2,
            ScriptCause::Word => 3,
            ScriptCause::Count => 4,
            ScriptCause::Name => 5,
            ScriptCause::Twice => 6,
            ScriptCause::Unknown => 7,
            ScriptCause::Number => 8,
            ScriptCause::Range => 9,
            ScriptCause::Code(_) => 10,
            ScriptCause::Many => 11,
            ScriptCause::End => 12,
        }
    }
}

/// The first line that is refused, from 1, and its first cause.
pub type ScriptError = LineError<ScriptCause>;

/// Why a script was not read: `At` with the line that is refused, before which none is, or `NoMemory`.
pub type ScriptRefusal = Refusal<ScriptError>;

/// Why a line was not taken.
pub(crate) type LineRefusal = Refusal<ScriptCause>;

/// The cause of a number that is refused.
pub(crate) fn cause_of(fault: NumberFault) -> ScriptCause
    ensures { result ≡ cause_of_fault fault }
{
    match fault {
        NumberFault::Number => ScriptCause::Number,
        NumberFault::Range => ScriptCause::Range,
    }
}
