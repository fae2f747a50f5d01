//! Why a text was not assembled.

ghost use Rattle.std.specs.Prelude.{◌≡◌};

use nv_base::{LineError, Refusal};

/// What is wrong with a line. On one line the first of these counts: Twice, Mnemonic, Operand, Label, Range, TooLong.
#[derive(Clone, Copy, Debug, PartialEq, Eq)]
pub enum AsmCause {
    /// The word is no mnemonic, or a label is malformed.
    Mnemonic,
    /// There are too few or too many operands, or one of them is malformed.
    Operand,
    /// A number is out of the range of its form, or an offset is odd.
    Range,
    /// The label of a target stands nowhere.
    Label,
    /// The label stood on an earlier line.
    Twice,
    /// The words of this line pass 1,024.
    TooLong,
}

impl AsmCause {
    ghost use Rattle.rv_asm.specs.Causes.{cause_number};

    /// The number of the cause, from 1 to 6.
    pub fn number(self) -> u32
        ensures { result ≡ cause_number self }
    {
        match self {
            AsmCause::Mnemonic => 1,
            AsmCause::Operand => 2,
            AsmCause::Range => 3,
            AsmCause::Label => 4,
            AsmCause::Twice => 5,
            AsmCause::TooLong => 6,
        }
    }
}

/// The first faulty line, counted from 1, and the first cause on it.
pub type AsmError = LineError<AsmCause>;

/// Why a text was not assembled: `At` with the faulty line, or `NoMemory`.
pub type AsmRefusal = Refusal<AsmError>;

/// Why a line was not taken.
pub(crate) type LineRefusal = Refusal<AsmCause>;

impl From<AsmCause> for Refusal<AsmCause> {
    ghost use Rattle.nv_base.specs.declared.refusals.Refusal.TheVariants.{At};

    ghost from_gives = { λ cause e. e ≡ At cause };

    fn from(cause: AsmCause) -> Refusal<AsmCause> {
        Refusal::At(cause)
    }
}
