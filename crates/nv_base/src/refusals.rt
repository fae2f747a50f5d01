// Why a call gave no answer: a cause of its own, or no memory.

ghost use Rattle.std.specs.Prelude.{◌≡◌};
ghost use Rattle.nv_base.specs.declared.refusals.Refusal.TheVariants.{NoMemory as none};

use crate::memory::NoMemory;
use std::alloc::{AllocError, AllocFailed};

/// Why a call gave no answer.
#[derive(Clone, Copy, PartialEq, Eq, Debug)]
pub enum Refusal<E> {
    /// For this cause.
    At(E),
    /// There was not memory enough.
    NoMemory,
}

/// The first line that is refused, and its first cause.
#[derive(Clone, Copy, PartialEq, Eq, Debug)]
pub struct LineError<C> {
    /// The number of the line, from 1.
    pub line: u32,
    /// What is wrong with it.
    pub cause: C,
}

impl<C: Drop> Refusal<C> {
    ghost use Rattle.nv_base.specs.Refusals.{refusal_at};

    /// The refusal of the line of this number.
    pub fn at(self, line: u32) -> Refusal<LineError<C>>
        ensures { result ≡ refusal_at line self }
    {
        match self {
            Refusal::At(cause) => Refusal::At(LineError { line, cause }),
            Refusal::NoMemory => Refusal::NoMemory,
        }
    }
}

impl<E> From<AllocError> for Refusal<E> {
    ghost from_gives = { λ _ e. e ≡ none };

    fn from(_error: AllocError) -> Refusal<E> {
        Refusal::NoMemory
    }
}

impl<E, T: Drop> From<AllocFailed<T>> for Refusal<E> {
    ghost from_gives = { λ _ e. e ≡ none };

    fn from(_error: AllocFailed<T>) -> Refusal<E> {
        Refusal::NoMemory
    }
}

impl<E> From<NoMemory> for Refusal<E> {
    ghost from_gives = { λ _ e. e ≡ none };

    fn from(_error: NoMemory) -> Refusal<E> {
        Refusal::NoMemory
    }
}
