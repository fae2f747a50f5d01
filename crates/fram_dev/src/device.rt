// What a memory of words promises.

ghost use Rattle.std.specs.Prelude.{ℕ, ◌≡◌, ◌+◌, ◌<◌, ◌≤◌, ◌⊎◌, List, [], ◌∷◌, ◌++◌, IfOk, OnOk, OnErr, length, slice_index};
ghost use Rattle.nv_base.specs.Streams.{FaultCounted};
ghost use Rattle.fram_dev.specs.Device.{Change, made_in};

use thiserror::Error;

/// A call was lost.
#[derive(Clone, Copy, PartialEq, Eq, Debug, Error)]
#[error("the device lost a call")]
pub struct Lost;

/// A memory of words that keeps them without power. Its words are always its first words with all writes made.
pub trait Fram {
    /// The words when the object was made.
    ghost start: { Self → List ℕ };

    /// All writes since then, in order.
    ghost log: { Self → List Change };

    /// How many calls were lost. The count stands still at the end of its type.
    ghost lost: { Self → ℕ };

    /// How many words there are.
    fn len(&self) -> u32
        ensures { result ≡ length (start self.now) };

    /// The word at a place. A lost read changes nothing.
    fn read(&mut self, at: u32) -> Result<u32, Lost>
        requires { at < length (start self.old) }
        ensures word { IfOk result (λ word. word
            ≡ slice_index (made_in (log self.old) (start self.old)) at) }
        ensures kept { log self.new ≡ log self.old }
        ensures same { start self.new ≡ start self.old }
        ensures failed { OnErr result (FaultCounted (lost self.old) (lost self.new)) }
        ensures never_falls { lost self.old ≤ lost self.new };

    /// One write more. A lost write is made, or it is not.
    fn write(&mut self, at: u32, word: u32) -> Result<(), Lost>
        requires { at < length (start self.old) }
        ensures written { OnOk result (log self.new ≡ log self.old ++ (at, word) ∷ []) }
        ensures either { OnErr result ((log self.new ≡ log self.old)
            ⊎ (log self.new ≡ log self.old ++ (at, word) ∷ [])) }
        ensures same { start self.new ≡ start self.old }
        ensures failed { OnErr result (FaultCounted (lost self.old) (lost self.new)) }
        ensures never_falls { lost self.old ≤ lost self.new };

    /// How many calls were lost so far.
    fn losses(&self) -> u64
        ensures { result ≡ lost self.now };
}
