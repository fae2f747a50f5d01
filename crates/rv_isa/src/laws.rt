// The table and the words of instructions are inverse to each other.

ghost use Rattle.std.specs.Prelude.{◌≡◌, ◌<◌, ◌^◌, ℕ, Some};
ghost use Rattle.rv_isa.specs.declared.instruction.Instr.{Instr};
ghost use Rattle.rv_isa.specs.Ranges.{IsInstr};
ghost use Rattle.rv_isa.specs.Table.{instruction_of};
ghost use Rattle.rv_isa.specs.Words.{instruction_word};

/// The table reads the word of an instruction as this instruction.
pub fn word_is_read_back()
    ensures { (i : Instr) → IsInstr i → instruction_of (instruction_word i) ≡ Some i }
{}

/// What the table reads is within the ranges, and its word is the word that was read.
pub fn reading_is_written_back()
    ensures { (word : ℕ) → (i : Instr) → word < 2 ^ 32 → instruction_of word ≡ Some i
        → (instruction_word i ≡ word) × IsInstr i }
{}
