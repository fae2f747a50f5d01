//! Laws of the assembler: the first refusal, how many words, what `li` leaves, and which numbers fit.

ghost use Rattle.std.specs.Prelude.{◌≡◌, ◌≢◌, ◌≤◌, ◌<◌, ◌*◌, ◌^◌, ℕ, ℤ, List, Ok, Err, IsTrue, length};
ghost use Rattle.rv_isa.specs.declared.instruction.Instr.{Instr};
ghost use Rattle.rv_isa.specs.declared.instruction.Reg.{Reg};
ghost use Rattle.rv_isa.specs.Fields.{unsigned, IsSigned};
ghost use Rattle.rv_isa.specs.Ranges.{IsInstr};
ghost use Rattle.rv_asm.specs.Causes.{AsmError};
ghost use Rattle.rv_asm.specs.Assembly.{assembled};
ghost use Rattle.rv_asm.specs.Fields.{fits, with_value};
ghost use Rattle.rv_asm.specs.Laws.{FirstFault, values_after};
ghost use Rattle.rv_asm.specs.Loads.{loads};
ghost use Rattle.rv_asm.specs.Numbers.{is_word};

use nv_base::limits::MAX_CODE;

/// A refusal is at the first line that is faulty: all lines before it are taken, and it is not, for this cause.
pub fn refusal_is_first()
    ensures { (lines : List (List ℕ)) → (e : AsmError) → assembled lines ≡ Err e
        → FirstFault lines e }
{}

/// Lines that are taken have at most 1,024 words.
pub fn words_are_few()
    ensures { (lines : List (List ℕ)) → (words : List ℕ) → assembled lines ≡ Ok words
        → length words ≤ MAX_CODE }
{}

/// A number of 32 bits is in the range of an instruction's form exactly where the instruction with this value is an
/// instruction.
pub fn range_is_what_fits()
    ensures fits { (i : Instr) → (z : ℤ) → IsInstr i → IsTrue (fits i z)
        → IsInstr (with_value z i) }
    ensures only { (i : Instr) → (z : ℤ) → IsTrue (is_word z) → IsInstr (with_value z i)
        → IsTrue (fits i z) }
{}

/// `li` leaves its value in its register, whatever this held.
pub fn load_leaves_value()
    ensures { (rd : Reg) → (v x : ℕ) → rd.0 ≢ 0 → v < 2 ^ 32 → values_after (loads rd v) x ≡ v }
{}

/// `li` is one instruction where `addi` or `lui` alone is enough.
pub fn load_is_short()
    ensures small { (rd : Reg) → (v : ℕ) → (z : ℤ) → IsSigned 12 z → unsigned 32 z ≡ v
        → length (loads rd v) ≡ 1 }
    ensures upper { (rd : Reg) → (v h : ℕ) → h < 2 ^ 20 → h * 4096 ≡ v → length (loads rd v) ≡ 1 }
{}
