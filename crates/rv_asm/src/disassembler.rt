// Words as lines of text.

ghost use Rattle.std.specs.Prelude.{◌≡◌, ◌<◌, ◌≤◌, ◌^◌, ℕ, List, Ok, length, string_bytes, IfOk};
ghost use Rattle.std.specs.List.{AllByRecursion};
ghost use Rattle.std.specs.Str.Lines.{lines};
ghost use Rattle.rv_asm.specs.Assembly.{assembled};
ghost use Rattle.rv_asm.specs.Disassembly.{disassembled};

use nv_base::NoMemory;
use nv_base::limits::MAX_CODE;
use rv_isa::push_text;
use std::alloc::Global;

/// The text of each word by `rv_isa::text`, on a line of its own that ends in a line feed. `NoMemory` where
/// no room for the text was found. For at most 1,024 words `assemble` gives these words back.
pub fn disassemble(alloc: Global, words: &[u32]) -> Result<String, NoMemory>
    ensures { IfOk result (λ text. string_bytes text ≡ disassembled words.now) }
{
    let mut text = String::new(alloc);
    for word in words {
        push_text(&mut text, *word)?;
        text.push_str("\n")?;
    }
    Ok(text)
}

/// The lines of at most 1,024 words, as `disassemble` writes them, are assembled to these words: by the
/// contracts of the two, `assemble` of what `disassemble` gave answers the words, or that memory ran out.
pub fn disassembled_is_assembled_back()
    ensures { (words : List ℕ) → AllByRecursion (λ word. word < 2 ^ 32) words
        → length words ≤ MAX_CODE → assembled (lines (disassembled words)) ≡ Ok words }
{
    rv_isa::laws::reading_is_written_back();
}
