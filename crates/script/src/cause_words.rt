//! The words that name a cause.

ghost use Rattle.std.specs.Prelude.{◌≡◌};
ghost use Rattle.script.specs.CauseWords.{cause_word};

use crate::refusals::ScriptCause;
use rv_asm::AsmCause;

impl ScriptCause {
    /// The words that name the cause in the line of an answer.
    pub fn words(self) -> &'static str
        ensures { result.now ≡ cause_word self }
    {
        match self {
            ScriptCause::Long => "long",
            ScriptCause::Byte => "byte",
            ScriptCause::Word => "word",
            ScriptCause::Count => "count",
            ScriptCause::Name => "name",
            ScriptCause::Twice => "twice",
            ScriptCause::Unknown => "unknown",
            ScriptCause::Number => "number",
            ScriptCause::Range => "range",
            ScriptCause::Code(AsmCause::Mnemonic) => "code mnemonic",
            ScriptCause::Code(AsmCause::Operand) => "code operand",
            ScriptCause::Code(AsmCause::Range) => "code range",
            ScriptCause::Code(AsmCause::Label) => "code label",
            ScriptCause::Code(AsmCause::Twice) => "code twice",
            ScriptCause::Code(AsmCause::TooLong) => "code toolong",
            ScriptCause::Many => "many",
            ScriptCause::End => "end",
        }
    }
}
