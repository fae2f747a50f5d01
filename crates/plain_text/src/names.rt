//! Names of objects, programs and labels.

ghost use Rattle.std.specs.Prelude.{◌≡◌, MatchBool};
ghost use Rattle.std.specs.List.{list_all};
ghost use Rattle.plain_text.specs.Names.{IsName, is_name as name_test, is_name_byte};

use nv_base::limits::MAX_NAME;

fn has_name_bytes(word: &[u8]) -> bool
    ensures { result ≡ list_all is_name_byte word.now }
{
    word.iter().all(|b| b.is_ascii_alphanumeric() || *b == b'_')
}

/// Whether a word is a name: 1 to 16 letters, digits or `_`, of which the first is no digit.
#[tactic(auto, using(crate::proofs::NameTests::name_by_bytes))]
pub fn is_name(word: &[u8]) -> bool
    ensures test { result ≡ name_test word.now }
    ensures facts { MatchBool result (IsName word.now) (IsName word.now → ⊥) }
{
    if word.is_empty() || usize::from(MAX_NAME) < word.len() {
        return false;
    }
    !word[0].is_ascii_digit() && has_name_bytes(word)
}
