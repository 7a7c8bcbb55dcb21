//! What words stand for.

ghost use Rattle.std.specs.Prelude.{◌≡◌};
ghost use Rattle.std.specs.List.{list_all};
ghost use Rattle.bq_source.specs.Lexis as lexis;
ghost use Rattle.bq_parse_grammar.specs.Literals as spec;

use bq_source::{TokenKind, is_letter, is_word, word_kind};

fn are_word_bytes(bytes: &[u8]) -> bool
    ensures { result ≡ list_all lexis.is_word bytes.now }
{
    bytes.iter().all(|byte| is_word(*byte))
}

/// Returns whether the bytes are a word that may name something: no keyword, and none that is reserved.
#[tactic(auto, unfolding(crate::specs::Literals::is_identifier))]
pub fn is_identifier(bytes: &[u8]) -> bool
    ensures { result ≡ spec.is_identifier bytes.now }
{
    let [first, further @ ..] = bytes else {
        return false;
    };
    is_letter(*first) && are_word_bytes(further) && word_kind(bytes).is(TokenKind::Identifier)
}
