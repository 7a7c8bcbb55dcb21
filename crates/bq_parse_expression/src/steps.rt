//! Steps that several productions end with or begin with, over any value, so that each is proved once.

ghost use Rattle.std.specs.Prelude.{◌≡◌, [], ◌∷◌, IfOk, Ok};
ghost use Rattle.bq_parse_grammar.specs.Turns.{Reads, ◌>>=◌ as and_then};
ghost use Rattle.bq_parse_grammar.specs.Turns as turns;

use bq_parse_grammar::{Items, SyntaxErr, Tokens};
use bq_source::TokenKind;
use std::alloc::{AllocError, Global};

/// Returns the list of one item, with no room for more.
pub fn only<T: Drop>(alloc: Global, item: T) -> Result<Items<T>, AllocError>
    ensures { IfOk result (λ items. items ≡ item ∷ []) }
{
    begun(alloc, item, 0)
}

/// Returns the list of one item, with room for so many more.
pub fn begun<T: Drop>(alloc: Global, item: T, more: usize) -> Result<Items<T>, AllocError>
    ensures { IfOk result (λ items. items ≡ item ∷ []) }
{
    let mut found = Items::with_capacity(alloc, more.saturating_add(1))?;
    found.push(item)?;
    Ok(found)
}

/// Reads the value, where the token that closes it comes next.
pub fn closed<T: Drop>(tokens: &mut Tokens<'_>, close: TokenKind, value: T) -> Result<T, SyntaxErr>
    ensures { Reads (and_then (turns.expect close tokens.old) (λ _ rest. Ok (value, rest))) result tokens.new }
{
    tokens.expect(close)?;
    Ok(value)
}
