//! How many brackets and indents are open.

ghost use Rattle.std.specs.Prelude.{◌≡◌, ◌≤◌, ◌+◌};
ghost use Rattle.bq_parse_grammar.specs.Nesting as nesting;

use bq_parse_grammar::Tokens;
use bq_source::TokenKind;

/// How many brackets and indents may be in one another.
pub const MAX_NESTING: usize = 64;

/// Returns whether brackets and indents nowhere nest deeper than the limit.
#[tactic(auto, using(crate::proofs::Open::nests_ahead, crate::proofs::Open::nests_over, crate::proofs::Open::too_many, crate::proofs::Ahead::one_less))]
pub fn nests(tokens: &Tokens<'_>) -> bool
    ensures { result ≡ nesting.nests 0 tokens.now }
{
    let mut rest = tokens.here();
    let mut opened = 0;
    'tokens: while let Some(kind) = rest.peek() {
        if opened > MAX_NESTING {
            return false;
        }
        opened = match kind {
            TokenKind::LeftParen => opened + 1,
            TokenKind::LeftBracket => opened + 1,
            TokenKind::LeftBrace => opened + 1,
            TokenKind::Indent => opened + 1,
            TokenKind::RightParen => opened.saturating_sub(1),
            TokenKind::RightBracket => opened.saturating_sub(1),
            TokenKind::RightBrace => opened.saturating_sub(1),
            TokenKind::Outdent => opened.saturating_sub(1),
            _ => opened,
        };
        rest.advance();
    }
    opened <= MAX_NESTING
}
