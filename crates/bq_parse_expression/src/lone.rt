//! Which tokens begin an operand, and which end a phrase: most phrases of BUILD files are a name, a literal or a primary alone, and need no
//! look at each level of operators.

ghost use Rattle.std.specs.Prelude.{◌≡◌};
ghost use Rattle.bq_parse_grammar.specs.Tokens.{kind_ahead};
ghost use Rattle.bq_parse_expression.specs.Lone as spec;

use bq_parse_grammar::Tokens;
use bq_source::TokenKind;

/// Returns whether nothing that is done to an operand begins with the next token, so that it ends a phrase that is read up to here.
pub fn begins_with_end(tokens: &Tokens<'_>) -> bool
    ensures { result ≡ spec.is_so spec.ends_phrase (kind_ahead tokens.now) }
{
    match tokens.peek() {
        Some(TokenKind::Comma) => true,
        Some(TokenKind::RightParen) => true,
        Some(TokenKind::RightBracket) => true,
        Some(TokenKind::RightBrace) => true,
        Some(TokenKind::Colon) => true,
        Some(TokenKind::Newline) => true,
        _ => false,
    }
}

/// Returns whether an operand comes next: no sign, `not` or `lambda` stands before it.
pub fn begins_with_operand(tokens: &Tokens<'_>) -> bool
    ensures { result ≡ spec.begins_with_operand tokens.now }
{
    match tokens.peek() {
        Some(TokenKind::Identifier) => true,
        Some(TokenKind::String) => true,
        Some(TokenKind::Int) => true,
        Some(TokenKind::LeftParen) => true,
        Some(TokenKind::LeftBracket) => true,
        Some(TokenKind::LeftBrace) => true,
        _ => false,
    }
}
