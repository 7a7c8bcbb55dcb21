//! Where each top-level statement of a file begins.

ghost use Rattle.std.specs.Prelude.{◌≡◌, ◌<◌, ◌≤◌, ◌+◌, ◌^◌, ◌&&◌, length};
ghost use Rattle.bq_parse.specs.Pieces as spec;
ghost use Rattle.bq_parse_grammar.specs.Pieces as pieces;

use bq_parse_grammar::Tokens;
use bq_source::TokenKind;

/// Returns whether a statement begins with this token, given whether a line may begin here and how many indents are open.
#[tactic(auto, using(crate::proofs::Cutting::none_open, crate::proofs::Cutting::some_open))]
fn begins(line: bool, indents: usize, kind: TokenKind) -> bool
    ensures { result ≡ line && (pieces.is_zero indents && pieces.begins_statement kind) }
{
    if !line || indents > 0 {
        return false;
    }
    match kind {
        TokenKind::Indent => false,
        TokenKind::Elif => false,
        TokenKind::Else => false,
        _ => true,
    }
}

/// Returns whether a line may begin after a token, and how many indents are open after it.
fn line_after(kind: TokenKind, indents: usize) -> (bool, usize)
    requires { indents + 1 < 2 ^ 64 }
    ensures line { result.0 ≡ pieces.ends_line kind }
    ensures indents { result.1 ≡ pieces.indents_after kind indents }
    ensures within { result.1 ≤ indents + 1 }
{
    match kind {
        TokenKind::Newline => (true, indents),
        TokenKind::Indent => (false, indents + 1),
        TokenKind::Outdent => (true, indents.saturating_sub(1)),
        _ => (false, indents),
    }
}

/// Returns how many tokens the first top-level statement has.
#[tactic(auto, using(crate::proofs::Cutting::rest_len_ahead, crate::proofs::Cutting::rest_len_over, crate::proofs::Ahead::one_less, crate::proofs::Ahead::none_left))]
pub fn piece_len(tokens: &Tokens<'_>) -> usize
    ensures len { result ≡ spec.piece_len tokens.now }
    ensures within { result ≤ length tokens.now }
{
    let all = tokens.left();
    let mut rest = tokens.here();
    let mut line = false;
    let mut indents = 0;
    // No more indents are open than tokens were passed.
    'tokens: while let Some(kind) = rest.peek() {
        if begins(line, indents, kind) {
            return all - rest.left();
        }
        (line, indents) = line_after(kind, indents);
        rest.advance();
    }
    all
}
