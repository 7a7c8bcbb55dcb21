//! What the language leaves out, and what a BUILD file may not have, looked for among the tokens of a statement that has a tree.

ghost use Rattle.std.specs.Prelude.{◌≡◌};
ghost use Rattle.bq_parse.specs.LeftOut as spec;
ghost use Rattle.bq_parse_grammar.specs.LeftOut as left_out;

use bq_parse_grammar::Tokens;
use bq_source::TokenKind;

/// Returns whether `identifier (` comes next.
#[tactic(auto, using(crate::proofs::LeftOut::name_called))]
fn calls_name(tokens: &Tokens<'_>) -> bool
    ensures { result ≡ left_out.calls_name (left_out.kinds tokens.now) }
{
    tokens.sees(TokenKind::Identifier) && tokens.following().sees(TokenKind::LeftParen)
}

/// Returns whether what is left out begins with the next token.
#[tactic(auto, using(crate::proofs::LeftOut::by_kind, crate::proofs::LeftOut::none_next, crate::proofs::LeftOut::method_called))]
fn leaves_out_next(tokens: &Tokens<'_>) -> bool
    ensures { result ≡ spec.leaves_out_next tokens.now }
{
    match tokens.peek() {
        Some(TokenKind::Lambda) => true,
        Some(TokenKind::Slash) => true,
        Some(TokenKind::SlashAssign) => true,
        Some(TokenKind::Dot) => !calls_name(&tokens.following()),
        Some(TokenKind::Identifier) => {
            let next = tokens.following();
            let calls_method = next.sees(TokenKind::Dot) && calls_name(&next.following());
            tokens.spelling() == b"native".as_slice() && !calls_method
        }
        _ => false,
    }
}

/// `lambda`, `/` or `/=` is among the tokens, or `.name` without a call, or the name `native` elsewhere than before `.name(`.
#[tactic(auto, using(crate::proofs::LeftOut::leaves_out_on, crate::proofs::LeftOut::leaves_out_over, crate::proofs::LeftOut::next_left))]
pub fn leaves_out(tokens: &Tokens<'_>) -> bool
    ensures { result ≡ left_out.leaves_out tokens.now }
{
    let mut rest = tokens.here();
    'tokens: while rest.left() > 0 {
        if leaves_out_next(&rest) {
            return true;
        }
        rest.advance();
    }
    false
}

/// Returns whether a `*` or `**` argument is among the tokens.
#[tactic(auto, using(crate::proofs::LeftOut::star_begins, crate::proofs::LeftOut::starred_on, crate::proofs::LeftOut::starred_over, crate::proofs::LeftOut::next_left))]
pub fn has_starred(tokens: &Tokens<'_>) -> bool
    ensures { result ≡ left_out.has_starred (left_out.kinds tokens.now) }
{
    let mut rest = tokens.here();
    'tokens: while rest.left() > 0 {
        // An argument begins after `(` or `,`.
        let begins = rest.sees(TokenKind::LeftParen) || rest.sees(TokenKind::Comma);
        rest.advance();
        if begins && (rest.sees(TokenKind::Star) || rest.sees(TokenKind::StarStar)) {
            return true;
        }
    }
    false
}
