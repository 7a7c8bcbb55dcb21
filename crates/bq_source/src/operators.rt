//! Operators and punctuation.

ghost use Rattle.std.specs.Prelude.{◌≡◌, ◌∷◌, option_map};
ghost use Rattle.bq_source.specs.Operators as spec;

use crate::token::TokenKind;

/// What a token is, and what it does to the brackets.
#[derive(Clone, Copy)]
pub enum Lexeme {
    Plain(TokenKind),
    /// An opening bracket, and the kind that closes it.
    Opens(TokenKind, TokenKind),
    Closes(TokenKind),
}

/// The first byte of each spelling, and what follows it. One that another begins with comes after it. Brackets, commas, colons and `=`,
/// which are frequent, are not among them: `operator` knows those.
const OPERATORS: [(u8, &[u8], Lexeme); 31] = [
    (b'.', b"", Lexeme::Plain(TokenKind::Dot)),
    (b'+', b"=", Lexeme::Plain(TokenKind::PlusAssign)),
    (b'+', b"", Lexeme::Plain(TokenKind::Plus)),
    (b'%', b"=", Lexeme::Plain(TokenKind::PercentAssign)),
    (b'%', b"", Lexeme::Plain(TokenKind::Percent)),
    (b'-', b"=", Lexeme::Plain(TokenKind::MinusAssign)),
    (b'-', b"", Lexeme::Plain(TokenKind::Minus)),
    (b'*', b"*", Lexeme::Plain(TokenKind::StarStar)),
    (b'*', b"=", Lexeme::Plain(TokenKind::StarAssign)),
    (b'*', b"", Lexeme::Plain(TokenKind::Star)),
    (b'/', b"/=", Lexeme::Plain(TokenKind::SlashSlashAssign)),
    (b'/', b"/", Lexeme::Plain(TokenKind::SlashSlash)),
    (b'/', b"=", Lexeme::Plain(TokenKind::SlashAssign)),
    (b'/', b"", Lexeme::Plain(TokenKind::Slash)),
    (b'<', b"<=", Lexeme::Plain(TokenKind::LessLessAssign)),
    (b'<', b"<", Lexeme::Plain(TokenKind::LessLess)),
    (b'<', b"=", Lexeme::Plain(TokenKind::LessEqual)),
    (b'<', b"", Lexeme::Plain(TokenKind::Less)),
    (b'>', b">=", Lexeme::Plain(TokenKind::GreaterGreaterAssign)),
    (b'>', b">", Lexeme::Plain(TokenKind::GreaterGreater)),
    (b'>', b"=", Lexeme::Plain(TokenKind::GreaterEqual)),
    (b'>', b"", Lexeme::Plain(TokenKind::Greater)),
    (b'!', b"=", Lexeme::Plain(TokenKind::NotEqual)),
    (b'|', b"=", Lexeme::Plain(TokenKind::PipeAssign)),
    (b'|', b"", Lexeme::Plain(TokenKind::Pipe)),
    (b'&', b"=", Lexeme::Plain(TokenKind::AmpersandAssign)),
    (b'&', b"", Lexeme::Plain(TokenKind::Ampersand)),
    (b'^', b"=", Lexeme::Plain(TokenKind::CaretAssign)),
    (b'^', b"", Lexeme::Plain(TokenKind::Caret)),
    (b'~', b"", Lexeme::Plain(TokenKind::Tilde)),
    (b';', b"", Lexeme::Plain(TokenKind::Semicolon)),
];

/// Returns the operator at the front, in its longest spelling, with the number of its bytes. Most are brackets, commas and `=`: they need
/// no walk along the others.
#[tactic(auto, unfolding(crate::specs::Operators::operator))]
pub fn operator(first: u8, behind: &[u8]) -> Option<(usize, Lexeme)>
    ensures { result ≡ option_map spec.with_len (spec.operator (first ∷ behind.now)) }
{
    match first {
        b',' => Some((1, Lexeme::Plain(TokenKind::Comma))),
        b'(' => Some((
            1,
            Lexeme::Opens(TokenKind::LeftParen, TokenKind::RightParen),
        )),
        b')' => Some((1, Lexeme::Closes(TokenKind::RightParen))),
        b'[' => Some((
            1,
            Lexeme::Opens(TokenKind::LeftBracket, TokenKind::RightBracket),
        )),
        b']' => Some((1, Lexeme::Closes(TokenKind::RightBracket))),
        b':' => Some((1, Lexeme::Plain(TokenKind::Colon))),
        b'{' => Some((
            1,
            Lexeme::Opens(TokenKind::LeftBrace, TokenKind::RightBrace),
        )),
        b'}' => Some((1, Lexeme::Closes(TokenKind::RightBrace))),
        b'=' => match behind {
            [b'=', ..] => Some((2, Lexeme::Plain(TokenKind::EqualEqual))),
            _ => Some((1, Lexeme::Plain(TokenKind::Assign))),
        },
        _ => {
            let mut table: &[(u8, &[u8], Lexeme)] = &OPERATORS;
            while let [entry, rest @ ..] = table {
                if entry.0 == first && behind.starts_with(entry.1) {
                    return Some((entry.1.len() + 1, entry.2));
                }
                table = rest;
            }
            None
        }
    }
}
