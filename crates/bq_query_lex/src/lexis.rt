//! Which bytes are a token at the front of a text (Bazel query reference, "Tokens").
ghost use Rattle.std.specs.Prelude.{◌≡◌, ◌≤◌, ◌==◌, nat_eq, length, position};
ghost use Rattle.std.specs.List.{list_all, prefix_len};
ghost use Rattle.std.specs.Map.{lookup};
ghost use Rattle.bq_query_lex.specs.Lexis.{is_word_byte, is_name_byte, is_variable_name, punctuation, word_kind, quoted_piece, piece_of};

use crate::token::QueryTokenKind;

/// What is at the front of a text.
#[derive(Clone, Copy)]
pub enum QueryPiece {
    /// The text is empty.
    End,
    /// A byte that separates tokens.
    Blank,
    /// A token, with its number of bytes.
    Found(QueryTokenKind, usize),
    /// No token begins so.
    Unknown,
}

fn is_name_byte(b: u8) -> bool
    ensures { result ≡ is_name_byte b }
{
    b.is_ascii_alphanumeric() || b == b'_'
}

fn are_name_bytes(text: &[u8]) -> bool
    ensures { result ≡ list_all is_name_byte text.now }
{
    text.iter().all(|b| is_name_byte(*b))
}

/// Returns whether the text consists of letters, digits and underscores, at least one.
pub fn is_variable_name(text: &[u8]) -> bool
    ensures { result ≡ is_variable_name text.now }
{
    match text {
        [] => false,
        [first, rest @ ..] => is_name_byte(*first) && are_name_bytes(rest),
    }
}

fn punctuation(b: u8) -> Option<QueryTokenKind>
    ensures { result ≡ lookup (nat_eq b) punctuation }
{
    match b {
        b'(' => Some(QueryTokenKind::Open),
        b')' => Some(QueryTokenKind::Close),
        b',' => Some(QueryTokenKind::Comma),
        b'=' => Some(QueryTokenKind::Equals),
        b'+' => Some(QueryTokenKind::Union),
        b'^' => Some(QueryTokenKind::Intersect),
        b'-' => Some(QueryTokenKind::Except),
        _ => None,
    }
}

const KEYWORDS: [(&[u8], QueryTokenKind); 6] = [
    (b"except", QueryTokenKind::Except),
    (b"in", QueryTokenKind::In),
    (b"intersect", QueryTokenKind::Intersect),
    (b"let", QueryTokenKind::Let),
    (b"set", QueryTokenKind::Set),
    (b"union", QueryTokenKind::Union),
];

/// Returns the kind of a word without quotes; `None` if it begins with `$` and is no variable.
#[tactic(auto, unfolding(crate::specs::Lexis::word_kind))]
fn word_kind(word: &[u8]) -> Option<QueryTokenKind>
    ensures { result ≡ word_kind word.now }
{
    let mut table: &[(&[u8], QueryTokenKind)] = &KEYWORDS;
    while let [entry, rest @ ..] = table {
        if word == entry.0 {
            return Some(entry.1);
        }
        table = rest;
    }
    match word {
        [] => None,
        [b'$', name @ ..] => {
            if is_variable_name(name) {
                Some(QueryTokenKind::Variable)
            } else {
                None
            }
        }
        _ => Some(QueryTokenKind::Word),
    }
}

/// Returns how many bytes at the front are those of a word.
fn word_len(text: &[u8]) -> usize
    ensures len { result ≡ prefix_len is_word_byte text.now }
    ensures within { result ≤ length text.now }
{
    for (n, b) in text.iter().enumerate() {
        let is_of_word = b.is_ascii_alphanumeric() || b"*/@.-_:$~[]".contains(b);
        if !is_of_word {
            return n;
        }
    }
    text.len()
}

fn next_quote(quote: u8, rest: &[u8]) -> Option<usize>
    ensures { result ≡ position (λ b. b == quote) rest.now }
{
    rest.iter().position(|b| *b == quote)
}

/// Returns all bytes up to the next quote of the same kind.
#[tactic(auto, unfolding(crate::specs::Lexis::quoted_piece))]
fn quoted_piece(quote: u8, rest: &[u8]) -> QueryPiece
    ensures { result ≡ quoted_piece quote rest.now }
{
    match next_quote(quote, rest) {
        Some(n) => QueryPiece::Found(QueryTokenKind::Quoted, n + 2),
        None => QueryPiece::Unknown,
    }
}

/// Returns what is at the front of the text.
#[tactic(auto, unfolding(crate::specs::Lexis::piece_of, crate::specs::Lexis::word_piece))]
pub fn piece_of(text: &[u8]) -> QueryPiece
    ensures { result ≡ piece_of text.now }
{
    match text {
        [] => QueryPiece::End,
        [b, rest @ ..] => {
            if *b == b' ' || *b == b'\t' || *b == b'\n' || *b == b'\r' {
                return QueryPiece::Blank;
            }
            if let Some(kind) = punctuation(*b) {
                return QueryPiece::Found(kind, 1);
            }
            if *b == b'"' || *b == b'\'' {
                return quoted_piece(*b, rest);
            }
            // The longest run of the bytes of words.
            let n = word_len(text);
            if n == 0 || *b == b'-' || *b == b'*' {
                return QueryPiece::Unknown;
            }
            match word_kind(&text[..n]) {
                Some(kind) => QueryPiece::Found(kind, n),
                None => QueryPiece::Unknown,
            }
        }
    }
}
