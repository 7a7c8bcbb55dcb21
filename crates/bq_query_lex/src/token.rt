//! The tokens of queries.

/// What a token is.
#[derive(Clone, Copy, PartialEq, Eq)]
pub enum QueryTokenKind {
    /// A word without quotes that is no keyword and no variable.
    Word,
    /// A word in quotes, with its quotes.
    Quoted,
    /// A word `$name`.
    Variable,
    /// `(`
    Open,
    /// `)`
    Close,
    /// `,`
    Comma,
    /// `=`
    Equals,
    /// `+` or `union`
    Union,
    /// `^` or `intersect`
    Intersect,
    /// `-` or `except`
    Except,
    In,
    Let,
    Set,
}

/// A token with its place: the bytes from `start` to `end`.
#[derive(Clone, Copy)]
pub struct QueryToken {
    pub kind: QueryTokenKind,
    pub start: usize,
    pub end: usize,
}
