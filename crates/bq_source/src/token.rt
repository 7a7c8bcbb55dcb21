//! Tokens.

ghost use Rattle.std.specs.Prelude.{◌≡◌};
ghost use Rattle.bq_source.specs.Token.{same_kind};

/// What a token is. The names follow the Starlark specification, "Lexical elements".
#[derive(Clone, Copy, Debug, PartialEq, Eq)]
pub enum TokenKind {
    /// The end of a logical line.
    Newline,
    /// A line begins that is wider than the one before it. The token is empty, as `Outdent` is.
    Indent,
    /// A width is closed, before a line that is narrower or at the end of the text.
    Outdent,
    Identifier,
    Int,
    /// A string literal, its prefix and quotes among its bytes.
    String,
    // Brackets and punctuation.
    LeftParen,
    RightParen,
    LeftBracket,
    RightBracket,
    LeftBrace,
    RightBrace,
    Comma,
    Colon,
    Semicolon,
    Dot,
    Assign,
    // Operators.
    Plus,
    Minus,
    Star,
    StarStar,
    Slash,
    SlashSlash,
    Percent,
    Ampersand,
    Pipe,
    Caret,
    Tilde,
    LessLess,
    GreaterGreater,
    Less,
    Greater,
    LessEqual,
    GreaterEqual,
    EqualEqual,
    NotEqual,
    // Augmented assignments.
    PlusAssign,
    MinusAssign,
    StarAssign,
    SlashAssign,
    SlashSlashAssign,
    PercentAssign,
    AmpersandAssign,
    PipeAssign,
    CaretAssign,
    LessLessAssign,
    GreaterGreaterAssign,
    // Keywords.
    And,
    Break,
    Continue,
    Def,
    Elif,
    Else,
    For,
    If,
    In,
    Lambda,
    Load,
    Not,
    Or,
    Pass,
    Return,
    /// A word that the grammar keeps for later, as `while`.
    Reserved,
}

impl TokenKind {
    /// What `==` answers, with a word for contracts.
    pub fn is(self, other: TokenKind) -> bool
        ensures { result ≡ same_kind self other }
    {
        self == other
    }
}

/// A piece of a text, which it names by place and never copies.
#[derive(Clone, Copy, Debug, PartialEq, Eq)]
pub struct Token {
    pub kind: TokenKind,
    /// How many bytes of the text stand before it.
    pub start: u32,
    /// How many bytes of the text stand before what follows it.
    pub end: u32,
    /// The line that it begins in, from 1.
    pub line: u32,
}
