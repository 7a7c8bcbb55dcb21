//! The tokens of texts, and where they lie: which no program shows. What begins no token is in the rows in `tests/rows`.

use crate::rows::{Row, Subject, check_rows};
use bq_source::Token;
use bq_source_lexer::lex;
use std::alloc::{AllocError, Global};
use std::fmt::Write;

/// What is written of the tokens of a text.
#[derive(Clone, Copy)]
enum Shown {
    /// Their kinds, each with a comma after it.
    Kinds,
    /// `KIND START..END LINE;` for each.
    Places,
}

fn add_token(text: &mut String, shown: Shown, t: &Token) -> Result<(), AllocError> {
    match shown {
        Shown::Kinds => write!(text, "{:?},", t.kind)?,
        Shown::Places => write!(text, "{:?} {}..{} {};", t.kind, t.start, t.end, t.line)?,
    }
    Ok(())
}

fn add_tokens(text: &mut String, shown: Shown, tokens: &[Token]) -> Result<(), AllocError> {
    for token in tokens {
        add_token(text, shown, token)?;
    }
    Ok(())
}

fn written(alloc: Global, shown: Shown, tokens: &[Token]) -> Result<Vec<u8>, AllocError> {
    let mut text = String::new(alloc);
    add_tokens(&mut text, shown, tokens)?;
    Ok(text.into_bytes())
}

impl Subject for Shown {
    fn answer(&self, alloc: Global, text: &[u8], _row: Row) -> Result<Vec<u8>, AllocError> {
        match lex(alloc, text) {
            Ok(tokens) => written(alloc, *self, &tokens),
            Err(_) => b"no tokens".to_vec(alloc),
        }
    }
}

#[test]
fn kinds_of_tokens(rt: HostRuntime) -> Result<(), AllocError> {
    check_rows(&rt, rt.alloc(), TOKENS, &Shown::Kinds)
}

/// Places and lines, of the tokens that are empty too.
#[test]
fn places_of_tokens(rt: HostRuntime) -> Result<(), AllocError> {
    check_rows(&rt, rt.alloc(), PLACES, &Shown::Places)
}

const TOKENS: &str = r#"
+ - * / % ~ & \x7c ^ . , = ; : ( ) [ ] { } < > | Plus,Minus,Star,Slash,Percent,Tilde,Ampersand,Pipe,Caret,Dot,Comma,Assign,Semicolon,Colon,LeftParen,RightParen,LeftBracket,RightBracket,LeftBrace,RightBrace,Less,Greater,Newline,
//= <<= >>= ** // << >> <= >= == != | SlashSlashAssign,LessLessAssign,GreaterGreaterAssign,StarStar,SlashSlash,LessLess,GreaterGreater,LessEqual,GreaterEqual,EqualEqual,NotEqual,Newline,
+= -= *= /= %= &= \x7c= ^= | PlusAssign,MinusAssign,StarAssign,SlashAssign,PercentAssign,AmpersandAssign,PipeAssign,CaretAssign,Newline,
***= | StarStar,StarAssign,Newline,
*** **= | StarStar,Star,StarStar,Assign,Newline,
/// //= ///= | SlashSlash,Slash,SlashSlashAssign,SlashSlash,SlashAssign,Newline,
<<< <<= <<<<= | LessLess,Less,LessLessAssign,LessLess,LessLessAssign,Newline,
>>> >>= >>>>= | GreaterGreater,Greater,GreaterGreaterAssign,GreaterGreater,GreaterGreaterAssign,Newline,
++= --= %%= &&= \x7c\x7c= ^^= | Plus,PlusAssign,Minus,MinusAssign,Percent,PercentAssign,Ampersand,AmpersandAssign,Pipe,PipeAssign,Caret,CaretAssign,Newline,
////= | SlashSlash,SlashSlashAssign,Newline,
<<<= >>>= | LessLess,LessEqual,GreaterGreater,GreaterEqual,Newline,
===!==<>->~= | EqualEqual,Assign,NotEqual,Assign,Less,Greater,Minus,Greater,Tilde,Assign,Newline,
a..b | Identifier,Dot,Dot,Identifier,Newline,
and break continue def elif else for if | And,Break,Continue,Def,Elif,Else,For,If,Newline,
in lambda load not or pass return | In,Lambda,Load,Not,Or,Pass,Return,Newline,
as assert class del except finally from global | Reserved,Reserved,Reserved,Reserved,Reserved,Reserved,Reserved,Reserved,Newline,
import is nonlocal raise try while with yield | Reserved,Reserved,Reserved,Reserved,Reserved,Reserved,Reserved,Reserved,Newline,
In iff True None _a9 async print r | Identifier,Identifier,Identifier,Identifier,Identifier,Identifier,Identifier,Identifier,Newline,
0 1 10 9223372036854775807 | Int,Int,Int,Int,Newline,
0x1F 0XaB 0o17 0O7 0x7fffffffffffffff | Int,Int,Int,Int,Int,Newline,
-1+a1 | Minus,Int,Plus,Identifier,Newline,
'' "" '''''' """""" | String,String,String,String,Newline,
'''a''b''' """a""b""" | String,String,Newline,
r'' r"" r'''a''' r'\\q' r'\\'' | String,String,String,String,String,Newline,
'\\n\\r\\t\\\\\\'\\"' | String,Newline,
'a\\\nb' '''c\nd''' | String,String,Newline,
'\\\r\n' '''\r\n''' | String,String,Newline,
'a\rb' '\x00' '\xc3\xa9' '#' '$' | String,String,String,String,String,Newline,
'a''b' a'b' R'c' | String,String,Identifier,String,Identifier,String,Newline,
|
\n \n\t\n# c\n  # d\n\t# e\n |
a # b\nc#\n | Identifier,Newline,Identifier,Newline,
a # \xc3\xa9\x00\r\nb | Identifier,Newline,Identifier,Newline,
a\r\nb\r\n | Identifier,Newline,Identifier,Newline,
\x23 a\r\r\nb | Identifier,Newline,
a \\\n b\\\r\nc | Identifier,Identifier,Identifier,Newline,
a \\\n | Identifier,Newline,
\\\n\n  \\\n\nb | Identifier,Newline,
\\\n  a\nb | Identifier,Newline,Identifier,Newline,
a\n\\\n\tb | Identifier,Newline,Identifier,Newline,
a\tb \\\n\tc | Identifier,Identifier,Identifier,Newline,
f(\n\n  [\n\t],{})\nb | Identifier,LeftParen,LeftBracket,RightBracket,Comma,LeftBrace,RightBrace,RightParen,Newline,Identifier,Newline,
if a:\n  (\nb\n)\n | If,Identifier,Colon,Newline,Indent,LeftParen,Identifier,RightParen,Newline,Outdent,
if a:\n  b\n | If,Identifier,Colon,Newline,Indent,Identifier,Newline,Outdent,
if a:\n  b | If,Identifier,Colon,Newline,Indent,Identifier,Newline,Outdent,
a\n  b\n    c\nd | Identifier,Newline,Indent,Identifier,Newline,Indent,Identifier,Newline,Outdent,Outdent,Identifier,Newline,
a\n  b\n    c\n  d\ne | Identifier,Newline,Indent,Identifier,Newline,Indent,Identifier,Newline,Outdent,Identifier,Newline,Outdent,Identifier,Newline,
a\n  b\n\n# c\n      # d\n  e\n | Identifier,Newline,Indent,Identifier,Newline,Identifier,Newline,Outdent,
a\n  b\n    c\n   # d\n | Identifier,Newline,Indent,Identifier,Newline,Indent,Identifier,Newline,Outdent,Outdent,
\x20a | Indent,Identifier,Newline,Outdent,
a\n  \\\n b | Identifier,Newline,Indent,Identifier,Newline,Outdent,
"#;

const PLACES: &str = r#"
filegroup(name = "x") | Identifier 0..9 1;LeftParen 9..10 1;Identifier 10..14 1;Assign 15..16 1;String 17..20 1;RightParen 20..21 1;Newline 21..21 1;
a\n  b\n    c\nd | Identifier 0..1 1;Newline 1..2 1;Indent 4..4 2;Identifier 4..5 2;Newline 5..6 2;Indent 10..10 3;Identifier 10..11 3;Newline 11..12 3;Outdent 12..12 4;Outdent 12..12 4;Identifier 12..13 4;Newline 13..13 4;
r'''\n\n'''\r\n\\\n += | String 0..9 1;Newline 9..11 3;PlusAssign 14..16 5;Newline 16..16 5;
(\n\n) # b\n | LeftParen 0..1 1;RightParen 3..4 3;Newline 8..9 3;
a\n b\n | Identifier 0..1 1;Newline 1..2 1;Indent 3..3 2;Identifier 3..4 2;Newline 4..5 2;Outdent 5..5 3;
"#;
