//! The lexer: one pass over the bytes, a piece at a time, with the line, the brackets and the widths that are open.

ghost use Rattle.std.specs.Prelude.{◌≡◌, ◌≤◌, ◌<◌, ◌+◌, ◌-◌, ◌*◌, [], Some, length, take, IfOk};
ghost use Rattle.bq_source_lexer.specs.Reading as spec;
ghost use Rattle.bq_source_lexer.specs.Reading.{Lexes, max_file_bytes};
ghost use Rattle.bq_base.specs.Fault.{fault_at};
ghost use Rattle.bq_base.specs.Gives.{Gives, GivesOneOf};
ghost use Rattle.bq_source_lexer.specs.Lexing.{the_tokens};
ghost use Rattle.bq_source.specs.Piece.{IsPart, Fits};

use crate::frequent::piece;
use crate::place::{Lexer, MAX_FILE_BYTES, Margin, OpenBracket};
use bq_base::{Fault, SourceErr, TokenFault};
use bq_source::{Extent, Lexeme, Piece, RunClass, Token, TokenKind, newlines, run_len};
use std::alloc::{AllocError, Global};

/// A token with the blanks before it mostly takes more: so much room is taken at once, and of a text with more tokens the list grows.
const BYTES_OF_TOKEN: usize = 6;

/// Returns the start of a logical line that begins with this text.
fn margin_of(text: &[u8], line: u32) -> Margin
    ensures { result ≡ spec.margin_of text.now line }
{
    let width = run_len(text, RunClass::Space);
    let tab = match &text[width..] {
        [b'\t', ..] => true,
        _ => false,
    };
    Margin { width, tab, line }
}

impl<'a> Lexer<'a> {
    fn rest(&self) -> &'a [u8]
        ensures { result.now ≡ self.now.rest }
    {
        &self.text[self.at..]
    }

    /// Passes the next bytes.
    fn skip(&mut self, extent: Extent)
        requires { IsPart self.old.rest extent }
        ensures { self.new ≡ spec.skip extent self.old }
    {
        self.at += extent.len;
        self.line += extent.lines as u32;
    }

    fn push_empty(&mut self, kind: TokenKind) -> Result<(), AllocError>
        ensures { IfOk result (λ _. self.new ≡ spec.push_empty kind self.old) }
    {
        let at = self.at as u32;
        self.tokens.push(Token {
            kind,
            start: at,
            end: at,
            line: self.line,
        })?;
        Ok(())
    }

    /// Appends a token of the next bytes.
    #[inline(always)]
    fn push_token(&mut self, kind: TokenKind, extent: Extent) -> Result<(), AllocError>
        requires { IsPart self.old.rest extent }
        ensures { IfOk result (λ _. self.new ≡ spec.push_token kind extent self.old) }
    {
        self.tokens.push(Token {
            kind,
            start: self.at as u32,
            end: (self.at + extent.len) as u32,
            line: self.line,
        })?;
        self.skip(extent);
        Ok(())
    }

    #[tactic(auto, unfolding(crate::specs::Reading::end_line))]
    fn end_line(&mut self, extent: Extent) -> Result<(), AllocError>
        requires { IsPart self.old.rest extent }
        ensures { IfOk result (λ _. self.new ≡ spec.end_line extent self.old) }
    {
        if !self.open_brackets.is_empty() {
            self.skip(extent);
            return Ok(());
        }
        match self.margin {
            Some(_) => self.skip(extent),
            None => self.push_token(TokenKind::Newline, extent)?,
        }
        self.margin = Some(margin_of(self.rest(), self.line));
        Ok(())
    }

    /// Closes every width above this one.
    fn close_above(&mut self, width: usize) -> Result<(), AllocError>
        ensures { IfOk result (λ _. self.new ≡ spec.close_above width self.old.widths self.old) }
    {
        while let Some(innermost) = self.widths.pop() {
            if innermost <= width {
                self.widths.push(innermost)?;
                return Ok(());
            }
            self.push_empty(TokenKind::Outdent)?;
        }
        Ok(())
    }

    /// Returns the width of the lines that are open.
    fn width(&self) -> usize
        ensures { result ≡ spec.width_of self.now.widths }
    {
        match self.widths.as_slice() {
            [.., width] => *width,
            [] => 0,
        }
    }

    /// Returns the indentation of the line, where its first token is next: a greater width is opened, a smaller one closes those above it,
    /// and has to be open.
    #[tactic(auto, unfolding(crate::specs::Reading::indent, crate::specs::Reading::set_width))]
    fn indent(&mut self) -> Result<(), SourceErr<TokenFault>>
        ensures { Gives (λ _. self.new) SourceErr.Bad result (spec.indent self.old) }
    {
        let Some(margin) = self.margin else {
            return Ok(());
        };
        if margin.tab {
            return Err(SourceErr::Bad(Fault::at(TokenFault::Tab, margin.line)));
        }
        self.margin = None;
        if self.width() < margin.width {
            self.push_empty(TokenKind::Indent)?;
            self.widths.push(margin.width)?;
            return Ok(());
        }
        self.close_above(margin.width)?;
        if self.width() != margin.width {
            return Err(SourceErr::Bad(Fault::at(TokenFault::Indent, margin.line)));
        }
        Ok(())
    }

    /// Takes a token, and opens or closes a bracket as it does. Most begin no line and are no brackets: to look at both would cost more than
    /// the rest.
    #[tactic(auto, unfolding(crate::specs::Reading::take_token, crate::specs::Reading::indent, crate::specs::Reading::nest))]
    fn take_token(&mut self, lexeme: Lexeme, extent: Extent) -> Result<(), SourceErr<TokenFault>>
        requires { IsPart self.old.rest extent }
        ensures { Gives (λ _. self.new) SourceErr.Bad result (spec.take_token lexeme extent self.old) }
    {
        if let (None, Lexeme::Plain(kind)) = (self.margin, lexeme) {
            return Ok(self.push_token(kind, extent)?);
        }
        self.indent()?;
        match lexeme {
            Lexeme::Plain(kind) => self.push_token(kind, extent)?,
            Lexeme::Opens(kind, closing) => {
                let line = self.line;
                self.open_brackets.push(OpenBracket { closing, line })?;
                self.push_token(kind, extent)?;
            }
            Lexeme::Closes(kind) => match self.open_brackets.pop() {
                Some(open) if open.closing.is(kind) => self.push_token(kind, extent)?,
                _ => return Err(SourceErr::Bad(Fault::at(TokenFault::Bracket, self.line))),
            },
        }
        Ok(())
    }

    #[tactic(auto, unfolding(crate::specs::Reading::refuse))]
    fn refuse(&mut self, fault: Fault<TokenFault>) -> Result<(), SourceErr<TokenFault>>
        ensures { Gives (λ _. self.new) SourceErr.Bad result (spec.refuse fault self.old) }
    {
        self.indent()?;
        Err(SourceErr::Bad(fault))
    }

    /// Passes the next piece of the text.
    #[tactic(auto, unfolding(crate::specs::Reading::step))]
    fn step(&mut self) -> Result<(), SourceErr<TokenFault>>
        requires { 0 < length self.old.rest }
        ensures { Gives (λ _. self.new) SourceErr.Bad result (spec.step self.old) }
    {
        match piece(self.rest()) {
            Piece::Gap(extent) => {
                self.skip(extent);
                Ok(())
            }
            Piece::LineEnd(extent) => Ok(self.end_line(extent)?),
            Piece::Lexed(lexeme, extent) => self.take_token(lexeme, extent),
            Piece::Bad(kind, lines) => {
                let line = self.line + lines as u32;
                self.refuse(Fault::at(kind, line))
            }
        }
    }

    /// Ends the text.
    #[tactic(auto, unfolding(crate::specs::Reading::finish))]
    fn finish(mut self) -> Result<Vec<Token>, SourceErr<TokenFault>>
        ensures { Gives the_tokens SourceErr.Bad result (spec.finish self.entry) }
    {
        if let Some(innermost) = self.open_brackets.pop() {
            return Err(SourceErr::Bad(Fault::at(TokenFault::Bracket, innermost.line)));
        }
        if self.margin.is_none() {
            self.push_empty(TokenKind::Newline)?;
        }
        self.close_above(0)?;
        Ok(self.tokens)
    }
}

/// Returns the line of the first byte past the limit.
fn line_past_limit(text: &[u8]) -> u32
    requires { max_file_bytes < length text.now }
    ensures { result ≡ spec.line_behind (take max_file_bytes text.now) }
{
    let valid = &text[..MAX_FILE_BYTES];
    1 + newlines(valid) as u32
}

/// Returns the tokens of a file's text, or its first fault, F1 to F8. Lines count from 1, places in bytes from 0. It takes time and
/// memory in proportion to the text.
///
/// The lexis is that of the Starlark specification, "Lexical elements"; docs/LANGUAGE.md says where `bq` differs.
pub fn lex(alloc: Global, text: &[u8]) -> Result<Vec<Token>, SourceErr<TokenFault>>
    // What is returned is a reading of the text.
    ensures reads { GivesOneOf the_tokens SourceErr.Bad result (Lexes text.now) }
    // Every reading of the text is what is returned.
    ensures only { (r : _) → Lexes text.now r → Gives the_tokens SourceErr.Bad result r }
{
    if text.len() > MAX_FILE_BYTES {
        return Err(SourceErr::Bad(Fault::at(TokenFault::FileTooLong, line_past_limit(text))));
    }
    let tokens = Vec::with_capacity(alloc, text.len() / BYTES_OF_TOKEN)?;
    let mut lexer = Lexer {
        text,
        at: 0,
        line: 1,
        margin: Some(margin_of(text, 1)),
        open_brackets: Vec::new(alloc),
        widths: Vec::new(alloc),
        tokens,
    };
    while !lexer.rest().is_empty() {
        lexer.step()?;
    }
    lexer.finish()
}
