//! A place in the tokens of a query, and the steps that every production is made of.

ghost use Rattle.std.specs.Prelude.{◌≡◌, All, drop, length, IfOk};
ghost use Rattle.bq_query_parse.specs.Lexeme as lexeme;
ghost use Rattle.bq_query_parse.specs.Turns.{Reads};
ghost use Rattle.bq_query_parse.specs.Turns as turns;
ghost use Rattle.bq_query_parse.specs.Reading as spec;
ghost use Rattle.bq_query_parse.specs.Tokens as ahead;

use crate::refusal::QuerySyntaxErr;
use crate::tree::SetOperator;
use bq_base::Bytes;
use bq_query_lex::{QueryToken, QueryTokenKind, is_variable_name};
use std::alloc::{AllocError, Global};
use std::marker::Model;

fn is_word(kind: QueryTokenKind) -> bool
    ensures { result ≡ spec.is_word kind }
{
    match kind {
        QueryTokenKind::Word => true,
        QueryTokenKind::Quoted => true,
        _ => false,
    }
}

/// Returns what is between the quotes.
fn unquoted(spelling: &[u8]) -> &[u8]
    ensures { result.now ≡ lexeme.unquoted spelling.now }
{
    match spelling {
        [] => &[],
        [_, rest @ ..] => &rest[..rest.len().saturating_sub(1)],
    }
}

/// Returns what comes after `$`.
fn variable_name(spelling: &[u8]) -> &[u8]
    ensures { result.now ≡ drop 1 spelling.now }
{
    match spelling {
        [] => &[],
        [_, name @ ..] => name,
    }
}

#[derive(Drop)]
pub struct QueryTokens<'a> {
    text: &'a [u8],
    rest: &'a [QueryToken],
}

impl<'a> Model for QueryTokens<'a> {
    ghost use Rattle.std.specs.Prelude.{List};
    ghost use Rattle.bq_query_parse.specs.Lexeme.{Lexeme};

    ghost Value = { List Lexeme };

    ghost use Rattle.bq_query_parse.specs.Tokens.{lexemes_ahead, AreInText};

    ghost view = { lexemes_ahead };

    ghost invariant = { AreInText };
}

impl<'a> QueryTokens<'a> {
    pub fn new(text: &'a [u8], rest: &'a [QueryToken]) -> QueryTokens<'a>
        requires { All (ahead.IsInText text.now) rest.now }
        ensures { result ≡ lexeme.lexemes text.now rest.now }
    {
        QueryTokens { text, rest }
    }

    /// Returns how many tokens are left.
    #[tactic(auto, using(crate::proofs::Ahead::as_many))]
    pub fn left(&self) -> usize
        ensures { result ≡ length self.now }
    {
        self.rest.len()
    }

    pub fn peek(&self) -> Option<QueryTokenKind>
        ensures { result ≡ ahead.kind_ahead self.now }
    {
        match self.rest.first() {
            Some(token) => Some(token.kind),
            None => None,
        }
    }

    /// Returns the bytes of the next token.
    fn spelling(&self) -> &'a [u8]
        ensures { result.now ≡ spec.spelling_of self.now }
    {
        match self.rest.first() {
            Some(token) => &self.text[token.start..token.end],
            None => &[],
        }
    }

    /// Passes the next token.
    pub fn advance(&mut self)
        ensures { self.new ≡ turns.next self.old }
    {
        if !self.rest.is_empty() {
            self.rest = &self.rest[1..];
        }
    }

    /// Returns whether `let` comes after the next token.
    pub fn sees_let_next(&self) -> bool
        ensures { result ≡ ahead.let_is_next self.now }
    {
        let mut next = QueryTokens {
            text: self.text,
            rest: self.rest,
        };
        next.advance();
        next.eat(QueryTokenKind::Let)
    }

    /// Passes the next token if it is of this kind.
    #[tactic(auto, unfolding(crate::specs::Lexeme::same_kind))]
    pub fn eat(&mut self, kind: QueryTokenKind) -> bool
        ensures found { result ≡ turns.sees kind self.old }
        ensures after { self.new ≡ turns.after kind self.old }
    {
        let found = match self.rest.first() {
            Some(token) => token.kind == kind,
            None => false,
        };
        if found {
            self.advance();
        }
        found
    }

    /// Passes the next token, which must be of this kind.
    pub fn expect(&mut self, kind: QueryTokenKind) -> Result<(), QuerySyntaxErr>
        ensures { Reads (turns.expect kind self.old) result self.new }
    {
        if self.eat(kind) {
            Ok(())
        } else {
            Err(QuerySyntaxErr::Syntax)
        }
    }

    /// Passes `(`, if one more may be opened.
    pub fn opening(&mut self, depth: usize) -> Result<(), QuerySyntaxErr>
        ensures { Reads (spec.opening depth self.old) result self.new }
    {
        if depth == 0 {
            return Err(QuerySyntaxErr::Syntax);
        }
        self.expect(QueryTokenKind::Open)
    }

    /// Takes the next token, as it is written.
    pub fn bare(&mut self, alloc: Global) -> Result<Bytes, AllocError>
        ensures { IfOk result (λ w. (w ≡ spec.spelling_of self.old) × (self.new ≡ turns.next self.old)) }
    {
        let word = Bytes::from_slice(alloc, self.spelling())?;
        self.advance();
        Ok(word)
    }

    /// Takes the next token, without its quotes.
    pub fn quoted(&mut self, alloc: Global) -> Result<Bytes, AllocError>
        ensures { IfOk result (λ w. (w ≡ lexeme.unquoted (spec.spelling_of self.old)) × (self.new ≡ turns.next self.old)) }
    {
        let word = Bytes::from_slice(alloc, unquoted(self.spelling()))?;
        self.advance();
        Ok(word)
    }

    /// Takes the next token, without its `$`.
    pub fn variable(&mut self, alloc: Global) -> Result<Bytes, AllocError>
        ensures { IfOk result (λ w. (w ≡ drop 1 (spec.spelling_of self.old)) × (self.new ≡ turns.next self.old)) }
    {
        let name = Bytes::from_slice(alloc, variable_name(self.spelling()))?;
        self.advance();
        Ok(name)
    }

    /// Returns whether a word comes next, in quotes or not.
    pub fn sees_word(&self) -> bool
        ensures { result ≡ spec.begins_word self.now }
    {
        match self.rest.first() {
            Some(token) => is_word(token.kind),
            None => false,
        }
    }

    /// Word = word | quoted
    pub fn word(&mut self, alloc: Global) -> Result<Bytes, QuerySyntaxErr>
        ensures { Reads (spec.a_word self.old) result self.new }
    {
        match self.peek() {
            Some(QueryTokenKind::Word) => Ok(self.bare(alloc)?),
            Some(QueryTokenKind::Quoted) => Ok(self.quoted(alloc)?),
            Some(_) => Err(QuerySyntaxErr::Syntax),
            None => Err(QuerySyntaxErr::Syntax),
        }
    }

    /// Reads the name of a variable, without quotes.
    #[tactic(auto, unfolding(crate::specs::Lexeme::same_kind))]
    pub fn name(&mut self, alloc: Global) -> Result<Bytes, QuerySyntaxErr>
        ensures { Reads (spec.a_name self.old) result self.new }
    {
        match self.peek() {
            Some(QueryTokenKind::Word) => {}
            _ => return Err(QuerySyntaxErr::Syntax),
        }
        if !is_variable_name(self.spelling()) {
            return Err(QuerySyntaxErr::Syntax);
        }
        Ok(self.bare(alloc)?)
    }

    /// Returns whether an operator comes next.
    pub fn sees_operator(&self) -> bool
        ensures { result ≡ spec.begins_operation self.now }
    {
        match self.peek() {
            Some(QueryTokenKind::Union) => true,
            Some(QueryTokenKind::Intersect) => true,
            Some(QueryTokenKind::Except) => true,
            _ => false,
        }
    }

    pub fn operator(&mut self) -> Result<SetOperator, QuerySyntaxErr>
        ensures { Reads (spec.an_operator self.old) result self.new }
    {
        let found = match self.peek() {
            Some(QueryTokenKind::Union) => SetOperator::Union,
            Some(QueryTokenKind::Intersect) => SetOperator::Intersect,
            Some(QueryTokenKind::Except) => SetOperator::Except,
            _ => return Err(QuerySyntaxErr::Syntax),
        };
        self.advance();
        Ok(found)
    }
}
