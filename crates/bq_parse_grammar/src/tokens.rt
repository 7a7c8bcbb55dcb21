//! A place in the tokens of a text, and the steps that every production is made of.

ghost use Rattle.std.specs.Prelude.{◌≡◌, ◌≤◌, All, length, Some};
ghost use Rattle.bq_source.specs.Spelling.{Lies};
ghost use Rattle.bq_parse_grammar.specs.Lexeme.{lexemes};
ghost use Rattle.bq_parse_grammar.specs.Turns.{Reads};
ghost use Rattle.bq_parse_grammar.specs.Turns as spec;
ghost use Rattle.bq_parse_grammar.specs.Reading as reading;
ghost use Rattle.bq_parse_grammar.specs.ReadingStatements as statements;
ghost use Rattle.bq_parse_grammar.specs.Statements as grammar;
ghost use Rattle.bq_parse_grammar.specs.Operators as operators;
ghost use Rattle.bq_source.specs.Number as numbers;
ghost use Rattle.bq_source.specs.StringLiteral as strings;
ghost use Rattle.bq_source.specs.declared.token.TokenKind.TheVariants as kind;
ghost use Rattle.bq_parse_grammar.specs.Tokens as ahead;

use crate::operators::{augmented, binary_operator};
use crate::refusal::SyntaxErr;
use crate::tree::{Comparison, Expr, Identifier, Operator, Referent, UnaryOperator};
use bq_base::Bytes;
use bq_source::{Token, TokenKind, int_value, string_value};
use std::alloc::Global;
use std::marker::Model;

/// How many tokens are looked at to see how many items a list has.
const LOOKED_AT: usize = 256;

/// Returns whether a list that ends with `close` is looked at up to here: it ends, or a bracket opens in it.
fn ends_look(kind: TokenKind, close: TokenKind) -> bool {
    match kind {
        TokenKind::LeftParen | TokenKind::LeftBracket | TokenKind::LeftBrace => true,
        _ => kind.is(close),
    }
}

#[derive(Drop)]
pub struct Tokens<'a> {
    text: &'a [u8],
    rest: &'a [Token],
}

impl<'a> Model for Tokens<'a> {
    ghost use Rattle.std.specs.Prelude.{List};
    ghost use Rattle.bq_parse_grammar.specs.Lexeme.{Lexeme};

    ghost Value = { List Lexeme };

    ghost use Rattle.bq_parse_grammar.specs.Tokens.{lexemes_ahead, IsInText};

    ghost view = { lexemes_ahead };

    ghost invariant = { IsInText };
}

impl<'a> Tokens<'a> {
    pub fn new(text: &'a [u8], rest: &'a [Token]) -> Tokens<'a>
        requires { All (Lies text.now) rest.now }
        ensures { result ≡ lexemes text.now rest.now }
    {
        Tokens { text, rest }
    }

    /// Returns how many tokens are left.
    pub fn left(&self) -> usize
        ensures { result ≡ length self.now }
    {
        self.rest.len()
    }

    pub fn peek(&self) -> Option<TokenKind>
        ensures { result ≡ ahead.kind_ahead self.now }
    {
        match self.rest.first() {
            Some(token) => Some(token.kind),
            None => None,
        }
    }

    pub fn sees(&self, kind: TokenKind) -> bool
        ensures { result ≡ spec.sees kind self.now }
    {
        match self.rest.first() {
            Some(token) => token.kind.is(kind),
            None => false,
        }
    }

    /// Returns the line of the next token; 0 where there is none.
    pub fn line(&self) -> u32
        ensures { result ≡ grammar.line_of self.now }
    {
        match self.rest.first() {
            Some(token) => token.line,
            None => 0,
        }
    }

    /// Returns how many items of a list that ends with `close` are in sight after a comma: for how many to ask memory at once. No
    /// tree depends on it.
    pub fn items_in_sight(&self, close: TokenKind) -> usize
        ensures { result ≤ 256 }
    {
        let mut items = 0;
        let mut is_after_comma = false;
        for at in 0..LOOKED_AT {
            match self.rest.get(at) {
                Some(token) if !ends_look(token.kind, close) => {
                    if is_after_comma {
                        items += 1;
                    }
                    is_after_comma = token.kind.is(TokenKind::Comma);
                }
                _ => break,
            }
        }
        items
    }

    /// Returns a copy of the place.
    pub fn here(&self) -> Tokens<'a>
        ensures { result ≡ self.now }
    {
        Tokens {
            text: self.text,
            rest: self.rest,
        }
    }

    /// Returns whether the last of the tokens from here to `rest` is of this kind.
    #[tactic(auto, using(crate::proofs::Ahead::ended))]
    pub fn ended_by(&self, kind: TokenKind, rest: &Tokens<'_>) -> bool
        ensures { result ≡ statements.ended_by kind self.now rest.now }
    {
        let at = self
            .rest
            .len()
            .saturating_sub(rest.left())
            .saturating_sub(1);
        let last = Tokens {
            text: self.text,
            rest: &self.rest[at..],
        };
        last.sees(kind)
    }

    /// Returns the place after the next token.
    pub fn following(&self) -> Tokens<'a>
        ensures { result ≡ spec.next self.now }
    {
        let mut following = Tokens {
            text: self.text,
            rest: self.rest,
        };
        following.advance();
        following
    }

    /// Returns whether a named argument comes next.
    #[tactic(auto, using(crate::proofs::Ahead::named_ahead))]
    pub fn sees_named(&self) -> bool
        ensures { result ≡ reading.is_named self.now }
    {
        self.sees(TokenKind::Identifier) && self.following().sees(TokenKind::Assign)
    }

    /// Returns the bytes of the next token.
    pub fn spelling(&self) -> &'a [u8]
        ensures { result.now ≡ reading.spelling_of self.now }
    {
        match self.rest.first() {
            Some(token) => &self.text[token.start as usize..token.end as usize],
            None => &[],
        }
    }

    /// Passes the next token.
    pub fn advance(&mut self)
        ensures { self.new ≡ spec.next self.old }
    {
        if !self.rest.is_empty() {
            self.rest = &self.rest[1..];
        }
    }

    /// Passes the next token if it is of this kind.
    pub fn eat(&mut self, kind: TokenKind) -> bool
        ensures found { result ≡ spec.sees kind self.old }
        ensures after { self.new ≡ spec.after kind self.old }
    {
        let found = self.sees(kind);
        if found {
            self.advance();
        }
        found
    }

    /// Passes the next token, which must be of this kind.
    pub fn expect(&mut self, kind: TokenKind) -> Result<(), SyntaxErr>
        ensures { Reads (spec.expect kind self.old) result self.new }
    {
        if self.sees(kind) {
            self.advance();
            Ok(())
        } else {
            Err(SyntaxErr::Syntax)
        }
    }

    /// Reads a word, and returns what it names.
    #[tactic(auto, using(crate::proofs::Ahead::word_seen, crate::proofs::Ahead::word_unseen))]
    pub fn word(&mut self, alloc: Global) -> Result<Identifier, SyntaxErr>
        ensures { Reads (reading.word self.old) result self.new }
    {
        if !self.sees(TokenKind::Identifier) {
            return Err(SyntaxErr::Syntax);
        }
        let line = self.line();
        let name = Bytes::from_slice(alloc, self.spelling())?;
        self.advance();
        Ok(Identifier {
            name,
            referent: Referent::Unresolved(line),
        })
    }

    /// Reads an integer literal, and returns its number.
    pub fn int(&mut self) -> Result<Expr, SyntaxErr>
        ensures { Reads (reading.int_of (numbers.int_value (reading.spelling_of self.old)) (spec.next self.old)) result self.new }
    {
        match int_value(self.spelling()) {
            Some(n) => {
                self.advance();
                Ok(Expr::Int(n))
            }
            None => Err(SyntaxErr::Syntax),
        }
    }

    /// Reads a string literal, and returns the bytes that it stands for.
    pub fn text(&mut self, alloc: Global) -> Result<Bytes, SyntaxErr>
        requires { ahead.kind_ahead self.old ≡ Some kind.String }
        ensures { Reads (statements.text_of (strings.string_value (reading.spelling_of self.old)) (spec.next self.old)) result self.new }
    {
        // PROOF: it looks into the place.
        let _ = self.rest.len();
        let value = string_value(alloc, self.spelling())?;
        self.advance();
        Ok(value)
    }

    /// Returns the sign that comes next, if one does.
    pub fn sign(&self) -> Option<UnaryOperator>
        ensures { result ≡ ahead.known_by operators.sign (ahead.kind_ahead self.now) }
    {
        match self.peek() {
            Some(TokenKind::Plus) => Some(UnaryOperator::Plus),
            Some(TokenKind::Minus) => Some(UnaryOperator::Minus),
            Some(TokenKind::Tilde) => Some(UnaryOperator::Invert),
            _ => None,
        }
    }

    /// Returns the operator `not`, if it comes next.
    pub fn negation(&self) -> Option<UnaryOperator>
        ensures { result ≡ ahead.known_by operators.negation (ahead.kind_ahead self.now) }
    {
        match self.peek() {
            Some(TokenKind::Not) => Some(UnaryOperator::Not),
            _ => None,
        }
    }

    /// Returns the comparison that the next token is; `not in` is two.
    pub fn comparison(&self) -> Option<Comparison>
        ensures { result ≡ ahead.known_by operators.comparison (ahead.kind_ahead self.now) }
    {
        match self.peek() {
            Some(TokenKind::EqualEqual) => Some(Comparison::Equal),
            Some(TokenKind::NotEqual) => Some(Comparison::NotEqual),
            Some(TokenKind::Less) => Some(Comparison::Less),
            Some(TokenKind::Greater) => Some(Comparison::Greater),
            Some(TokenKind::LessEqual) => Some(Comparison::LessEqual),
            Some(TokenKind::GreaterEqual) => Some(Comparison::GreaterEqual),
            Some(TokenKind::In) => Some(Comparison::In),
            _ => None,
        }
    }

    /// Returns the operator between operands that comes next, if one does, and its level: 1 binds tightest.
    pub fn operator_ahead(&self) -> Option<(usize, Operator)>
        ensures { result ≡ ahead.known_by operators.binary_operator (ahead.kind_ahead self.now) }
    {
        match self.peek() {
            Some(kind) => binary_operator(kind),
            None => None,
        }
    }

    /// Returns whether an operator of this level comes next.
    #[tactic(auto, using(crate::proofs::Ahead::level_ahead))]
    pub fn sees_operator(&self, level: usize) -> bool
        ensures { result ≡ reading.has (operators.operator_at level) self.now }
    {
        match self.operator_ahead() {
            Some((of, _)) => of == level,
            None => false,
        }
    }

    #[tactic(auto, using(crate::proofs::Ahead::level_known))]
    pub fn operator(&mut self, level: usize) -> Result<Operator, SyntaxErr>
        ensures { Reads (reading.looked_up (operators.operator_at level) self.old) result self.new }
    {
        let Some((of, found)) = self.operator_ahead() else {
            return Err(SyntaxErr::Syntax);
        };
        if of != level {
            return Err(SyntaxErr::Syntax);
        }
        self.advance();
        Ok(found)
    }

    /// Returns whether the operator of an augmented assignment comes next.
    #[tactic(auto, using(crate::proofs::Ahead::has_by))]
    pub fn sees_augmented(&self) -> bool
        ensures { result ≡ reading.has operators.augmented self.now }
    {
        match self.peek() {
            Some(kind) => augmented(kind).is_some(),
            None => false,
        }
    }

    #[tactic(auto, using(crate::proofs::Ahead::looked_up_by))]
    pub fn augmented(&mut self) -> Result<Operator, SyntaxErr>
        ensures { Reads (reading.looked_up operators.augmented self.old) result self.new }
    {
        match self.peek() {
            Some(kind) => match augmented(kind) {
                Some(found) => {
                    self.advance();
                    Ok(found)
                }
                None => Err(SyntaxErr::Syntax),
            },
            None => Err(SyntaxErr::Syntax),
        }
    }
}
