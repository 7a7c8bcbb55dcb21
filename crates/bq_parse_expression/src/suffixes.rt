//! Primaries: an operand, and what is done to it.

ghost use Rattle.std.specs.Prelude.{◌≡◌, [], ◌∷◌, Some, None};
ghost use Rattle.bq_parse_grammar.specs.Turns.{Reads};
ghost use Rattle.bq_parse_grammar.specs.Turns as turns;
ghost use Rattle.bq_parse_grammar.specs.Grammar as grammar;
ghost use Rattle.bq_parse_grammar.specs.Reading as spec;
ghost use Rattle.bq_parse_grammar.specs.declared.tree.Expr.TheVariants as e;
ghost use Rattle.bq_parse_grammar.specs.declared.tree.Nested.TheVariants.{Test};
ghost use Rattle.bq_source.specs.declared.token.TokenKind.TheVariants as kind;
ghost use Rattle.bq_parse_expression.specs.Nested.{ReadsNested};

use crate::grammar::Grammar;
use crate::steps::{closed, only};
use bq_base::Bytes;
use bq_parse_grammar::{
    Allowed, Argument, ArgumentKind, Boxed, Expr, Identifier, Items, Nested, Suffix, SyntaxErr,
    Tokens,
};
use bq_source::TokenKind;
use std::alloc::Global;

/// Returns what may come after an argument of this kind, or `None` where that argument is not allowed.
fn allowed_after(allowed: Allowed, kind: ArgumentKind) -> Option<Allowed>
    ensures { result ≡ grammar.allowed_after allowed kind }
{
    match (allowed, kind) {
        (Allowed::All, ArgumentKind::Positional) => Some(Allowed::All),
        (Allowed::All, ArgumentKind::Named) => Some(Allowed::AfterNamed),
        (Allowed::All, ArgumentKind::Star) => Some(Allowed::AfterStar),
        (Allowed::All, ArgumentKind::StarStar) => Some(Allowed::AfterStarStar),
        (Allowed::AfterNamed, ArgumentKind::Named) => Some(Allowed::AfterNamed),
        (Allowed::AfterNamed, ArgumentKind::Star) => Some(Allowed::AfterStar),
        (Allowed::AfterNamed, ArgumentKind::StarStar) => Some(Allowed::AfterStarStar),
        (Allowed::AfterStar, ArgumentKind::Named) => Some(Allowed::AfterStar),
        (Allowed::AfterStar, ArgumentKind::StarStar) => Some(Allowed::AfterStarStar),
        _ => None,
    }
}

/// Returns whether a suffix comes next.
fn sees_suffix(tokens: &Tokens<'_>) -> bool
    ensures { result ≡ spec.begins_suffix tokens.now }
{
    tokens.sees(TokenKind::Dot)
        || tokens.sees(TokenKind::LeftParen)
        || tokens.sees(TokenKind::LeftBracket)
}

impl<F: Fn(Global, &mut Tokens<'_>, usize, Nested) -> Result<Expr, SyntaxErr>> Grammar<F> {
    /// Argument = Test | identifier '=' Test | '*' Test | '**' Test, where it is allowed, and what may still come after it
    #[tactic(auto, unfolding(bq_parse_grammar::specs::Reading::argument))]
    fn argument(
        &self,
        tokens: &mut Tokens<'_>,
        allowed: Allowed,
    ) -> Result<(Argument, Allowed), SyntaxErr>
        requires { ReadsNested self.now.depth (F.pre self.now.phrase) (F.post self.now.phrase) }
        ensures { Reads (spec.argument (spec.phrase self.now.depth) (spec.variables_to self.now.depth) allowed tokens.old) result tokens.new }
    {
        let kind = if tokens.sees(TokenKind::Star) {
            ArgumentKind::Star
        } else if tokens.sees(TokenKind::StarStar) {
            ArgumentKind::StarStar
        } else if tokens.sees_named() {
            ArgumentKind::Named
        } else {
            ArgumentKind::Positional
        };
        let Some(after) = allowed_after(allowed, kind) else {
            return Err(SyntaxErr::Syntax);
        };
        match kind {
            ArgumentKind::Positional => {
                let value = self.nested(tokens, Nested::Test)?;
                Ok((Argument::Positional(value), after))
            }
            ArgumentKind::Named => {
                let name = Bytes::from_slice(self.alloc, tokens.spelling())?;
                tokens.advance();
                tokens.advance();
                let value = self.nested(tokens, Nested::Test)?;
                Ok((Argument::Named(name, value), after))
            }
            ArgumentKind::Star => {
                tokens.advance();
                let value = self.nested(tokens, Nested::Test)?;
                Ok((Argument::Star(value), after))
            }
            ArgumentKind::StarStar => {
                tokens.advance();
                let value = self.nested(tokens, Nested::Test)?;
                Ok((Argument::StarStar(value), after))
            }
        }
    }

    /// [ Argument { ',' Argument } [','] ] ')'
    #[tactic(auto, using(crate::proofs::LoopTurns::turns_more, crate::proofs::LoopTurns::turns_over), unfolding(bq_parse_grammar::specs::Reading::arguments))]
    fn arguments(&self, tokens: &mut Tokens<'_>) -> Result<Items<Argument>, SyntaxErr>
        requires { ReadsNested self.now.depth (F.pre self.now.phrase) (F.post self.now.phrase) }
        ensures { Reads (spec.arguments (spec.phrase self.now.depth) (spec.variables_to self.now.depth) tokens.old) result tokens.new }
    {
        let mut found = Items::new(self.alloc);
        let mut allowed = Allowed::All;
        // Each turn takes a token.
        for _turn in 0..tokens.left() {
            if tokens.eat(TokenKind::RightParen) {
                return Ok(found);
            }
            let (argument, after) = self.argument(tokens, allowed)?;
            found.push(argument)?;
            allowed = after;
            if !tokens.eat(TokenKind::Comma) {
                return closed(tokens, TokenKind::RightParen, found);
            }
        }
        Err(SyntaxErr::Syntax)
    }

    /// [ Test ], where a colon or the closing bracket follows
    #[tactic(auto, unfolding(bq_parse_grammar::specs::Reading::optional_test))]
    fn optional_test(&self, tokens: &mut Tokens<'_>) -> Result<Option<Boxed<Expr>>, SyntaxErr>
        requires { ReadsNested self.now.depth (F.pre self.now.phrase) (F.post self.now.phrase) }
        ensures { Reads (spec.optional_test (spec.phrase self.now.depth) (spec.variables_to self.now.depth) tokens.old) result tokens.new }
    {
        if tokens.sees(TokenKind::Colon) || tokens.sees(TokenKind::RightBracket) {
            return Ok(None);
        }
        Ok(Some(Boxed::new(self.alloc, self.nested(tokens, Nested::Test)?)?))
    }

    /// Reads the rest of a slice after its second part.
    #[tactic(auto, unfolding(bq_parse_grammar::specs::Reading::slice_end))]
    fn slice_end(
        &self,
        tokens: &mut Tokens<'_>,
        start: Option<Boxed<Expr>>,
        end: Option<Boxed<Expr>>,
    ) -> Result<Suffix, SyntaxErr>
        requires { ReadsNested self.now.depth (F.pre self.now.phrase) (F.post self.now.phrase) }
        ensures { Reads (spec.slice_end (spec.phrase self.now.depth) (spec.variables_to self.now.depth) start end tokens.old) result tokens.new }
    {
        if tokens.eat(TokenKind::Colon) {
            let step = self.optional_test(tokens)?;
            let slice = Suffix::Slice(start, end, step);
            return closed(tokens, TokenKind::RightBracket, slice);
        }
        let slice = Suffix::Slice(start, end, None);
        closed(tokens, TokenKind::RightBracket, slice)
    }

    /// Reads the rest of a slice after its first colon.
    #[tactic(auto, unfolding(bq_parse_grammar::specs::Reading::slice_after))]
    fn slice_after(
        &self,
        tokens: &mut Tokens<'_>,
        start: Option<Boxed<Expr>>,
    ) -> Result<Suffix, SyntaxErr>
        requires { ReadsNested self.now.depth (F.pre self.now.phrase) (F.post self.now.phrase) }
        ensures { Reads (spec.slice_after (spec.phrase self.now.depth) (spec.variables_to self.now.depth) start tokens.old) result tokens.new }
    {
        let end = self.optional_test(tokens)?;
        self.slice_end(tokens, start, end)
    }

    /// ',' Test
    fn after_comma(&self, tokens: &mut Tokens<'_>) -> Result<Expr, SyntaxErr>
        requires { ReadsNested self.now.depth (F.pre self.now.phrase) (F.post self.now.phrase) }
        ensures { Reads (spec.after_comma (spec.phrase self.now.depth Test) tokens.old) result tokens.new }
    {
        tokens.expect(TokenKind::Comma)?;
        self.nested(tokens, Nested::Test)
    }

    /// Reads the further tests after commas, and returns them after those found.
    #[tactic(auto, using(crate::proofs::LoopTurns::turns_more, crate::proofs::LoopTurns::turns_over), unfolding(bq_parse_grammar::specs::Turns::repeat))]
    fn further_tests(
        &self,
        tokens: &mut Tokens<'_>,
        mut found: Items<Expr>,
    ) -> Result<Items<Expr>, SyntaxErr>
        requires { ReadsNested self.now.depth (F.pre self.now.phrase) (F.post self.now.phrase) }
        ensures { Reads (turns.repeat (turns.sees kind.Comma) (spec.after_comma (spec.phrase self.now.depth Test)) found tokens.old) result tokens.new }
    {
        // Each turn takes a token.
        for _turn in 0..tokens.left() {
            if !tokens.sees(TokenKind::Comma) {
                return Ok(found);
            }
            found.push(self.after_comma(tokens)?)?;
        }
        Ok(found)
    }

    /// Expr = Test { ',' Test }, after the first test
    pub fn expr_after(&self, tokens: &mut Tokens<'_>, first: Expr) -> Result<Expr, SyntaxErr>
        requires { ReadsNested self.now.depth (F.pre self.now.phrase) (F.post self.now.phrase) }
        ensures { Reads (spec.chained e.Tuple (spec.phrase self.now.depth Test) first tokens.old) result tokens.new }
    {
        if !tokens.sees(TokenKind::Comma) {
            return Ok(first);
        }
        let mut found = only(self.alloc, first)?;
        found.push(self.after_comma(tokens)?)?;
        Ok(Expr::Tuple(self.further_tests(tokens, found)?))
    }

    /// '[' Expr ']' | '[' [Test] ':' [Test] [ ':' [Test] ] ']', after the first bracket
    #[tactic(auto, unfolding(bq_parse_grammar::specs::Reading::subscript))]
    fn subscript(&self, tokens: &mut Tokens<'_>) -> Result<Suffix, SyntaxErr>
        requires { ReadsNested self.now.depth (F.pre self.now.phrase) (F.post self.now.phrase) }
        ensures { Reads (spec.subscript (spec.phrase self.now.depth) (spec.variables_to self.now.depth) tokens.old) result tokens.new }
    {
        if tokens.eat(TokenKind::Colon) {
            return self.slice_after(tokens, None);
        }
        let first = self.nested(tokens, Nested::Test)?;
        if tokens.eat(TokenKind::Colon) {
            let start = Boxed::new(self.alloc, first)?;
            return self.slice_after(tokens, Some(start));
        }
        let index = Boxed::new(self.alloc, self.expr_after(tokens, first)?)?;
        closed(tokens, TokenKind::RightBracket, Suffix::Index(index))
    }

    /// Suffix = '.' identifier [ '(' Arguments ')' ] | '(' Arguments ')' | '[' Expr ']' | '[' [Test] ':' [Test] [ ':' [Test] ] ']'
    #[tactic(auto, unfolding(bq_parse_grammar::specs::Reading::suffix, bq_parse_grammar::specs::Reading::member))]
    fn suffix(&self, tokens: &mut Tokens<'_>) -> Result<Suffix, SyntaxErr>
        requires { ReadsNested self.now.depth (F.pre self.now.phrase) (F.post self.now.phrase) }
        ensures { Reads (spec.suffix (spec.phrase self.now.depth) (spec.variables_to self.now.depth) tokens.old) result tokens.new }
    {
        if tokens.eat(TokenKind::Dot) {
            let name = tokens.word(self.alloc)?;
            if tokens.eat(TokenKind::LeftParen) {
                return Ok(Suffix::Method(name, self.arguments(tokens)?));
            }
            return Ok(Suffix::Attribute(name));
        }
        if tokens.eat(TokenKind::LeftParen) {
            return Ok(Suffix::Call(self.arguments(tokens)?));
        }
        tokens.expect(TokenKind::LeftBracket)?;
        self.subscript(tokens)
    }

    /// Primary = Operand { Suffix }
    #[tactic(auto, using(crate::proofs::LoopTurns::none_follow, crate::proofs::LoopTurns::turns_more, crate::proofs::LoopTurns::turns_over), unfolding(bq_parse_grammar::specs::Reading::primary, bq_parse_grammar::specs::Turns::repeat))]
    pub fn primary(&self, tokens: &mut Tokens<'_>) -> Result<Expr, SyntaxErr>
        requires { ReadsNested self.now.depth (F.pre self.now.phrase) (F.post self.now.phrase) }
        ensures { Reads (spec.primary (spec.phrase self.now.depth) (spec.variables_to self.now.depth) tokens.old) result tokens.new }
    {
        let operand = self.operand(tokens)?;
        if !sees_suffix(tokens) {
            return Ok(operand);
        }
        let operand = Boxed::new(self.alloc, operand)?;
        let mut suffixes = Items::with_capacity(self.alloc, 1)?;
        // Each turn takes a token.
        for _turn in 0..tokens.left() {
            if !sees_suffix(tokens) {
                break;
            }
            suffixes.push(self.suffix(tokens)?)?;
        }
        // PROOF: a suffix was seen, so at least one was read.
        if suffixes.is_empty() {
            return Ok(operand.into_inner());
        }
        Ok(Expr::Primary(operand, suffixes))
    }
}
