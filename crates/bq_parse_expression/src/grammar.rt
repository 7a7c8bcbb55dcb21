//! The rules of expressions take the reader of those in brackets as a parameter, so that each rule is proved by itself.

ghost use Rattle.std.specs.Prelude.{Ok};
ghost use Rattle.bq_parse_grammar.specs.Turns.{Reads, ◌>>=◌ as and_then};
ghost use Rattle.bq_parse_grammar.specs.Turns as turns;
ghost use Rattle.bq_parse_grammar.specs.Reading as spec;
ghost use Rattle.bq_parse_grammar.specs.declared.tree.Nested.TheVariants.{Test};
ghost use Rattle.bq_parse_expression.specs.Nested.{ReadsNested};

use crate::steps::closed;
use bq_parse_grammar::{Expr, Items, Nested, SyntaxErr, Tokens};
use bq_source::TokenKind;
use std::alloc::Global;

#[derive(Drop)]
pub struct Grammar<F> {
    pub alloc: Global,
    /// How many brackets may still be opened.
    pub depth: usize,
    pub phrase: F,
}

impl<F: Fn(Global, &mut Tokens<'_>, usize, Nested) -> Result<Expr, SyntaxErr>> Grammar<F> {
    pub fn nested(&self, tokens: &mut Tokens<'_>, which: Nested) -> Result<Expr, SyntaxErr>
        requires { ReadsNested self.now.depth (F.pre self.now.phrase) (F.post self.now.phrase) }
        ensures { Reads (spec.phrase self.now.depth which tokens.old) result tokens.new }
    {
        (self.phrase)(self.alloc, tokens, self.depth, which)
    }

    /// Returns the value, and reads what stands after a token of this kind.
    pub fn beside<T: Drop>(
        &self,
        tokens: &mut Tokens<'_>,
        value: T,
        kind: TokenKind,
        which: Nested,
    ) -> Result<(T, Expr), SyntaxErr>
        requires { ReadsNested self.now.depth (F.pre self.now.phrase) (F.post self.now.phrase) }
        ensures { Reads (and_then (turns.expect kind tokens.old) (λ _ us. and_then (spec.phrase self.now.depth which us) (λ x rest. Ok ((value, x), rest)))) result tokens.new }
    {
        tokens.expect(kind)?;
        let next = self.nested(tokens, which)?;
        Ok((value, next))
    }

    /// Reads the further tests up to the closing bracket, and returns them after those found.
    #[tactic(auto, using(crate::proofs::LoopTurns::turns_more, crate::proofs::LoopTurns::turns_over), unfolding(bq_parse_grammar::specs::Turns::listed_from))]
    pub fn listed(
        &self,
        tokens: &mut Tokens<'_>,
        close: TokenKind,
        mut found: Items<Expr>,
    ) -> Result<Items<Expr>, SyntaxErr>
        requires { ReadsNested self.now.depth (F.pre self.now.phrase) (F.post self.now.phrase) }
        ensures { Reads (turns.listed_from close (spec.phrase self.now.depth Test) found tokens.old) result tokens.new }
    {
        // Each turn takes a token.
        for _turn in 0..tokens.left() {
            if tokens.eat(close) {
                return Ok(found);
            }
            found.push(self.nested(tokens, Nested::Test)?)?;
            if !tokens.eat(TokenKind::Comma) {
                return closed(tokens, close, found);
            }
        }
        Err(SyntaxErr::Syntax)
    }
}
