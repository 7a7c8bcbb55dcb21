//! Phrases, which stand in brackets: most are a primary alone, and need no look at each level of operators.

ghost use Rattle.bq_parse_grammar.specs.Turns.{Reads};
ghost use Rattle.bq_parse_grammar.specs.Reading as spec;
ghost use Rattle.bq_parse_expression.specs.Nested.{ReadsNested};
ghost use Rattle.bq_parse_expression.specs.Further.{or_after_primary};

use crate::grammar::Grammar;
use crate::lone::{begins_with_end, begins_with_operand};
use bq_parse_grammar::{Expr, Nested, SyntaxErr, Tokens};
use bq_source::TokenKind;
use std::alloc::Global;

impl<F: Fn(Global, &mut Tokens<'_>, usize, Nested) -> Result<Expr, SyntaxErr>> Grammar<F> {
    /// Reads the rest of an Or after its first primary.
    fn or_after_primary(&self, tokens: &mut Tokens<'_>, first: Expr) -> Result<Expr, SyntaxErr>
        requires { ReadsNested self.now.depth (F.pre self.now.phrase) (F.post self.now.phrase) }
        ensures { Reads (or_after_primary (spec.primary (spec.phrase self.now.depth) (spec.variables_to self.now.depth)) first tokens.old) result tokens.new }
    {
        let operand = self.further(tokens, first, 6)?;
        let comparison = self.comp_after(tokens, operand)?;
        let both = self.and_after(tokens, comparison)?;
        self.or_after(tokens, both)
    }

    /// Reads what stands in brackets. Where a name or a literal stands alone there, or a primary, no level of operators is looked at.
    #[tactic(auto, using(crate::proofs::Alone::lone_phrase, crate::proofs::AfterPrimary::primary_alone, crate::proofs::AfterPrimary::primary_then, crate::proofs::AfterPrimary::no_primary))]
    pub fn phrase_by(&self, tokens: &mut Tokens<'_>, which: Nested) -> Result<Expr, SyntaxErr>
        requires { ReadsNested self.now.depth (F.pre self.now.phrase) (F.post self.now.phrase) }
        ensures { Reads (spec.phrase_by (spec.primary (spec.phrase self.now.depth) (spec.variables_to self.now.depth)) which tokens.old) result tokens.new }
    {
        let is_atom = match tokens.peek() {
            Some(TokenKind::Identifier) => true,
            Some(TokenKind::String) => true,
            Some(TokenKind::Int) => true,
            _ => false,
        };
        if is_atom && begins_with_end(&tokens.following()) {
            return self.operand(tokens);
        }
        if !begins_with_operand(tokens) {
            return match which {
                Nested::Or => self.or_test(tokens),
                Nested::Test => self.test(tokens),
            };
        }
        let first = self.primary(tokens)?;
        if begins_with_end(tokens) {
            return Ok(first);
        }
        let value = self.or_after_primary(tokens, first)?;
        match which {
            Nested::Or => Ok(value),
            Nested::Test => self.conditional(tokens, value),
        }
    }
}
