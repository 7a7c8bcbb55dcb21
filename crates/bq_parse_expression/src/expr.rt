//! Expressions, with the reader of those in brackets.

ghost use Rattle.bq_parse_grammar.specs.Turns.{Reads};
ghost use Rattle.bq_parse_grammar.specs.Reading as spec;
ghost use Rattle.bq_parse_grammar.specs.ReadingStatements as statements;

use crate::grammar::Grammar;
use bq_parse_grammar::{Expr, Nested, SyntaxErr, Tokens};
use std::alloc::Global;

/// Reads a phrase in which fewer than `depth` brackets may be open.
pub fn phrase(
    alloc: Global,
    tokens: &mut Tokens<'_>,
    depth: usize,
    which: Nested,
) -> Result<Expr, SyntaxErr>
    ensures { Reads (spec.phrase depth which tokens.old) result tokens.new }
{
    if depth == 0 {
        return Err(SyntaxErr::Syntax);
    }
    Grammar {
        alloc,
        depth: depth - 1,
        phrase,
    }
    .phrase_by(tokens, which)
}

/// Expr = Test { ',' Test }
#[tactic(auto, unfolding(bq_parse_grammar::specs::ReadingStatements::expr))]
pub fn expr_list(alloc: Global, tokens: &mut Tokens<'_>, depth: usize) -> Result<Expr, SyntaxErr>
    ensures { Reads (statements.expr_to depth tokens.old) result tokens.new }
{
    let grammar = Grammar {
        alloc,
        depth,
        phrase,
    };
    let first = grammar.nested(tokens, Nested::Test)?;
    grammar.expr_after(tokens, first)
}
