//! Statements, with the reader of those in blocks.

ghost use Rattle.bq_parse_grammar.specs.Turns.{Reads};
ghost use Rattle.bq_parse_grammar.specs.ReadingStatements as spec;
ghost use Rattle.bq_parse.specs.Makes.{Makes};

use crate::blocks::BlockRules;
use crate::targets::refused;
use bq_parse_grammar::{Stmt, SyntaxErr, Tokens, TopLevel};
use std::alloc::Global;

/// Reads a statement in which fewer than `depth` brackets and indents may be open.
pub fn statement(alloc: Global, tokens: &mut Tokens<'_>, depth: usize) -> Result<Stmt, SyntaxErr>
    ensures { Reads (spec.statement depth tokens.old) result tokens.new }
{
    if depth == 0 {
        return Err(SyntaxErr::Syntax);
    }
    BlockRules {
        alloc,
        depth,
        inside: depth - 1,
        statement,
    }
    .stmt(tokens)
}

/// Reads the top-level statement that all of these tokens are.
#[tactic(auto, using(crate::proofs::Taken::none_left, crate::proofs::Taken::some_left), unfolding(bq_parse_grammar::specs::ReadingStatements::top_level))]
pub fn top_level(
    alloc: Global,
    tokens: &mut Tokens<'_>,
    depth: usize,
) -> Result<TopLevel, SyntaxErr>
    ensures { Makes (spec.top_level depth tokens.old) result }
{
    let line = tokens.line();
    let statement = statement(alloc, tokens, depth)?;
    if tokens.left() == 0 {
        Ok(TopLevel { line, statement })
    } else {
        refused(statement)
    }
}
