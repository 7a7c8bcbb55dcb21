//! Whole texts.

ghost use Rattle.std.specs.Prelude.{◌≡◌, ◌≢◌};
ghost use Rattle.bq_query_lex.specs.declared.query_error.QueryErr.TheVariants.{Syntax};
ghost use Rattle.bq_query_parse.specs.declared.refusal.QuerySyntaxErr.TheVariants.{Memory};
ghost use Rattle.bq_query_parse.specs.Turns.{Reads};
ghost use Rattle.bq_query_parse.specs.Reading as spec;
ghost use Rattle.bq_query_parse.specs.Parses.{Parses};

use crate::grammar::QueryGrammar;
use crate::refusal::QuerySyntaxErr;
use crate::tokens::QueryTokens;
use crate::tree::Query;
use bq_query_lex::{QueryErr, lex_query};
use std::alloc::Global;

/// How many parentheses and lets may be open.
const MAX_OPEN: usize = 64;

/// Reads a query in which fewer than `depth` parentheses and lets may be open.
fn query(alloc: Global, tokens: &mut QueryTokens<'_>, depth: usize) -> Result<Query, QuerySyntaxErr>
    ensures { Reads (spec.query_to depth tokens.old) result tokens.new }
{
    if depth == 0 {
        return Err(QuerySyntaxErr::Syntax);
    }
    QueryGrammar {
        alloc,
        depth: depth - 1,
        query,
    }
    .query_in(tokens)
}

/// Returns out of memory, or for a text that can't be cut that it is no query: the lexer refuses for nothing else.
fn refused(error: QueryErr) -> QuerySyntaxErr
    ensures { result ≢ Memory → error ≡ Syntax }
{
    match error {
        QueryErr::Syntax => QuerySyntaxErr::Syntax,
        _ => QuerySyntaxErr::Memory,
    }
}

/// Returns the tree of the text, or that it has none. It takes time linear in the text.
pub fn parse_tree(alloc: Global, text: &[u8]) -> Result<Query, QuerySyntaxErr>
    ensures { Parses text.now result }
{
    let tokens = match lex_query(alloc, text) {
        Ok(tokens) => tokens,
        Err(error) => return Err(refused(error)),
    };
    let mut rest = QueryTokens::new(text, &tokens);
    let tree = query(alloc, &mut rest, MAX_OPEN + 1)?;
    match rest.peek() {
        Some(_) => Err(QuerySyntaxErr::Syntax),
        None => Ok(tree),
    }
}
