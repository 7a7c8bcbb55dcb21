//! Whole texts of queries.

ghost use Rattle.bq_query_check.specs.Checked.{Checks};

use crate::checked::CheckedQuery;
use crate::trees::check;
use bq_query_lex::QueryErr;
use bq_query_parse::{QuerySyntaxErr, parse_tree};
use std::alloc::Global;

/// Reads and checks the query of the text. It takes time linear in the text, beside what compiling its patterns takes.
pub fn parse_query(alloc: Global, text: &[u8]) -> Result<CheckedQuery, QueryErr>
    ensures { Checks text.now result }
{
    match parse_tree(alloc, text) {
        Ok(tree) => Ok(CheckedQuery {
            set: check(alloc, &tree)?,
        }),
        Err(QuerySyntaxErr::Syntax) => Err(QueryErr::Syntax),
        Err(QuerySyntaxErr::Memory) => Err(QueryErr::Memory),
    }
}
