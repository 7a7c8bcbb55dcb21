//! The faults at the first token of a part of a tree.

ghost use Rattle.std.specs.Prelude.{◌≡◌, ◌≢◌, Some};
ghost use Rattle.bq_query_lex.specs.declared.query_error.QueryErr.TheVariants.{Memory};
ghost use Rattle.bq_query_lex.specs.QueryError.{Meets};
ghost use Rattle.bq_query_check.specs.Verdict as spec;
ghost use Rattle.bq_query_check.specs.Verdict.{part_of};

use crate::leaves::{function, variable, word};
use bq_base::Bytes;
use bq_query_lex::QueryErr;
use bq_query_parse::Query;
use std::alloc::Global;

/// Fails with the fault at the first token, if it has one.
fn at_first(alloc: Global, names: &[Bytes], query: &Query) -> Result<(), QueryErr>
    ensures { Meets ((part_of query.now).at_first names.now) result }
{
    match query {
        Query::Word(text) => word(alloc, text),
        Query::Variable(name) => variable(names, name),
        Query::Call(name, arguments) => {
            let _function = function(name, arguments.len())?;
            Ok(())
        }
        Query::Chain(first, _) => at_first(alloc, names, first.get()),
        Query::Parenthesized(_) => Ok(()),
        Query::Set(_) => Ok(()),
        Query::Let(_, _, _) => Ok(()),
    }
}

/// Returns what is wrong with an argument that has to be one word and isn't: Q8 at its first token.
pub fn no_word(alloc: Global, names: &[Bytes], query: &Query) -> QueryErr
    ensures { result ≢ Memory → spec.no_word (part_of query.now) names.now ≡ Some result }
{
    match at_first(alloc, names, query) {
        Ok(()) => QueryErr::Arguments,
        Err(why) => why,
    }
}
