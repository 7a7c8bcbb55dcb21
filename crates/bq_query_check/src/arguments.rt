//! Arguments that are one word: patterns, names of attributes, and numbers of edges.

ghost use Rattle.bq_query_function.specs.declared.signature.QueryArgumentKind.TheVariants as kind;
ghost use Rattle.bq_query_check.specs.Verdict.{argument, part_of};
ghost use Rattle.bq_query_check.specs.Checked.{Reads};
ghost use Rattle.bq_query_check.specs.FormulaOf.{IsNumber, IsWord};

use crate::first::no_word;
use crate::leaves::is_number;
use crate::number::number;
use bq_base::Bytes;
use bq_query_lex::QueryErr;
use bq_query_parse::Query;
use bq_query_pattern::{PatternErr, QueryPattern};
use std::alloc::Global;

/// Reads a regular expression: Q4 if it is refused.
pub fn pattern(alloc: Global, names: &[Bytes], query: &Query) -> Result<QueryPattern, QueryErr>
    ensures { Reads (argument kind.Pattern (part_of query.now) names.now) (IsWord query.now) result }
{
    match query {
        Query::Word(text) => match QueryPattern::new(alloc, text) {
            Ok(pattern) => Ok(pattern),
            Err(PatternErr::BadRegex) => Err(QueryErr::BadRegex),
            Err(PatternErr::Memory) => Err(QueryErr::Memory),
        },
        _ => Err(no_word(alloc, names, query)),
    }
}

/// Reads the name of an attribute.
pub fn attribute(alloc: Global, names: &[Bytes], query: &Query) -> Result<Bytes, QueryErr>
    ensures { Reads (argument kind.Attribute (part_of query.now) names.now) (IsWord query.now) result }
{
    match query {
        Query::Word(text) => Ok(text.share()?),
        _ => Err(no_word(alloc, names, query)),
    }
}

/// Reads a number of edges: Q8 if it isn't 1 to 9 digits.
pub fn limit(alloc: Global, names: &[Bytes], query: &Query) -> Result<usize, QueryErr>
    ensures { Reads (argument kind.Number (part_of query.now) names.now) (IsNumber query.now) result }
{
    match query {
        Query::Word(text) => {
            if is_number(text.as_slice()) {
                Ok(number(text.as_slice()))
            } else {
                Err(QueryErr::Arguments)
            }
        }
        _ => Err(no_word(alloc, names, query)),
    }
}
