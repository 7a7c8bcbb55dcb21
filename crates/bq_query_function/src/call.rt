//! Calls of functions.

use crate::functions::QueryFunction;
use bq_base::Bytes;
use bq_query_pattern::QueryPattern;

/// A function with its arguments that aren't sets.
#[derive(Drop)]
pub struct Call {
    pub function: QueryFunction,
    pub attribute: Option<Bytes>,
    pub pattern: Option<QueryPattern>,
    pub limit: Option<usize>,
}
