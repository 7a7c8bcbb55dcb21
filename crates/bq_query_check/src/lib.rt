//! The bytes of a query come in; a query that can be answered goes out, or its error, with no target known yet.
//!
//! The promise: [`parse_query`] returns what the one tree of the text says, with its words and numbers read, its
//! variables and functions known and its patterns found to compile (`specs/FormulaOf.antt`), or the error that comes
//! first: Q1 if the text has no tree, else the first in the order of the text of Q2, Q3, Q4, Q7 and Q8
//! (`specs/Checked.antt`). What must hold of a tree is made of its parts, each by itself (`specs/Verdict.antt`): a
//! word, a variable, a function with a number of arguments, and a part that has to be a word and isn't, each have the
//! fault that the definition says, at one place that of the least number.
//!
//! Which patterns are refused says the grammar of `regex`; whether one that the grammar reads is too big, `regex` alone
//! decides.
//!
//! In reading order:
//!
//! - `leaves`: words, variables and the names of functions, each by itself;
//! - `first`: the faults at the first token of a part;
//! - `formula`: what a checked query says;
//! - `checked`: checked queries;
//! - `number`: numbers of edges;
//! - `arguments`: arguments that are one word;
//! - `call`: calls of functions, once their arguments are read;
//! - `names`: the names that lets bind;
//! - `trees`: trees, each with what it says;
//! - `parse`: whole texts.
#![tactic(auto)]

mod arguments;
mod call;
mod checked;
mod first;
mod formula;
mod leaves;
mod names;
mod number;
mod parse;
mod trees;

pub use checked::CheckedQuery;
pub use first::no_word;
pub use formula::{ChainStep, SetExpr};
pub use leaves::{function, is_number, variable};
pub use parse::parse_query;
