//! Files and statements: the tokens of a file come in; the trees of its top-level statements go out, or the fault of
//! the first one that is faulty.
//!
//! The promise: [`parse`] answers just what `statements_of` of `bq_parse_grammar` (`specs/Parses.antt`) gives, out of
//! memory aside: the one list of trees, or the one fault, that `Parses` relates to the tokens. A law of `bq_parse_laws`
//! says that there is one such result for every list of tokens (`each_file_has_one_reading`). So do [`statement`] and
//! [`top_level`] answer what the reading functions of their names give, in `bq_parse_grammar`
//! (`specs/ReadingStatements.antt`). Expressions are read by `bq_parse_expression`, whose head says how a contract sees
//! the tokens and how a loop is proved.
//!
//! A file is cut into top-level statements, and each is judged by itself: F11 where too many brackets and indents are
//! open, else F10 where the grammar has no tree, else F12 where it has one that the language leaves out, else F13 where
//! it may not stand in a BUILD file. The fault names the statement's first line. What is left out is looked for among
//! the tokens, once there is a tree; nested functions are looked for in the tree.
//!
//! Each production is a function of the name that its reading function has, with the production above it. Those over
//! the statements of a block are methods of `Blocks`, which holds the reader of these, so that each is proved by
//! itself; only [`statement`] closes the circle. `depth` is one more than how many brackets and indents may still be
//! opened.
//!
//! In reading order:
//!
//! - `targets`: the target that an expression is: the left side of an assignment is read as an expression, then `=`;
//! - `parameter_list`: the parameters of a function;
//! - `loads`: what a file takes from another one;
//! - `small`: the statements without a block, and a line of them;
//! - `blocks`: the statements with blocks;
//! - `statements`: all statements;
//! - `pieces`: where each top-level statement begins;
//! - `nesting`: how many brackets and indents are open;
//! - `left_out`: what the language leaves out, and what a BUILD file may not have;
//! - `nested`: functions in functions;
//! - `verdict`: what a top-level statement reads as;
//! - `file`: all statements, one after another. A [`ParsedFile`] promises how deep its trees are.
#![tactic(auto)]

mod blocks;
mod file;
mod left_out;
mod loads;
mod nested;
mod nesting;
mod parameter_list;
mod pieces;
mod small;
mod statements;
mod targets;
mod verdict;

pub use file::{ParsedFile, parse};
pub use statements::{statement, top_level};
