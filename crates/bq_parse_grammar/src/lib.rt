//! The grammar of BUILD and .bzl files, the trees of statements, and the steps that a parser is made of: a place in the
//! tokens of a text comes in; what comes next, and the place after it, go out.
//!
//! The promise: each step of [`Tokens`] answers just what the reading function of its name gives of the tokens from the
//! place on, out of memory aside. The laws say that reading and the grammar agree on expressions: what is read the
//! grammar has, what it has is read, and tokens without `lambda` have one tree. Those of statements and files are in
//! `bq_parse_laws`.
//!
//! `specs/Grammar.antt` (expressions) and `specs/Statements.antt` are the grammar, a case for each production, by the
//! Starlark specification, "Grammar reference": from the tokens `ts`, with their spellings (`specs/Lexeme.antt`), a
//! phrase takes those before `rest`. Only brackets and indents let a phrase be in one of its own kind, so the grammar
//! comes in layers; `specs/Phrases.antt` has its repetitions, `{ X }` and `[ X { ',' X } [','] ] close`. A `lambda` is
//! a test that takes any tokens. `specs/Reading.antt` and `specs/ReadingStatements.antt` are reading by recursive
//! descent, a function for each production in the same order, which the parser of `bq_parse` is; the left side of an
//! assignment is read as an expression and turned into a target (`specs/Targets.antt`). A file is cut into top-level
//! statements (`specs/Pieces.antt`), of which each reads as `specs/Verdict.antt` says, and the file as
//! `specs/Parses.antt` does.
//!
//! What a contract sees: an [`Items`] is the list of its items and a [`Boxed`] the value in it, so that a tree is plain
//! data. [`Tokens`] is the list of the tokens from the place on: a function that reads says in one line what it makes
//! of `tokens.old`, and that `tokens.new` is what is left.
//!
//! How the proofs go: `Agrees first ends X r` (`proofs/Agrees.antt`) says of a phrase `X` and a reader `r` that each
//! `X` begins with a token of the class `first`, that what `r` reads is an `X`, and that each `X` that a token of the
//! class `ends` follows is read whole, or cut at a `lambda`. Each production has one such fact, made of those of its
//! parts; `proofs/Classes.antt` computes what must hold of the classes. `proofs/Unnamed.antt` shows that a positional
//! argument never looks like a named one, `proofs/Keeping.antt` that a reading leaves just the tokens after those it
//! took.
//!
//! In reading order:
//!
//! - `items`: a list that contracts see as its items, which can be written in place;
//! - `boxed`: a box, in the same way;
//! - `tree`: the trees of expressions, targets and statements;
//! - `refusal`: why there is no tree;
//! - `literals`: which words may name something;
//! - `operators`: which operator a token is;
//! - `arguments`: which arguments of a call may follow one another;
//! - `parameters`: which parameters of a function may;
//! - `tokens`: the place in the tokens, and the steps;
//! - `laws`: what holds of the grammar of expressions.
#![tactic(auto)]

mod arguments;
mod boxed;
mod items;
mod laws;
mod literals;
mod operators;
mod parameters;
mod refusal;
mod tokens;
mod tree;

pub use arguments::{Allowed, ArgumentKind};
pub use boxed::Boxed;
pub use items::{Items, at};
pub use laws::{each_test_is_read, one_tree_of_a_test, what_is_read_is_a_test};
pub use literals::is_identifier;
pub use parameters::{AllowedParameters, ParameterKind};
pub use refusal::SyntaxErr;
pub use tokens::Tokens;
pub use tree::{
    Argument, Branch, Choice, Clause, Comparison, ComprehensionFrame, Expr, FileKind, Identifier,
    Load, LoadClause, Nested, Operation, Operator, Pair, Parameter, Referent, SmallKind, SmallStmt,
    Stmt, Suffix, TargetExpr, TopLevel, UnaryOperator,
};
