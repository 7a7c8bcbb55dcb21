//! Expressions: the tokens of a text come in; the tree of the expression that begins there goes out, or why there is none.
//!
//! The promise: [`phrase`] and [`expr_list`] answer just what the reading functions of `bq_parse_grammar` (`specs/Reading.antt`) give, out
//! of memory aside: the tree, with the tokens after it left, or the refusal. The laws of `bq_parse_grammar` say that this is the tree that
//! the grammar relates to the tokens, and that there is none where it is refused as syntax.
//!
//! What a contract sees: `Tokens` of `bq_parse_grammar`, a place in the tokens of a text, is the list of the tokens from there on, with
//! their spellings (`Lexeme`). So a function that reads says in one line what it makes of `tokens.old`, and that `tokens.new` is what is
//! left.
//!
//! Each production is a function of the name that its reading function has, with the production above it. Those over expressions in
//! brackets are methods of `Grammar`, which holds the reader of these, so that each is proved by itself; only [`phrase`] closes the
//! circle. `depth` is how many brackets may be opened; nothing else makes a tree deeper, since chains stand in lists.
//!
//! How a loop is proved: its invariant says that what is left from here, with what was found so far, gives what all gave from the
//! start; `proofs/LoopTurns.antt` has the two lemmas that this takes.
//!
//! A tree that is held while more is read stands in a box, for the proof: where the rest is refused, dropping a box is one step, and
//! dropping a tree in place is one for each of its variants. Generic functions, as those of `steps`, serve the same end: they hold what
//! was read while they look at one more token.
//!
//! In reading order:
//!
//! - `steps`: steps that several productions share;
//! - `variables`: the variables of a `for`;
//! - `grammar`: the reader of what stands in brackets, and lists of it;
//! - `lone`: where a phrase begins and ends;
//! - `operands`, `suffixes`, `binary`: the productions, from what binds tightest;
//! - `phrases`: phrases, which most often are a name, a literal or a primary alone;
//! - `expr`: expressions.
#![tactic(auto)]

mod binary;
mod expr;
mod grammar;
mod lone;
mod operands;
mod phrases;
mod steps;
mod suffixes;
mod variables;

pub use expr::{expr_list, phrase};
pub use steps::{closed, only};
pub use variables::{var, vars};
