//! The bytes of a query come in; its tree goes out, or that it has none. The grammar of queries, which tokens are which
//! query, is here too.
//!
//! The promise: [`parse_tree`] returns the one tree that the grammar relates to the tokens of the text, and refuses a
//! text exactly if it has none, out of memory aside.
//!
//! `specs/Grammar.antt` is the grammar, a case for each production under its production, by the Bazel query reference.
//! It relates tokens with their spellings (`specs/Lexeme.antt`) to trees: from the tokens `ts` a phrase takes those
//! before `rest`. Only parentheses and lets have queries inside a query, so the grammar comes in layers, by how many of
//! them are nested. `specs/Reading.antt` is reading by recursive descent, a function for each production, which the
//! parser follows. The laws say that both agree: `Agrees first ends X r` (`proofs/Agrees.antt`) says of a phrase `X`
//! and a reader `r` that each `X` begins with a token of the class `first`, that what `r` reads is an `X`, and that
//! each `X` that a token of the class `ends` follows is read whole; each production has such a fact, which follows from
//! those of its parts.
//!
//! What a contract sees: `QueryTokens` is the list of the tokens from a place on, with their spellings, so a function
//! that reads says in one line what it makes of `tokens.old`, and that `tokens.new` is what is left. Each production is
//! a function with the name of its reading function. Those over the queries inside a parenthesis or let are methods of
//! `QueryGrammar`, which holds the reader of these, so that each is proved by itself; only `query` closes the circle.
//! Chains, arguments and sets are read by loops, so nothing but parentheses and lets takes stack.
//!
//! PROOF: a tree that is held while more is read is in a box: if the rest is refused, dropping a box is one step, and
//! dropping a tree in place is one for each of its variants.
//!
//! In reading order:
//!
//! - `tree`: the trees of queries;
//! - `refusal`: why there is none;
//! - `grammar_laws`: what is read is what the grammar has;
//! - `tokens`: a place in the tokens, and the steps that every production is made of;
//! - `grammar`: the productions;
//! - `parse`: whole texts;
//! - `text_laws`: a text has one tree.
#![tactic(auto)]

mod grammar;
mod grammar_laws;
mod parse;
mod refusal;
mod text_laws;
mod tokens;
mod tree;

pub use grammar_laws::{each_query_is_read, one_tree_of_a_query, what_is_read_is_a_query};
pub use parse::parse_tree;
pub use refusal::QuerySyntaxErr;
pub use text_laws::one_tree_of_a_text;
pub use tree::{Query, SetOperation, SetOperator};
