//! Laws of the grammar of `bq_parse_grammar`: what statements and files have to do with their reading,
//! and trees with the tokens that they are read from.
//!
//! In: nothing; the functions do nothing, and their contracts are the laws. The promise: for every list
//! of tokens the reading functions of statements find just the trees that the grammar relates to them,
//! `verdict` is the only result that the order of faults allows for a top-level statement, and a file is
//! cut and read in one way, so the parser of `bq_parse` has only to be these functions. A tree loses
//! none of its tokens and keeps their order; of tokens that the verdict lets pass it holds nothing that
//! the language leaves out, and it is no deeper than 913.
//!
//! By subject:
//!
//! - `statements`: how statements and files are read. As in `bq_parse_grammar`, each production
//!   has a fact `Agrees first ends X r`. An assignment is read as an expression first, so
//!   `proofs/Targets.antt` shows that the targets of the grammar are the expressions that `target_to`
//!   takes for targets, both ways. `(x) += 1` is no augmented assignment: `proofs/Ending.antt` shows
//!   that the last token before the operator says so, since a reading leaves just the tokens that follow
//!   those it took. Small statements are in `Loads` and `Small`, parameters in `Parameters`, blocks and
//!   layers in `Blocks`; `Plain` shows that a reading stops at `lambda` only where one is among the
//!   tokens; `Verdicts` and `Cutting` are about files;
//! - `trees`: what trees write, what they don't hold, and how deep they are. `specs/Parts.antt`
//!   says what each node of a tree writes, its own tokens and its children, and `specs/Writes.antt`
//!   which tokens such parts are written as. `Tells f X` (`proofs/ExpressionWriting.antt`) says of a
//!   phrase `X` that whatever may be written as the tokens after it, its tree and that may be written as
//!   the tokens from it on; each production has one such fact. `proofs/Layers.antt` has what a made node
//!   opens to, `proofs/Operators.antt` reads the tables of operators backwards; `StatementWriting` and `FileWriting`
//!   are the same of statements and files. `specs/LeftOut.antt` and `specs/Depth.antt` are folds over
//!   trees: what is left out is found by induction on what is written (`proofs/Left.antt`), and
//!   `Within f n X` (`proofs/ExpressionDepths.antt`, `StatementDepths`) says of a phrase that its trees are at most `n`
//!   deep.
#![tactic(auto)]

mod statements;
mod trees;

pub use statements::{
    assignments_have_targets, each_file_has_one_reading, each_statement_is_read,
    one_tree_of_a_statement, one_verdict, pieces_of_a_file, what_is_read_is_a_statement,
};
pub use trees::{
    a_file_is_what_its_statements_write, a_statement_writes_its_tokens,
    an_expression_writes_its_tokens, no_tree_holds_what_is_left_out, no_tree_is_deeper,
    what_is_left_out_is_in_the_tree,
};
