//! What a checked query says, with its words and numbers read, and its variables and functions known.

use bq_query_function::Call;
use bq_query_lex::TargetPattern;
use bq_query_parse::SetOperator;
use sqlite_items::{Boxed, Items};

/// A set of targets, made of sets. Chains are lists, so that it is no deeper than the tree of its query. Contracts see
/// its formula.
#[cycle(query)]
#[derive(Drop)]
pub enum SetExpr {
    /// The targets that patterns name: a word alone, or those of `set(word ..)`.
    Named(Items<TargetPattern>),
    /// `$name`: what the let with this number binds, of those around it, of which the outermost is 0.
    Variable(usize),
    /// `let name = value in body`
    Let(Boxed<SetExpr>, Boxed<SetExpr>),
    /// A set and at least one operation on it, from left to right.
    Chain(Boxed<SetExpr>, Items<ChainStep>),
    /// A call of a function of one set.
    One(Call, Boxed<SetExpr>),
    /// A call of a function of two sets.
    Two(Call, Boxed<SetExpr>, Boxed<SetExpr>),
}

/// A further operand of a chain.
#[cycle(query)]
#[derive(Drop)]
pub struct ChainStep {
    pub operator: SetOperator,
    pub operand: SetExpr,
}
