//! The trees of queries.

use bq_base::Bytes;
use sqlite_items::{Boxed, Items};

/// An operator between two queries. All bind equally tightly.
#[derive(Clone, Copy)]
pub enum SetOperator {
    Union,
    Intersect,
    Except,
}

/// What a text says, before it is known whether its names mean anything. The parts of each are in the order of the
/// text. Chains are lists, so a tree is at most twice as deep as the parentheses and lets of its text.
#[cycle(query)]
#[derive(Drop)]
pub enum Query {
    /// A word, without its quotes if it has some.
    Word(Bytes),
    /// `$name`, without `$`.
    Variable(Bytes),
    /// `(query)`
    Parenthesized(Boxed<Query>),
    /// `set(word ..)`
    Set(Items<Bytes>),
    /// `function(argument, ..)`
    Call(Bytes, Items<Query>),
    /// `let name = value in body`
    Let(Bytes, Boxed<Query>, Boxed<Query>),
    /// A query and at least one operation on it, from left to right.
    Chain(Boxed<Query>, Items<SetOperation>),
}

/// A further operand of a chain.
#[cycle(query)]
#[derive(Drop)]
pub struct SetOperation {
    pub operator: SetOperator,
    pub operand: Query,
}
