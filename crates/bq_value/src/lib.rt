//! The store of a running module, modules whose evaluation has ended, and walks over values. Values, and the lists,
//! dicts and rules that a module makes, come in; what each cell holds goes out, while the module runs and once it is
//! frozen, and so do when two values are equal, how they are ordered, what counts as true, and which key a value makes.
//! What other rooms use of the crates below is here too.
//!
//! The promise: a store and a frozen module are finite maps from cells to lists, dicts and rules (`content_at`,
//! `frozen_at`, `specs/Cells.antt`); nothing changes a cell of another module, and freezing keeps every cell and names
//! the rules. Each walk gives exactly the answer or fault of its definition, and the steps that are left.
//!
//! A list that holds itself is a cell whose list has that cell. So freezing a module is no walk over its values: the
//! store of the running module changes its own cells alone, and its cells become those of a [`Frozen`], which has no
//! call that changes one.
//!
//! A walk takes a step for each value, or pair of values, before it looks at it (F53), and looks at 64 levels of
//! values, the outermost being the first (F55). Both come before all that is found there. So a walk ends for a list
//! that holds itself, and needs no stack beyond 64 levels. The definitions recurse on the levels that are left.
//!
//! In reading order:
//!
//! - `shared`: the cells of a frozen module, shared by all that reach it;
//! - `tree`: frozen modules by their numbers, in a tree whose parts are shared;
//! - `modules`: those that a module reaches;
//! - `frozen`: modules whose evaluation has ended;
//! - `store`: the cells of the running module;
//! - `error`: why an evaluation has no answer;
//! - `store_laws`: what the definitions of stores say together;
//! - `equality`: `==`;
//! - `comparison`: `<`, `<=`, `>` and `>=`;
//! - `boolean`: what counts as true;
//! - `key_walk`: the key that a value makes;
//! - `walk_laws`: what the definitions of walks say together.
#![tactic(auto)]

mod boolean;
mod comparison;
mod equality;
mod error;
mod frozen;
mod key_walk;
mod modules;
mod shared;
mod store;
pub mod store_laws;
mod tree;
pub mod walk_laws;

pub use boolean::truth;
pub use bq_value_content::{Body, Content, Dict, copies};
pub use bq_value_datum::{Cell, FunctionValue, Key, Node, Range, Value};
pub use comparison::{less, order};
pub use equality::equal;
pub use error::EvalErr;
pub use frozen::{Frozen, freeze};
pub use key_walk::key_of;
pub use shared::Cells;
pub use store::Store;

/// The most levels of values that a walk looks at, the outermost being the first.
pub const MAX_LEVELS: u32 = 64;
