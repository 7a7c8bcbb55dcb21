//! A parsed file comes in, by value; the same trees go out as a resolved file, with what each name refers to written
//! into them, or the first fault of its names in the order of the text, F20 to F24.
//!
//! The promise: [`resolve`] answers just what `resolved` of `bq_resolve_scope` (`specs/Files.antt`) gives, out of
//! memory aside; the head of that crate says what scopes are. So does each rule: where it succeeds, the tree that is
//! there now is just what the definition of its name gives for the tree as it was; else its fault is the fault there.
//! Of a tree with a fault no more is said: its file is refused.
//!
//! What is written: the referent of each name, and of each comprehension whether its slots are its own. `native.f(..)`
//! and `attr.f(..)` keep their form: both words refer to the member `f`. Nothing else of a tree changes, and no tree is
//! copied: the statements of a function are resolved where they are, and then the function takes them.
//!
//! What a contract sees: a [`Walk`] is what was passed so far (`Passed`): the slots of the frame, the names that the
//! file bound and loaded, its functions and its loads. So a rule says in one line what it makes of `walk.old`, which
//! tree is there then, and that `walk.new` is what was passed (`Writes`).
//!
//! Each rule is a function of the name that its definition has. Those over the expressions inside are methods of
//! [`Rules`], those over the statements of a block methods of `BlockResolver`; each holds the resolver of these, so
//! that each rule is proved by itself, and only [`expr_to`] and `stmt_to` close the circles. `depth` is how many layers
//! of a tree are looked at.
//!
//! In reading order:
//!
//! - `scope`: where names are looked up;
//! - `walk`: what is carried along a file;
//! - `identifier`: names that are bound;
//! - `rules`: the resolver of the expressions inside, and lists of them;
//! - `suffixes`: what is done to an operand;
//! - `primary`: operands, among them `native.NAME(..)` and `attr.NAME(..)`;
//! - `targets`: targets of assignments and loops;
//! - `comprehensions`: comprehensions;
//! - `expression`: all forms of expressions;
//! - `statement_parts`: the expressions and the targets of statements;
//! - `load`: what a file takes from other files;
//! - `small`: the statements without a block, and a line of them;
//! - `blocks`: the statements with blocks;
//! - `statements`: all statements of functions;
//! - `parameters`: the parameters of a function, and their defaults;
//! - `functions`: functions, and the `def`s that make them;
//! - `outside`: what is outside functions;
//! - `file`: the file.
#![tactic(auto)]

mod blocks;
mod comprehensions;
mod expression;
mod file;
mod functions;
mod identifier;
mod load;
mod outside;
mod parameters;
mod primary;
mod rules;
mod scope;
mod small;
mod statement_parts;
mod statements;
mod suffixes;
mod targets;
mod walk;

pub use expression::expr_to;
pub use file::{loads, resolve};
pub use identifier::{bound_at, fault_of};
pub use rules::Rules;
pub use scope::Scope;
pub use walk::Walk;
