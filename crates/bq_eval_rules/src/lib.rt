//! The evaluator: resolved trees to values, by the meaning of `bq_eval_spec`, at slots.
//!
//! The promise: each rule does exactly what the definition of its name means (`specs/Acts.antt`): the value, and the
//! state after it, or the fault where the definition has it, unless memory runs out. What is run is the tree that was
//! parsed, with what its names refer to written into it.
//!
//! The form. A rule takes what evaluates the expressions inside as a function value, a field of `Evaluator`, and what
//! runs the statements inside as one of `Runner`; `specs/Nests.antt` and `specs/Runs.antt` say what these promise. So
//! each rule is proved by itself, and only `expr_to`, `run_to` and `call` pass themselves on. The environment is a field
//! too: an `Evaluator` has a context and a frame, since expressions read a frame and change none; a `Reader`, the rules
//! of statements, has a context alone. An operand that is only read is lent by the frame (`operand`). Operators, lists,
//! walks and built-in functions are a `Runtime`, of which a rule knows no more than its meaning.
//!
//! Answers are split (`answer`): an expression returns an integer itself, and leaves any other value in a place that its
//! caller lends, or why there is none. A statement says only what comes after it; what the function returns lies in the
//! same place. `specs/Answers.antt` and `specs/Flows.antt` join the halves, so that contracts speak of whole answers.
//! Rules that integers seldom come to return whole values, and are joined to the others by `settled` and `placed`.
//!
//! In reading order:
//!
//! - `runtime`: what the rules ask for; `stuck`: what a tree means that no file resolves to;
//! - `answer`: answers in two halves;
//! - `context`, `names`, `operand`: the values of names, which stand in frames (bq_eval_frame), and the environment of an
//!   expression;
//! - `evaluator`, `conditions`, `displays`, `operators`, `suffixes`, `comprehensions`, `expressions`: the rules of
//!   expressions;
//! - `places`, `targets`, `reader`: the targets of assignments;
//! - `flow`, `small`, `statements`: the rules of statements;
//! - `parameters`, `filling`, `direct`, `units`, `called`, `taking`, `calls`: calls;
//! - `file`: the top-level statements of a file.
#![tactic(auto)]

mod answer;
mod called;
mod calls;
mod comprehensions;
mod conditions;
mod context;
mod direct;
mod displays;
mod evaluator;
mod expressions;
mod file;
mod filling;
mod flow;
mod names;
mod open_loop;
mod operand;
mod operators;
mod parameters;
mod places;
mod reader;
mod runtime;
mod small;
mod statements;
mod stuck;
mod suffixes;
mod taking;
mod targets;
mod units;

pub use answer::AnswerPlace;
pub use called::{Called, ProgramFunction};
pub use calls::call;
pub use context::{Context, Globals, Program};
pub use evaluator::Evaluator;
pub use file::run_file;
pub use flow::{Ending, Flow};
pub use operand::Operand;
pub use runtime::Runtime;
pub use statements::run_block;
