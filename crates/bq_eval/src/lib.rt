//! A resolved file, the frozen modules that it loads and a host come in; the frozen module, or why it failed, goes out.
//! What the evaluator asks for on the way is carried out here, on a machine and the host.
//!
//! The promise: what [`eval_module`] returns is what the meaning of the file says (`module_run` and `ended`,
//! `specs/Module.antt`), whatever the host, unless memory runs out: the values of its globals and its cells, frozen, or
//! the first fault; what it printed; and what the host keeps then. An [`Evaluation`] is a `Runtime` of bq_eval_rules
//! whose meaning is `primitives` (`specs/Runtime.antt`), one line for each operation: the operators of
//! bq_builtin_operators, the walks of bq_builtin_machine, the methods and functions of the language, the functions that
//! declare rules and the rules, and the functions of the host, which are called by their names.
//!
//! In reading order:
//!
//! - `comparing`: comparisons;
//! - `augmenting`: augmented assignments;
//! - `making`: lists and dicts that are being made;
//! - `passing`: the arguments of a call, one after another;
//! - `unpacking`: the elements for a number of targets;
//! - `evaluation`: the operations;
//! - `module`: a file that is evaluated, with what it loads;
//! - `outcome`: how an evaluation ends;
//! - `loads`: what a file has before its first statement runs: the cells of what it loads, and the loaded names that it
//!   binds itself;
//! - `run`: the statements of a file;
//! - `ending`: the outcome of a file that ran to its end, and of one that stopped;
//! - `evaluate`: the evaluation of a file.
#![tactic(auto)]

mod augmenting;
mod comparing;
mod ending;
mod evaluate;
mod evaluation;
mod loads;
mod making;
mod module;
mod outcome;
mod passing;
mod run;
mod unpacking;

pub use evaluate::eval_module;
pub use evaluation::{Evaluation, RuleNames};
pub use module::ResolvedModule;
pub use outcome::{EvaluatedFile, FileOutcome};
