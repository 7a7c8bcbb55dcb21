//! A load graph comes in, and what evaluates a module with the values of what it loads; the outcome of each module goes
//! out, on one thread.
//!
//! The promise: they are the outcomes that the recursion along loads defines (`specs/Outcome.antt`), over abstract
//! modules. It has exactly one solution, for every graph, with cycles too; the laws say what that is for cyclic
//! modules, for modules that are too deep, for modules with a load that failed, and for all others.
//!
//! The modules are evaluated in load order, each at most once, and no call of a function goes along loads: a long chain
//! of modules takes no more stack than a short one. Modules that are cyclic or too deep, or that load a module without
//! value, aren't evaluated. A value and a fault are kept once, and shared. What a module prints, and the package that a
//! BUILD file makes, are parts of its value and of its fault, as the evaluator decides. A module without loads whose
//! source can't be read is one that evaluates to its own fault, so nothing here speaks of sources.
//!
//! A load graph that changed comes with the outcomes that modules had, and with which modules are unchanged: by the values
//! that their loads had, they evaluate to what they evaluated to. Its outcomes are those of the recursion too, as if there
//! had been no graph before. A module that is unchanged, and whose loads all keep their outcomes, keeps its own; the
//! evaluator is called for the others alone.
//!
//! In reading order:
//!
//! - `outcome`: the outcome of a module;
//! - `outcome_laws`: what the recursion along loads defines;
//! - `watch`: who is notified of each evaluation;
//! - `evaluate`: what evaluates modules;
//! - `shared`: outcomes with shared values;
//! - `imports`: the values of what a module loads;
//! - `module`: the outcome of one module;
//! - `slots`: the outcomes that are known;
//! - `outcomes`: all of them;
//! - `order_laws`: there is one list of outcomes;
//! - `before`: what is known of an earlier load graph;
//! - `same`: whether a module loads what it loaded;
//! - `keep`: the outcomes that are kept;
//! - `again`: all outcomes, where the load graph changed;
//! - `again_laws`: which modules are unchanged.
#![tactic(auto)]

mod again;
mod again_laws;
mod before;
mod evaluate;
mod imports;
mod keep;
mod module;
mod order_laws;
mod outcome;
mod outcome_laws;
mod outcomes;
mod same;
mod shared;
mod slots;
mod watch;

pub use again::{kept_outcomes, outcomes_again};
pub use again_laws::modules_evaluate_as_they_did;
pub use before::PreviousOutcomes;
pub use evaluate::Evaluate;
pub use module::outcome_by;
pub use order_laws::one_list;
pub use outcome::Outcome;
pub use outcome_laws::{
    cyclic_outcome, failed_load_outcome, loaded_outcome, one_solution, outcome_by_the_plan,
    outcome_of_what_it_reaches, too_deep_outcome,
};
pub use outcomes::{complete, outcomes_one_thread};
pub use shared::{SharedOutcome, share, share_value};
pub use slots::{empty_slots, first_at_limit, first_cyclic};
pub use watch::{Unwatched, Watch};
