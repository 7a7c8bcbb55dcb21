//! The state of a module's evaluation, and the actions that change it.
//!
//! The promise: a [`Machine`] is seen as its `State` (`specs/State.antt`), and each call does exactly what the action
//! of its name does to that state, unless memory runs out: it returns a value and leaves the state after it, or says
//! why the program stops.
//!
//! An *action* (`specs/Action.antt`) goes from a state to a value and a state, or to a `Stop`: the fault, the line that
//! was running, the message of `fail`, and what was printed by then. Actions are joined one after another by `>>=`.
//! They work on any state: what changes a machine alone is an action on a `State`, and where a host has a state beside
//! it, `on_machine` makes it one on both. `Does` and `HostDoes` say in a contract that a call did what an action does.
//!
//! In reading order:
//!
//! - `machine`: the state; steps, prints, `fail`, the line that is running;
//! - `walks`: equality, order, texts and keys, with the machine's steps;
//! - `cells`: lists, dicts and rules: how they are made, what they hold, and whether they may be changed;
//! - `range_walk`, `iteration`, `walk`: the elements of an iterable, and walks over them;
//! - `calls`: which functions are active;
//! - `args`, `parameters`, `binding`: what a call passes, what a function takes, and which argument goes to which parameter;
//! - `laws`: what the definitions say together;
//! - `refusal_laws`: a list of checks finds the first fault that one of them finds, and no fault if none finds one. Laws
//!   name the order of faults of each operation by such a list (`specs/Refusals.antt`).
#![tactic(auto)]

mod args;
mod binding;
mod calls;
mod cells;
mod iteration;
pub mod laws;
mod machine;
mod parameters;
mod range_walk;
mod refusal_laws;
mod walk;
mod walks;

pub use args::Args;
pub use binding::{Bound, MAX_SEARCHED, bind, has_value};
pub use bq_value::copies;
pub use calls::MAX_ACTIVE;
pub use iteration::{Elements, keys_of, values_of};
pub use machine::Machine;
pub use parameters::{Signature, SingleParameter};
pub use refusal_laws::the_first_fault_is_found;
pub use walk::{ElementWalk, next_key, next_value};
