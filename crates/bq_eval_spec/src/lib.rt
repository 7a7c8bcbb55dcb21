//! What a program means: a definition for each production of the language, over trees, whatever their names refer to;
//! and what a program means by names, over trees as they are parsed, and by slots, over trees that are resolved.
//!
//! Definitions, and a law of each kind of environment; no code that runs. An expression means an action (of
//! `bq_builtin_machine`) that returns a value; a statement, one that returns what comes after it and the environment
//! that it leaves; a file, one that returns its own environment. A definition that goes by the form of a node has a
//! case for each form, under `_by`.
//!
//! The idea. A meaning is said for any type of environments, and for any state. How names are read and bound in an
//! environment is a record of a few words (`specs/Environment.antt`); what the rules ask for, operators, lists, walks
//! and built-in functions, is another (`specs/Primitives.antt`). Two environments are of interest. One goes from names
//! to values (`specs/Names.antt`), as the Starlark specification says. The other is a *frame* (`specs/Frame.antt`),
//! which says of each slot which value is in it, if one is, and a name says its slot, which the resolver has written
//! into it (`specs/Slots.antt`): so the evaluator works. A function's frame holds its names; outside functions it is
//! the file's globals.
//!
//! No recursion is endless: expressions and statements go down the layers of a tree, of which a file's have fewer than
//! `max_layers`; calls count down the functions that may still become active; turns go along a list of elements.
//!
//! In reading order, one page of `specs/` for each group:
//!
//! - `Primitives`, `Environment`, `Trees`: what meanings are made of;
//! - `Targets` (assignments), `Comprehensions`, `Expressions`, `Statements`, `Calls`, `Module`: the
//!   language;
//! - `Frame`, `Slots`: resolved files, by slots;
//! - `Names`, `Files`, `ModuleByName`: files as they are parsed, by names.
//!
//! The laws, with their words in pages of `specs/` of the same name:
//!
//! - `frame_laws`: what binding a slot of a frame changes;
//! - `environment_laws`: what binding a name of an environment changes.
#![tactic(auto)]

mod environment_laws;
mod frame_laws;

pub use environment_laws::binding_by_name_is_of_one_name;
pub use frame_laws::binding_is_of_one_name;
