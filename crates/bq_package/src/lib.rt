//! The calls of build functions and of rules come in, with their arguments as values; what they declare goes out, a package with its
//! targets.
//!
//! The promise: [`BuildHost`] carries out each call as its meaning says (`meaning`, `specs/Calls.antt`), unless memory
//! runs out. A refused call leaves the package as it was. While no BUILD file is evaluated, every call is F70. A rule
//! that a .bzl file declares is called as a rule of the schema is: both are a kind and a class, and there is one
//! definition of what such a call declares.
//!
//! In reading order:
//!
//! - `place`: the package of a BUILD file that is being evaluated, in its workspace;
//! - `bound`: the arguments that parameters take, by their types;
//! - `glob`: calls of `glob`;
//! - `files`: calls of `exports_files`;
//! - `groups`: calls of `package_group`;
//! - `rules`: calls of rules;
//! - `building`: what a host keeps;
//! - `host`: the host of a BUILD file's evaluation;
//! - `laws`: what holds of all calls.
#![tactic(auto)]

mod bound;
mod building;
mod files;
mod glob;
mod groups;
mod host;
mod laws;
mod place;
mod rules;

pub use building::BuildHost;
pub use laws::{
    calls_outside_are_refused, defaults_are_read_in_the_package, in_build_is_said,
    rules_declare_alike, what_is_declared_stays,
};
