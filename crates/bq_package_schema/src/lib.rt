//! The text of a schema comes in; the rules that it declares go out, with their typed attributes, or its first bad line.
//!
//! The promise: [`read_schema`] returns exactly what the lines of the text declare (`specs/Reading.antt`). A text that
//! is no schema has fault F80 at its first bad line, and that one is returned.
//!
//! In reading order:
//!
//! - `line`: what one line of a schema says;
//! - `schema`: the rules that a schema declares;
//! - `draft`: the rules declared so far, and what a further line adds to them;
//! - `read`: the lines of a whole text;
//! - `standard`: the schema of a workspace without a file of its own;
//! - `laws`: what holds of every schema, said of its lines and names.
#![tactic(auto)]

mod draft;
mod laws;
mod line;
mod read;
mod schema;
mod standard;

pub use laws::{
    attributes_are_of_a_rule, each_line_has_a_form, faults_name_the_first_bad_line, names_differ,
};
pub use read::read_schema;
pub use schema::{Schema, rule_names};
