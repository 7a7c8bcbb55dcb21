//! A value, the type of an attribute and a package come in; the typed value that it is goes out, or its fault. The JSON
//! of typed values is here too, and of all that facts have; so is what a host is, which carries out the functions that the language leaves to the
//! tool around it, and what predeclared names stand for.
//!
//! The promise: [`written_as`] and [`typed`] return exactly what the definitions of their names say
//! (`specs/Types.antt`, `specs/Values.antt`), out of memory aside; [`value_as`] is the one after the other. A [`Host`]
//! carries out a call of a build function or of a rule, of the schema or of a .bzl file, as its meaning says
//! (`specs/Host.antt`); a call that it refuses leaves what it keeps as it was. That it refuses calls for faults of
//! evaluation alone, the type of its answers says (`EvalErr` of bq_value). The evaluator is proved over any host: what
//! one keeps, such as a package and its targets, is beside the state of the machine (`on_machine` of
//! bq_builtin_machine), and the evaluator hands it on unseen.
//!
//! One definition is for all that takes typed values: the call of a rule (F73 for a value of another type) and the
//! default of an attribute (F40), so the caller names that fault. What is *written* is of its type, and its labels are
//! still texts. They are read in the package of the file that is evaluated, which a default leaves to its host: all of
//! them (F78, F75), and then it is checked whether one crosses into another package (F37). Only texts of up to 22 bytes
//! are copied.
//!
//! JSON has strings of code points, and a workspace has names of bytes. Bytes are UTF-8 as a rule, and then the string is
//! their text. A byte of what is no UTF-8 is one of the code points U+DC80 to U+DCFF, as in Python (`surrogateescape`): no
//! character has these, so they can be told apart, and `\udc80` is valid JSON. A string's text reads as exactly the bytes
//! that were written, whatever they are, and is in one line ([`string_reads_back`], [`string_is_one_line`]); the text of a
//! whole value reads as that value, and as no other ([`values_read_back`], [`one_reading`]).
//!
//! In reading order:
//!
//! - `json_escape`, `json_string`: the escape of a code point; strings as JSON;
//! - `json_parts`: numbers, truth values, lists of strings, and the parts of objects;
//! - `json_laws`: what a reader finds in a string, and in a value;
//! - `parameters`: the arguments that parameters take;
//! - `scope`: a package among the others, and which labels cross into another one;
//! - `texts`: strings, and lists of strings, in values;
//! - `plain_names`: names that one pass over their bytes shows to be the package's own;
//! - `label_texts`, `plain_lists`: the labels that texts stand for; lists of plain names in values, and their labels;
//! - `readings`: integers and truth values in values;
//! - `written`: a value as one of a type, before its labels are read;
//! - `json`: typed strings and labels as JSON;
//! - `types`: how the value of each type is taken, and its JSON: a line for each type, and no line for one type
//!   elsewhere;
//! - `values`, `type_laws`: typed values; which values an attribute of each type takes;
//! - `host`, `built_ins`, `built_in_laws`: what a host is; the values of predeclared names; what holds of built-in
//!   functions.
#![tactic(auto)]

mod built_in_laws;
mod built_ins;
mod host;
mod json;
mod json_escape;
mod json_laws;
mod json_parts;
mod json_string;
mod label_texts;
mod parameters;
mod plain_lists;
mod plain_names;
mod readings;
mod scope;
mod texts;
mod type_laws;
mod types;
mod values;
mod written;

pub use built_in_laws::each_is_what_it_is_called;
pub use built_ins::BuiltIns;
pub use host::Host;
pub use json::push_labels;
pub use json_laws::{
    examples, objects_are_texts, one_reading, string_is_one_line, string_is_utf8,
    string_reads_back, values_read_back,
};
pub use json_parts::{
    close_object, next_key, open_object, push_bool, push_int, push_key, push_number, push_strings,
};
pub use json_string::push_string;
pub use label_texts::{TextKind, label, labels};
pub use parameters::argument;
pub use scope::PackageScope;
pub use texts::{text_in, texts_in};
pub use type_laws::{each_type_refuses_other_values, each_type_takes_its_values};
pub use types::{push_value, written_as};
pub use values::{typed, value_as};
pub use written::Written;
