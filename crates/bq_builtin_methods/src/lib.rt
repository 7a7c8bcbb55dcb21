//! Calls of methods, and the methods of lists and dicts: a receiver, the name of a method and arguments come in; the
//! result of the call goes out: a value, or a fault.
//!
//! The promise: [`call_method`] does exactly what the equation of the method says of the receiver, the arguments and
//! the state of the machine, unless memory runs out (`specs/Call.antt`), and each method of a list or dict what the
//! action of its name does (`specs/List.antt`, `specs/Dict.antt`): the answer, the list or dict then, the steps, or the
//! fault.
//!
//! Strings, lists and dicts have methods, each type those of its own table (`specs/Methods.antt`). A row has the name
//! of the method, which arguments it takes, and what a call of it gives. A name that isn't in the table is F58,
//! whatever the arguments are; then another number of arguments than the row has, or one by name, is F52: only `update`
//! of dicts takes named ones. The methods of strings are carried out by `bq_builtin_string_methods`.
//!
//! In reading order:
//!
//! - `arguments`: how many arguments there are, and of which types;
//! - `search`: the first element that is equal to a value;
//! - `pairs_given`: the pairs that `update` of dicts and the function `dict` are given;
//! - `list`: the methods of lists, and the changes that they make;
//! - `dict`: those of dicts;
//! - `collection_laws`: what the definitions of these say together;
//! - `row`: the row of a name, and which arguments a method takes;
//! - `string_table`: the table of strings;
//! - `list_table`: that of lists;
//! - `dict_table`: that of dicts;
//! - `call`: the call;
//! - `table_laws`: what the definitions of tables and calls say together.
#![tactic(auto)]

mod arguments;
mod call;
pub mod collection_laws;
pub mod dict;
mod dict_table;
pub mod list;
mod list_table;
mod pairs_given;
mod row;
mod search;
mod string_table;
pub mod table_laws;

pub use arguments::elements_in;
pub use call::call_method;
