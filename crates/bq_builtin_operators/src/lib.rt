//! Operators over values, and changes of lists and dicts in place: operands come in; results go out, with the steps of
//! a machine, or the machine in which a list or dict is changed.
//!
//! The promise: each public call does exactly what the definition of its name does to the machine, unless memory runs
//! out (`specs/Operate.antt`, `specs/InPlace.antt`). An evaluator calls one of them for each operator, and does no
//! arithmetic of its own. A list or dict that is changed stays the same list or dict.
//!
//! The order of faults in one operation is F40, for changes F47 and F48, then those of visits to values and keys (F53,
//! F55, F45), then F41 to F44 and F57, and last F54. The length of the result of `+` and `*` is known before memory is
//! asked for. What is put in is read before the list or dict is changed, so a list can be extended by itself.
//!
//! In reading order:
//!
//! - `operand`: operands by their types;
//! - `integers`: operators between integers, and before one;
//! - `sequence`: lists, tuples and strings that are joined, repeated and sliced;
//! - `sum`: `+` of values;
//! - `product`: `*`;
//! - `remainder`: `%`;
//! - `union`: `|`;
//! - `walks`: the walks of comparisons, with all their levels;
//! - `membership`: `in` and `not in`;
//! - `comparing`: comparisons;
//! - `subscript`: the item at an index or a key;
//! - `slicing`: slices;
//! - `operate`: a call for each kind of operator;
//! - `in_place`: elements and pairs that are put in, and assignments to an index or a key;
//! - `laws`: what the definitions say together.
#![tactic(auto)]

mod comparing;
mod in_place;
mod integers;
pub mod laws;
mod membership;
mod operand;
mod operate;
mod product;
mod remainder;
mod sequence;
mod slicing;
mod subscript;
mod sum;
mod union;
mod walks;

pub use bq_builtin_machine::Machine;
pub use bq_parse_grammar::Operator;
pub use bq_value::{Dict, EvalErr, Key, Node, Value};
pub use in_place::{extend, put_pairs, set_index, unite};
pub use operand::{dict_in, int_of, list_in};
pub use operate::{binary, compare, index, slice, unary};
