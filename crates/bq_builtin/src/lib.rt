//! A built-in function, its arguments and the state of the machine come in; the result of the call goes out: a value, a
//! new list, a text that is printed, or a fault.
//!
//! The promise: `call_function` does exactly what the equation of the function says of the arguments and the state of
//! the machine, unless memory runs out.
//!
//! Arguments are positional; `start` of `enumerate` and `reverse` of `sorted` may have their names too, and `sep` of
//! `print` has to. Other arguments than a function takes are F52, before all other faults; then come those of types
//! (F40) and values (F41, F57), and F54 last, before memory for a long list is asked for. Ranges aren't walked where a
//! formula has the answer: the time of `len`, `all`, `any`, `max` and `min` of a range doesn't depend on its length.
//!
//! In reading order:
//!
//! - `arguments`: which arguments a function takes;
//! - `elements`: the elements of arguments;
//! - `truths`: `all`, `any` and `bool`;
//! - `integers`: `int`, `len` and `range`;
//! - `choosing`: `max`, `min` and `sorted`;
//! - `sequences`: `list`, `tuple`, `reversed` and `enumerate`;
//! - `column`, `zip`: `zip`, over elements where they are;
//! - `texts`: `type`, `str`, `repr`, `print` and `fail`;
//! - `call`: the call, by the place of the function in the table of `specs/Call.antt`;
//! - `laws`: what the definitions say together.
#![tactic(auto)]

mod arguments;
mod call;
mod choosing;
mod column;
mod elements;
mod integers;
pub mod laws;
mod sequences;
mod texts;
mod truths;
mod zip;

pub use call::call_function;
