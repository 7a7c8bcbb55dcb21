//! The methods of strings: the bytes of a string and the arguments of a call come in; a value, the strings of a list, or
//! a fault goes out.
//!
//! The promise: each method returns exactly what its equation says of the string, the arguments and the state of the
//! machine, unless memory runs out. bq_builtin_methods finds methods by their names, and refuses the calls that have
//! another number of arguments than a method takes.
//!
//! Of the arguments, the types come first (F40), then F57 or F59, and F54 last, before memory for the text is asked
//! for.
//!
//! In reading order:
//!
//! - `argument`: the arguments by their types, and the region that two of them name;
//! - `searches`, `affixes`: what is found in a region, and at its ends;
//! - `strips`, `cuts`: what is removed from the ends, and the parts of a string;
//! - `longer`: what makes longer strings;
//! - `format`: what fills a format.
#![tactic(auto)]

mod affixes;
mod argument;
mod cuts;
mod format;
mod longer;
mod searches;
mod strips;

pub use affixes::{EndMethod, ends};
pub use cuts::{Side, new_strings, partition, split, splitlines};
pub use format::format_text;
pub use longer::{joined, replace};
pub use searches::{SearchMethod, search};
pub use strips::{StripMethod, stripped};
