//! What is made of many byte strings. Strings, names and the faults of files come in; ropes, sets of names and the lines
//! of faults go out.
//!
//! The promise: each holds just what was put into it, as a contract sees it. A [`Rope`] is the text of all that was
//! appended; a [`NameSet`] the names that were added, each once, in order; and [`FaultLines`] the lines, each once,
//! ascending by the bytes of the file's label, then the line's number, the fault's number and the bytes of the detail,
//! of which there is one order ([`one_order_of_lines`]).
//!
//! Strangers choose names, so those whose hashes collide are found in a tree: no choice of names makes a set slow. What
//! a module printed, and what a fault says, may be long, and a run makes all of its text before it writes the first
//! byte: in a rope a long string is one more owner of it, and not a copy.
//!
//! In reading order:
//!
//! - `rope`: a text in parts, of which the long ones are shared;
//! - `places`: the places of names;
//! - `name_set`: sets of names;
//! - `fault_line`: a fault as a line, and the order of lines;
//! - `line_text`: how a line is printed;
//! - `fault_lines`: the lines of a run.
#![tactic(auto)]

mod fault_line;
mod fault_lines;
mod line_text;
mod name_set;
mod places;
mod rope;

pub use fault_line::{FaultLine, one_order_of_lines};
pub use fault_lines::FaultLines;
pub use line_text::push_detail;
pub use name_set::NameSet;
pub use rope::{Parts, Rope};
