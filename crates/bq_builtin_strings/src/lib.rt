//! What operators and methods make of integers, of places in lists and strings, and of bytes: integers, ranges, indices
//! and the bytes of strings come in; results, places, parts, words, lines and other cases go out.
//!
//! The promise: each call gives exactly the answer or the fault of its definition. None of those of integers, ranges
//! and places takes memory, and none walks a range; those of bytes take time proportional to them. Letters and digits
//! are those of ASCII.
//!
//! In reading order:
//!
//! - `integer`: arithmetic of integers of 64 bits;
//! - `division`: quotients that are rounded down, and remainders;
//! - `shift`: products and quotients by powers of two;
//! - `length`: how long what is joined or repeated is;
//! - `place`: the places of an index and of a searched region;
//! - `slice`: the places that a slice takes;
//! - `range`: the elements of a range;
//! - `number_laws`: what these definitions say together;
//! - `search`: where a text occurs in another;
//! - `parts`: the parts of a text between separators, and how they are joined or replaced;
//! - `trim`: what is removed from the ends;
//! - `part_laws`: what the definitions of places and parts say together;
//! - `class`: classes of bytes, and how long a run of them is;
//! - `case`: the classes that the bytes of a text are of, its upper and lower case, its bytes one by one;
//! - `word`: what is between runs of space;
//! - `line`: lines and their ends;
//! - `word_laws`: what the definitions of words and lines say together.
#![tactic(auto)]

mod case;
mod class;
mod division;
mod integer;
mod length;
mod line;
pub mod number_laws;
pub mod part_laws;
mod parts;
mod place;
mod range;
mod search;
mod shift;
mod slice;
mod trim;
mod word;
pub mod word_laws;

pub use case::{all_are, elems, is_lower, is_upper, lower, upper};
pub use class::ByteClass;
pub use division::{floor_divide, modulo};
pub use integer::{add, bit_and, bit_not, bit_or, bit_xor, multiply, negate, subtract};
pub use length::{MAX_LEN, joined_len, repeated_len};
pub use line::lines;
pub use parts::{count, cuts, join, partition, replace, rpartition, rsplit, split};
pub use place::{clamp, index, span};
pub use range::{element, range_has, range_item, range_len};
pub use search::{find, rfind};
pub use shift::{shift_left, shift_right};
pub use slice::slice_places;
pub use trim::{SPACES, lstrip, remove_prefix, remove_suffix, rstrip, strip};
pub use word::{rwords, words};
