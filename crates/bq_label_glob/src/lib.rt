//! Texts come in, and the files of a package; the patterns of glob that the texts are go out, and the names of the files
//! that some pattern matches.
//!
//! The promise: a name is given exactly if it is that of a file of the package that some pattern matches and no excluded
//! pattern does (`IsGiven`, `specs/Names.antt`), and the names ascend. A path matches a pattern exactly where its
//! segments can be cut as the pattern says (`Matches`, `specs/Matching.antt`).
//!
//! In reading order:
//!
//! - `segment`: whether a segment of a path fits a segment of a pattern, and where segments begin and end;
//! - `step`: the state of a path's matching;
//! - `matching`: which paths a pattern matches;
//! - `pattern`: which texts are patterns;
//! - `pattern_set`: patterns that names are matched against together;
//! - `unmatched`: patterns that match none of some names;
//! - `names`: the names of a package's files that some pattern matches;
//! - `idle`: patterns that match no file of a package;
//! - `pattern_laws`: what the definitions of patterns say together;
//! - `laws`: what those of `glob` say.
#![tactic(auto)]

mod idle;
pub mod laws;
mod matching;
mod names;
mod pattern;
pub mod pattern_laws;
mod pattern_set;
mod segment;
mod step;
mod unmatched;

pub use idle::any_is_idle;
pub use names::glob;
pub use pattern::{Pattern, read_pattern};
pub use pattern_set::PatternSet;
pub use unmatched::any_matches_none;
