//! Values as data, and what rules say of their attributes: what a value is, how it is shared and dropped, when two are
//! one, and the keys of dicts with their hash; typed values of attributes, and rule classes. ("Rule class" is Bazel's
//! word for what all rules of a kind share.)
//!
//! The promise: contracts see of a value the datum that it stands for (`specs/Datum.antt`); a share is the same datum,
//! and two keys are equal exactly where they are one datum. A [`RuleClass`] is a list of attributes with their names,
//! none of them twice ([`Attributes::with`]), each found by its name in the time of the name's length
//! ([`RuleClass::get`]).
//!
//! A list or dict is never in a value: the value is a *cell*, the number of the module that made it and its number
//! there, and a store says what the cell holds. So values are trees without cycles.
//!
//! Strangers choose keys, so random bytes come in once for a run. A hasher is a function of its seed and of what is fed
//! to it (`write`, `specs/Folding.antt`): a map finds what it holds whatever the seed is, no answer depends on the
//! seed, and no contract above speaks of it.
//!
//! A rule class is one type for the rules of a schema and for those that .bzl files declare, so that a call of either
//! is one piece of code. A share of it costs the same however long it is, and so does one of a list that an attribute
//! has as its value ([`SharedList`]).
//!
//! In reading order:
//!
//! - `folding`: the products that keys are folded by;
//! - `hasher`: what a hasher makes of what is fed to it;
//! - `seed`: what each hasher of a run begins with;
//! - `shared_list`: the lists that attributes have as values;
//! - `attribute_same`: when two parts of values of attributes are the same;
//! - `list_text`: how integers and lists are written;
//! - `attribute_value`: values of attributes: which labels they hold, how they are written, when two are the same;
//! - `attribute`: what a rule says of one of its attributes, and whether another is equal in each part;
//! - `attributes`: attributes by their names, in order;
//! - `class`: the attributes of a rule, shared;
//! - `common_attributes`: the attributes that all rules have;
//! - `attribute_laws`: what holds of attributes;
//! - `value`: the kinds of values, how they are shared and dropped;
//! - `range`: how many elements a range has, and when two have the same;
//! - `same`: when two values are one, and what a value feeds to a hasher;
//! - `key`: keys of dicts;
//! - `laws`: what the definitions of keys and ranges say together.
#![tactic(auto)]

mod attribute;
mod attribute_laws;
mod attribute_same;
mod attribute_value;
mod attributes;
mod class;
mod common_attributes;
mod folding;
mod hasher;
mod key;
pub mod laws;
mod list_text;
mod range;
mod same;
mod seed;
mod shared_list;
mod value;

pub use attribute::Attribute;
pub use attribute_laws::same_attributes_are_equal;
pub use attribute_value::{AttributeValue, default_text};
pub use attributes::Attributes;
pub use class::RuleClass;
pub use common_attributes::common_attribute;
pub use hasher::KeyHasher;
pub use key::Key;
pub use range::Range;
pub use seed::Seed;
pub use shared_list::SharedList;
pub use value::{Cell, FunctionValue, Node, Value};
