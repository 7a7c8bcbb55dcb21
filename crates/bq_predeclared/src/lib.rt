//! The names that files have without binding them, but for the rules of a workspace's schema: the bytes of a name come
//! in; what it stands for goes out. So do the types of attributes (Bazel, "attr"), by their words.
//!
//! The promise: the tables of `specs/Predeclared.antt` and `specs/AttributeType.antt` are those of the code. They say
//! which names there are ([`predeclared_named`], [`attr_named`], [`type_named`]) and what each is called
//! ([`Predeclared::name`], [`RuleFunction::name`], [`AttributeType::name`]); the laws say that one undoes the other.
//!
//! A built-in function of the language is the place of its name from here to its call, and what it does is for
//! `bq_builtin` to say. What a host carries out is a [`HostFunction`], from the resolution of its name to its call. The
//! functions that declare rules are apart, since their names are other things elsewhere: `int` is not `attr.int`, and a
//! schema may name a rule `rule`. Those of `attr` have the names of the types of attributes, but for outputs
//! ([`AttributeType::has_function`]). Which of all these a file of a kind has, `native` and `attr` are for the resolver
//! to say, which is why the types are below the parser. What a value of a type holds and how it is written is for
//! `bq_value_datum` to say, how it is taken for `bq_package_values`.
//!
//! In reading order:
//!
//! - `attribute_type`: the types of attributes and their names;
//! - `attribute_type_laws`: what holds of these;
//! - `host_function`: what a host carries out: the build functions, and the rules of a schema;
//! - `rule_function`: `rule`, and the functions `attr.NAME`;
//! - `predeclared`: what a name stands for;
//! - `predeclared_laws`: what holds of the names, and of those of `attr`.
#![tactic(auto)]

mod attribute_type;
mod attribute_type_laws;
mod host_function;
mod predeclared;
mod predeclared_laws;
mod rule_function;

pub use attribute_type::{AttributeType, type_named};
pub use attribute_type_laws::{each_type_is_named, no_other_type_is_named};
pub use host_function::HostFunction;
pub use predeclared::{Predeclared, predeclared_named};
pub use predeclared_laws::{
    each_attr_function_is_found, each_name_is_found, no_other_attr_function_is_found,
    nothing_else_is_found,
};
pub use rule_function::{RuleFunction, attr_named};
