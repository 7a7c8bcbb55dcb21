//! The functions that declare rules, and the calls of rules. A function `rule` or `attr.NAME`, its arguments and the
//! host come in, and an attribute or a rule goes out; the arguments of a call of a rule come in, and the target that it
//! declares goes out, with its typed attributes; or the first fault.
//!
//! The promise: [`call_rule_function`] and [`call_cell`] do exactly what the definitions of their names say
//! (`specs/Call.antt`) to the state of the machine and to what the host keeps, and [`declaration`] returns exactly the
//! target of `specs/Declarations.antt`, out of memory aside.
//!
//! `attr.NAME(..)` makes an *attribute*, a plain value: its type, whether it is mandatory, and its default. `rule(..)`
//! makes a *rule*, a new cell that nothing changes, which holds its attributes as a *class*; its implementation is
//! never called. The name of a rule in messages and queries, its *kind*, is no part of it: that is the name of the
//! global that holds it once its module is frozen (bq_value), so a rule has none while its own module is evaluated. A
//! call of a rule that has a kind declares a target, which is the host's to do, by kind and class, whether a schema or
//! a .bzl file has the rule. Its faults come in this order: F52; then the arguments in the order in which they are
//! written, each F71, F73, F78, F75, F37; then F72. The attributes that a call doesn't give have their defaults, after
//! those that it gives. Only texts of up to 22 bytes are copied; a call takes time linear in what it passes and in the
//! attributes of its rule.
//!
//! In reading order:
//!
//! - `keywords`: the arguments of the functions that declare rules;
//! - `attribute`: `attr.NAME(..)`;
//! - `rule`: `rule(..)`;
//! - `call`: calls of these functions, and of cells;
//! - `rule_laws`: what holds of the definitions of these;
//! - `keyword_arguments`: the keyword arguments of a call of a rule, as they are held;
//! - `arguments`: what the arguments of a call of a rule give;
//! - `declarations`: the target that a call declares;
//! - `declaration_laws`: what holds of all calls of rules.
#![tactic(auto)]

mod arguments;
mod attribute;
mod call;
mod declaration_laws;
mod declarations;
mod keyword_arguments;
mod keywords;
mod rule;
mod rule_laws;

pub use arguments::Callee;
pub use call::{call_cell, call_rule_function};
pub use declaration_laws::{
    calls_declare_targets_of_their_package, defaults_are_given, keywords_keep_their_order,
    mandatory_attributes_are_given, the_first_faulty_argument_decides,
};
pub use declarations::declaration;
pub use rule_laws::{
    a_rule_has_the_attributes_of_its_dict, no_rule_is_declared_in_a_build_file,
    rules_are_refused_in_order,
};
