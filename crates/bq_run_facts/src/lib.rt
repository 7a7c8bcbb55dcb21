//! A workspace and a query, or none, come in; the facts behind the answer go out: a first line, and then a line of JSON for each target that the
//! query stands for, for each module and for each fault.
//!
//! [`run_facts`] promises that the text is the definition's (`specs/Facts.antt`), and that the faults and the ending are those of a run with the
//! query.
//!
//! In reading order:
//!
//! - `lines`: the lines of targets, modules and faults;
//! - `selection`: which targets are meant;
//! - `replies`: the whole text;
//! - `reports`: the report on a workspace;
//! - `runs`: the run;
//! - `laws`: what the definitions say together.
#![tactic(auto)]

mod laws;
mod lines;
mod replies;
mod reports;
mod runs;
mod selection;

pub use laws::{deps_are_names_of_targets, direct_is_deps, facts_end_as_answers, parts_join};
pub use reports::report_facts;
pub use runs::run_facts;
