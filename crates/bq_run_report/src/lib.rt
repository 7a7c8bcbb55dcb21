//! A loaded workspace and a query come in; the texts of the run, and how it ends once they are written, go out.
//!
//! The promise: [`report_on`] returns the definition's texts and ending (`specs/Report.antt`): what the modules printed
//! and then the lines of all faults in their order, each once; and the lines of the targets that the query stands for,
//! or the first of its words that names what isn't there (Q5, Q6).
//!
//! In reading order:
//!
//! - `session`: a workspace that is loaded, ready for queries;
//! - `reply`: the answer to a query, over the graph of the targets;
//! - `aside`: graphs that nobody needs any more;
//! - `whole`: the whole report;
//! - `laws`: there is one.
#![tactic(auto)]

mod aside;
mod laws;
mod reply;
mod session;
mod whole;

pub use aside::drop_aside;
pub use bq_run_write::{NoAnswer, Report, Status, refusal_of};
pub use laws::one_report;
pub use reply::{Question, Reply, reply_to};
pub use session::{Session, session_over, status_by};
pub use whole::report_on;
