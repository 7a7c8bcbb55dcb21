//! A workspace and a text of queries and edits come in, a query a line; the faults, once, and for each query what a run with it
//! alone answers, as a block of lines, go out. The workspace is loaded once, and again where a line asks for it: files may be
//! put and removed between.
//!
//! [`run_queries`] promises that what is written is the blocks of what the reader asked, in order, each with the answer or the
//! error of a run over the files as they were at the last reload before it (`specs/Outcome.antt`, `specs/State.antt`,
//! `specs/Answer.antt`). What a text asks for is said in bq_run_commands.
//!
//! In reading order:
//!
//! - `options`: what a session is asked to do;
//! - `opening`: how a session is opened over a workspace, which may have been loaded before;
//! - `session`: what it answers;
//! - `held`: what a session has, and how it is loaded anew;
//! - `blocks`: what is written for a query or a command;
//! - `facts`: the facts;
//! - `ending`: how a session ends;
//! - `runs`: the whole.
#![tactic(auto)]

mod blocks;
mod ending;
mod facts;
mod held;
mod opening;
mod options;
mod runs;
mod session;

pub use ending::{SessionStatus, session_code};
pub use options::{SessionOptions, SessionRun};
pub use runs::{run_queries, run_queries_watched};
pub use session::ask;
