//! The words of a command line come in, with a bundle on standard input or in a file, or a directory; the answer goes
//! to standard output, the faults and the error line go to standard error, and the exit status comes out.
//!
//! The promise: a run is the one of `bq_run::run` that the words ask for, for a directory of `bq_run::run_files`, with
//! `--queries` the session of `bq_run_session::run_queries`, with `--facts` the run of `bq_run_facts::run_facts`, and with
//! `--explain` the text of `bq_run_explain::explain`; and the options that words give are in the ranges that these ask for
//! ([`words_of`]).
//!
//! In reading order:
//!
//! - `command`: the options, as clap takes them;
//! - `words`: what words ask for;
//! - `runs`: runs over bundles and directories, of one query and of many, and for facts;
//! - `messages`: what is printed where there is no run;
//! - `descriptors`: standard input, output and error, where they are closed;
//! - `program`: the whole.
#![tactic(auto)]

mod command;
mod descriptors;
mod messages;
mod program;
mod runs;
mod words;

pub use command::VERSION;
pub use messages::show;
pub use program::run_program;
pub use runs::run_on_directory;
pub use words::{Asked, Wanted, Words, WorkspacePlace, words_of};
