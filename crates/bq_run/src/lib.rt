//! The bytes of a bundle and a query come in; the bytes of the faults and of the answer go out.
//!
//! [`run`] promises that the two texts, and how it ends, are those of the definition for the bytes that it reads:
//! `IsRunOf`, in `specs/Run.antt`.
//!
//! In reading order:
//!
//! - `bundle`: the text form of a workspace;
//! - `options`: what a run is asked to do;
//! - `loading`: what a workspace loads to, said by names;
//! - `reports`: the report on a workspace;
//! - `runs`: the run;
//! - `laws`: what the definitions say together.
#![tactic(auto)]

mod bundle;
pub mod laws;
mod loading;
mod options;
mod reports;
mod runs;

pub use bq_load_by_name::Loaded;
pub use bq_query::OutputForm;
pub use bq_query_lex::QueryErr;
pub use bq_run_device::{
    ByteSink, ByteSource, Counted, Metered, ReadFault, WriteFault, read_all, write_all, write_rope,
};
pub use bq_run_write::{
    ANSWERED, DEVICE_FAILED, NO_MEMORY, REFUSED, RunErr, Status, WITH_FAULTS, end_run, send_report,
    status_code, status_of, write_status_line,
};
pub use bundle::{read_bundle, read_bundle_within};
pub use loading::{load_graph, load_workspace};
pub use options::{MAX_JOBS, Options, WorkspaceRun};
pub use reports::refused_report;
pub use runs::{run, run_files};
