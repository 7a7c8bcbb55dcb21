//! A report on a run and two writers come in; the bytes of the report go out to them, and how the run ends comes back:
//! its ending, its exit status and its error line.
//!
//! The promise: [`send_report`] writes what the definition says for the report (`specs/Deeds.antt`), the faults before
//! the answer, or after a failed call a beginning of it; and the status and the error line of each ending are the
//! definition's (`specs/Status.antt`). Nothing here knows how a report is made.
//!
//! In reading order:
//!
//! - `ending`: how a run over a workspace ends;
//! - `error`: the errors of runs;
//! - `report`: the report on a workspace;
//! - `sending`: it is written;
//! - `status`: the exit status and the error line.
#![tactic(auto)]

mod ending;
mod error;
mod report;
mod sending;
mod status;

pub use ending::{NoAnswer, Status, refusal_of};
pub use error::RunErr;
pub use report::Report;
pub use sending::send_report;
pub use status::{
    ANSWERED, DEVICE_FAILED, NO_MEMORY, REFUSED, WITH_FAULTS, end_run, status_code, status_of,
    write_status_line,
};
