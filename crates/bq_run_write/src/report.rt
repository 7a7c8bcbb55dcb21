//! The report on a workspace: what is written of it.

use crate::ending::{NoAnswer, Status};
use bq_base_texts::Rope;

/// The texts of a run, and how it ends once they are written.
#[derive(Drop)]
pub struct Report {
    /// The lines for the faults writer.
    pub faults: Rope,
    /// The lines for the writer.
    pub answer: Rope,
    pub end: Result<Status, NoAnswer>,
}
