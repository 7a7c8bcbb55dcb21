//! How the evaluation of a file ends.

use bq_base::{Bytes, EvalFault, Fault};
use bq_value::Frozen;

/// The outcome of a module, with what it printed, in order.
#[derive(Drop)]
pub enum FileOutcome {
    Module(Frozen, Vec<Bytes>),
    Failed(Fault<EvalFault>, Vec<Bytes>),
}

/// The outcome, and the host that the file called.
#[derive(Drop)]
pub struct EvaluatedFile<H> {
    pub outcome: FileOutcome,
    pub host: H,
}
