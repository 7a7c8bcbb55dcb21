//! What a run is asked.

ghost use Rattle.std.specs.Prelude.{IfOk};
ghost use Rattle.bq_run.specs.Run.{IsInRange};

use bq_base::Limits;
use bq_run::{MAX_JOBS, Options, OutputForm};
use std::alloc::{AllocError, Global};

/// A query by so many workers, or the next number of them that is in range, each module by so many steps.
pub fn options(
    alloc: Global,
    query: &[u8],
    jobs: u32,
    max_steps: u64,
) -> Result<Options, AllocError>
    ensures { IfOk result IsInRange }
{
    Ok(Options {
        query: query.to_vec(alloc)?,
        jobs: jobs.clamp(1, MAX_JOBS),
        output: OutputForm::Label,
        limits: Limits::standard_with(max_steps.clamp(1, 1_000_000_000)),
    })
}
