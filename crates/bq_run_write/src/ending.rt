//! How a run over a workspace ends.

ghost use Rattle.std.specs.Prelude.{◌≡◌, ◌≢◌, IfOk};
ghost use Rattle.bq_query_lex.specs.declared.query_error.QueryErr.TheVariants.{Memory};
ghost use Rattle.bq_run_write.specs.Ending.{is_memory, is_unanswered, names_nothing};
ghost use Rattle.bq_run_write.specs.declared.ending.NoAnswer.TheVariants.{Query};

use bq_query_lex::QueryErr;
use std::alloc::AllocError;

/// How a run that is not refused ends.
#[derive(Clone, Copy, Debug, PartialEq, Eq)]
pub enum Status {
    /// There is no fault line.
    Answered,
    /// There is a fault line.
    WithFaults,
}

/// Why a workspace and a query have no answer.
#[derive(Debug, Drop)]
pub enum NoAnswer {
    Query(QueryErr),
    /// `rules.schema` is faulty at this line, from 1.
    Schema(u32),
    /// There are more modules, or more loads between them, than a workspace may have.
    TooManyModules,
}

/// Returns whether the error is Q5 or Q6.
fn names_nothing(error: &QueryErr) -> bool
    ensures { result ≡ names_nothing error.now }
{
    match error {
        QueryErr::NoSuchTarget(_) => true,
        QueryErr::NoSuchPackage(_) => true,
        _ => false,
    }
}

impl NoAnswer {
    /// Returns whether the query is valid and names what isn't there (Q5, Q6). The workspace was then loaded, and its
    /// faults are known.
    pub fn is_unanswered(&self) -> bool
        ensures { result ≡ is_unanswered self.now }
    {
        match self {
            NoAnswer::Query(error) => names_nothing(error),
            NoAnswer::Schema(_) => false,
            NoAnswer::TooManyModules => false,
        }
    }
}

fn is_memory(error: &QueryErr) -> bool
    ensures { result ≡ is_memory error.now }
{
    match error {
        QueryErr::Memory => true,
        _ => false,
    }
}

/// Returns why a run is refused whose query has this error. Q9 is out of memory, and says nothing about the query.
pub fn refusal_of(error: QueryErr) -> Result<NoAnswer, AllocError>
    ensures known { IfOk result (λ _. error ≢ Memory) }
    ensures value { IfOk result (λ refusal. refusal ≡ Query error) }
{
    if is_memory(&error) {
        return Err(AllocError);
    }
    Ok(NoAnswer::Query(error))
}
