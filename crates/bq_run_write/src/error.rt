//! The errors of runs, with the numbers and names that users see. This is the only table of them: everything else names
//! the variant.

ghost use Rattle.std.specs.Prelude.{◌≡◌, Some};
ghost use Rattle.bq_run_write.specs.Error.{run_title, run_err};
ghost use Rattle.bq_run_write.specs.declared.error.RunErr.TheVariants.{Memory, Write};

use crate::ending::NoAnswer;
use bq_query_lex::QueryErr;
use bq_run_device::WriteFault;
use std::alloc::{AllocError, AllocFailed};
use std::error::Error;
use std::fmt;

/// Why a run has no answer.
#[derive(Debug, Drop)]
pub enum RunErr {
    /// Memory was refused.
    Memory,
    /// The reader failed.
    Read,
    /// A writer failed.
    Write,
    /// The input is no bundle.
    Bundle,
    /// The query has no answer.
    Query(QueryErr),
    /// `rules.schema` has a fault at this line, from 1.
    Schema(u32),
    /// There are more modules than a workspace may have.
    TooManyModules,
}

impl RunErr {
    /// Returns the number and the name, as `E4 Bundle`. A query's error has its own.
    pub fn title(&self) -> &'static str
        ensures { result.now ≡ run_title self.now }
    {
        match self {
            RunErr::Memory => "E1 Memory",
            RunErr::Read => "E2 Read",
            RunErr::Write => "E3 Write",
            RunErr::Bundle => "E4 Bundle",
            RunErr::Query(error) => error.title(),
            RunErr::Schema(_) => "E6 Schema",
            RunErr::TooManyModules => "E7 TooManyModules",
        }
    }
}

/// Its title.
impl fmt::Display for RunErr {
    ghost output = { λ e. Some (run_title e) };

    fn fmt<W: fmt::Write>(&self, f: &mut fmt::Formatter<W>) -> fmt::Result {
        f.write_str(self.title())
    }
}

impl Error for RunErr {}

impl From<AllocError> for RunErr {
    ghost from_gives = { λ _ e. e ≡ Memory };

    fn from(_: AllocError) -> Self {
        RunErr::Memory
    }
}

impl<T: Drop> From<AllocFailed<T>> for RunErr {
    ghost from_gives = { λ _ e. e ≡ Memory };

    fn from(_: AllocFailed<T>) -> Self {
        RunErr::Memory
    }
}

impl From<WriteFault> for RunErr {
    ghost from_gives = { λ _ e. e ≡ Write };

    fn from(_: WriteFault) -> Self {
        RunErr::Write
    }
}

impl From<NoAnswer> for RunErr {
    ghost from_gives = { λ refusal e. e ≡ run_err refusal };

    fn from(refusal: NoAnswer) -> Self {
        match refusal {
            NoAnswer::Query(error) => RunErr::Query(error),
            NoAnswer::Schema(line) => RunErr::Schema(line),
            NoAnswer::TooManyModules => RunErr::TooManyModules,
        }
    }
}
