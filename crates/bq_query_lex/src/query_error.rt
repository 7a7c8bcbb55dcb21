//! The errors of queries, with the numbers and names that users see. They are written only here; everything else names
//! the variant.
ghost use Rattle.std.specs.Prelude.{◌≡◌, Some};
ghost use Rattle.bq_query_lex.specs.QueryError.{query_title, query_detail};
ghost use Rattle.bq_query_lex.specs.declared.query_error.QueryErr.TheVariants.{Memory};

use bq_base::Bytes;
use std::alloc::{AllocError, AllocFailed};
use std::error::Error;
use std::fmt;

/// Why a query has no answer.
#[derive(Debug, Drop)]
pub enum QueryErr {
    /// The text is no query.
    Syntax,
    /// A function that no query language has.
    UnknownFunction(Bytes),
    /// A function, or a word, of a form that is left out.
    LeftOut(Bytes),
    /// A pattern that is no regular expression.
    BadRegex,
    /// The package has no target of this label, which is in full form.
    NoSuchTarget(Bytes),
    /// There is no package where this pattern, in full form, names one.
    NoSuchPackage(Bytes),
    /// A variable that no `let` around it binds, without `$`.
    UnboundVariable(Bytes),
    /// A wrong number of arguments, or one of another kind.
    Arguments,
    /// Out of memory.
    Memory,
}

impl QueryErr {
    /// Returns the number and the name, as `Q5 NoSuchTarget`.
    pub fn title(&self) -> &'static str
        ensures { result.now ≡ query_title self.now }
    {
        match self {
            QueryErr::Syntax => "Q1 Syntax",
            QueryErr::UnknownFunction(_) => "Q2 UnknownFunction",
            QueryErr::LeftOut(_) => "Q3 LeftOut",
            QueryErr::BadRegex => "Q4 BadRegex",
            QueryErr::NoSuchTarget(_) => "Q5 NoSuchTarget",
            QueryErr::NoSuchPackage(_) => "Q6 NoSuchPackage",
            QueryErr::UnboundVariable(_) => "Q7 UnboundVariable",
            QueryErr::Arguments => "Q8 Arguments",
            QueryErr::Memory => "Q9 Memory",
        }
    }

    /// Returns what is printed after the name: the function, word, label, pattern or variable; nothing for the others.
    pub fn detail(&self) -> &[u8]
        ensures { result.now ≡ query_detail self.now }
    {
        match self {
            QueryErr::UnknownFunction(name) => name.as_slice(),
            QueryErr::LeftOut(word) => word.as_slice(),
            QueryErr::NoSuchTarget(label) => label.as_slice(),
            QueryErr::NoSuchPackage(pattern) => pattern.as_slice(),
            QueryErr::UnboundVariable(name) => name.as_slice(),
            QueryErr::Syntax => &[],
            QueryErr::BadRegex => &[],
            QueryErr::Arguments => &[],
            QueryErr::Memory => &[],
        }
    }
}

impl From<AllocError> for QueryErr {
    ghost from_gives = { λ _ e. e ≡ Memory };

    fn from(_: AllocError) -> Self {
        QueryErr::Memory
    }
}

impl<T: Drop> From<AllocFailed<T>> for QueryErr {
    ghost from_gives = { λ _ e. e ≡ Memory };

    fn from(_: AllocFailed<T>) -> Self {
        QueryErr::Memory
    }
}

/// Its title.
impl fmt::Display for QueryErr {
    ghost output = { λ e. Some (query_title e) };

    fn fmt<W: fmt::Write>(&self, f: &mut fmt::Formatter<W>) -> fmt::Result {
        f.write_str(self.title())
    }
}

impl Error for QueryErr {}
