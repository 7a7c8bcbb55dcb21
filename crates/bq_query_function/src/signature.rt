//! What the arguments of a function must be.

ghost use Rattle.std.specs.Prelude.{◌≡◌};
ghost use Rattle.bq_query_function.specs.Calls.{row_of, is_mandatory, mandatory};

use crate::functions::QueryFunction;

/// What an argument must be.
#[derive(Clone, Copy)]
pub enum QueryArgumentKind {
    /// Any query.
    Query,
    /// A word that is a regular expression.
    Pattern,
    /// A word that is the name of an attribute.
    Attribute,
    /// A word that is a number of edges.
    Number,
}

/// A function, and what its arguments must be, in order.
#[derive(Clone, Copy)]
pub struct QuerySignature {
    pub function: QueryFunction,
    pub parameters: &'static [QueryArgumentKind],
}

impl QueryArgumentKind {
    /// Returns whether an argument of this kind must be there.
    fn is_mandatory(self) -> bool
        ensures { result ≡ is_mandatory self }
    {
        match self {
            QueryArgumentKind::Number => false,
            _ => true,
        }
    }
}

impl QuerySignature {
    /// Returns how many arguments there must be: a number of edges may be left out.
    pub fn mandatory(self) -> usize
        ensures { result ≡ mandatory (row_of self).parameters }
    {
        let mut count = 0;
        let mut kinds = self.parameters;
        while let [kind, rest @ ..] = kinds {
            if kind.is_mandatory() {
                count += 1;
            }
            kinds = rest;
        }
        count
    }
}
