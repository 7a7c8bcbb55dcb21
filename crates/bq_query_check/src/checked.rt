//! Checked queries.

ghost use Rattle.bq_query_check.specs.Formula.{formula_of, IsClosed, IsClosed-prop};

use crate::formula::SetExpr;

/// A query that can be answered: a set whose variables are bound, each by a let around it.
pub struct CheckedQuery {
    pub set: SetExpr,
    pub ghost closed: { IsClosed 0 (formula_of set) } by { IsClosed-prop 0 (formula_of set) },
}

impl Drop for CheckedQuery {
    // PROOF: a drop that is written out is proved here alone, and a derived one in each crate that drops a query
    fn drop(self) {
        let CheckedQuery { set: _ } = self;
    }
}
