//! Calls of functions, once their arguments are read.

ghost use Rattle.std.specs.Prelude.{◌≡◌, Some, true, is_some};
ghost use Rattle.bq_query_function.specs.Calls.{row_of};
ghost use Rattle.bq_query_check.specs.Call.{called, given, nothing};
ghost use Rattle.bq_query_check.specs.Formula.{formula_of};

use crate::formula::SetExpr;
use bq_base::Bytes;
use bq_query_function::{Call, QuerySignature};
use bq_query_pattern::QueryPattern;
use sqlite_items::{Boxed, Items};
use std::alloc::Global;

/// The arguments of a call by their kinds. There is at most one of each kind but sets.
#[derive(Drop)]
pub struct Arguments {
    /// The sets in order, in boxes, so that what is held of them while more is read is a pointer each.
    pub sets: Items<Boxed<SetExpr>>,
    pub attribute: Option<Bytes>,
    pub pattern: Option<QueryPattern>,
    pub limit: Option<usize>,
}

impl Arguments {
    /// Returns no arguments.
    pub fn new(alloc: Global) -> Arguments
        ensures { given result ≡ nothing }
    {
        Arguments {
            sets: Items::new(alloc),
            attribute: None,
            pattern: None,
            limit: None,
        }
    }
}

/// Returns what the call of a function says. Where arguments are read by its parameters, it has one set or two
/// (`proofs/Calls.antt`).
pub fn called(signature: QuerySignature, arguments: Arguments) -> SetExpr
    requires { is_some (called (row_of signature) (given arguments)) ≡ true }
    ensures { called (row_of signature) (given arguments) ≡ Some (formula_of result) }
{
    let Arguments {
        mut sets,
        attribute,
        pattern,
        limit,
    } = arguments;
    let call = Call {
        function: signature.function,
        attribute,
        pattern,
        limit,
    };
    let last = sets.pop().unwrap();
    match sets.pop() {
        Some(first) => SetExpr::Two(call, first, last),
        None => SetExpr::One(call, last),
    }
}
