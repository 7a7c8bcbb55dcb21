//! The loops of comprehensions, before they begin and while they are open.

ghost use Rattle.std.specs.Prelude.{◌≡◌};
ghost use Rattle.bq_eval_rules.specs.OpenLoops.{loop_reached};

use crate::answer::{AnswerPlace, reason_of};
use bq_builtin_machine::ElementWalk;
use bq_parse_grammar::{Clause, Expr, TargetExpr};
use bq_value::{EvalErr, Value};

/// A `for` clause that is reached, whose walk has yet to begin. Much smaller than an open loop.
#[derive(Clone, Copy)]
pub struct ForClause<'a> {
    pub target: &'a TargetExpr,
    pub iterable: &'a Expr,
    /// The clauses after it, which each turn runs.
    pub after: &'a [Clause],
}

/// A `for` clause whose walk has begun. The open loops are in a list, so that clauses take no stack.
#[derive(Drop)]
pub struct OpenLoop<'a> {
    pub target: &'a TargetExpr,
    /// The clauses after it, which each turn runs.
    pub after: &'a [Clause],
    pub walked: Value,
    /// The elements that are still to come.
    pub elements: ElementWalk,
}

/// How far the clauses of a turn ran.
#[derive(Clone, Copy)]
pub enum Reached {
    /// To the end: the element was added, or a condition doesn't hold.
    End,
    /// To a loop. Its clause lies in a place that the caller lends.
    Loop,
    /// To where there is no value. Why lies in the place for answers.
    Stopped,
}

/// Returns the loop that the clauses reached, if there is one.
#[inline(always)]
pub fn loop_reached<'c>(
    reached: Reached,
    next: Option<ForClause<'c>>,
    out: &AnswerPlace,
) -> Result<Option<ForClause<'c>>, EvalErr>
    ensures { result ≡ loop_reached reached next.entry out.now }
{
    match reached {
        Reached::End => Ok(None),
        Reached::Loop => Ok(next),
        Reached::Stopped => Err(reason_of(out)),
    }
}
