//! Answers that are split: a call returns an integer itself, and all else lies in a place that its caller lends.
//!
//! An integer is returned in a register. A value that is returned whole goes through memory, where it is copied at each
//! node of a tree; a place is made once for many nodes. The functions that are not inlined are those that an integer
//! never comes to: a hot function with their locals would clear the memory of these each time.

ghost use Rattle.std.specs.Prelude.{◌≡◌, Err};
ghost use Rattle.bq_eval_rules.specs.Answers.{answer_of, or_reason, reason_of};

use bq_value::{EvalErr, Node, Value};
use std::mem;

/// Where an answer lies that is no integer: a value, or why there is none.
pub type AnswerPlace = Result<Value, EvalErr>;

/// Makes a place, in which no value lies yet.
#[inline(always)]
pub fn new_place() -> AnswerPlace {
    Err(EvalErr::Memory)
}

/// Returns an answer whole.
#[inline(always)]
pub fn settled(given: Option<i64>, out: AnswerPlace) -> AnswerPlace
    ensures { result ≡ answer_of given out }
{
    match given {
        Some(n) => Ok(Value::int(n)),
        None => out,
    }
}

/// Answers with what a call returned.
#[inline(always)]
pub fn placed(out: &mut AnswerPlace, outcome: AnswerPlace) -> Option<i64>
    ensures { answer_of result out.new ≡ outcome }
{
    *out = outcome;
    None
}

/// Answers with what a call returned, and with an integer itself.
#[inline(always)]
pub fn unboxed(out: &mut AnswerPlace, outcome: AnswerPlace) -> Option<i64>
    ensures { answer_of result out.new ≡ outcome }
{
    if let Ok(value) = &outcome {
        if let Node::Int(n) = &value.node {
            return Some(*n);
        }
    }
    placed(out, outcome)
}

/// Answers that there is no value, and why.
#[inline(never)]
pub fn failed(out: &mut AnswerPlace, why: EvalErr) -> Option<i64>
    ensures { answer_of result out.new ≡ Err why }
{
    *out = Err(why);
    None
}

/// Answers that there is no value, for the reason that lies there.
#[inline(never)]
pub fn failed_there(out: &mut AnswerPlace) -> Option<i64>
    ensures { answer_of result out.new ≡ Err (reason_of out.old) }
{
    if let Ok(_) = out {
        *out = Err(EvalErr::Memory);
    }
    None
}

/// Says that it can't be known whether a condition holds, and why.
#[inline(never)]
pub fn undecided(out: &mut AnswerPlace, why: EvalErr) -> Option<bool>
    ensures { or_reason result out.new ≡ Err why }
{
    *out = Err(why);
    None
}

/// Returns why there is no value.
#[inline(always)]
pub fn reason_of(out: &AnswerPlace) -> EvalErr
    ensures { result ≡ reason_of out.now }
{
    match out {
        Ok(_) => EvalErr::Memory,
        Err(why) => *why,
    }
}

/// Takes the value that lies there, if there is one.
#[inline(always)]
pub fn taken(out: &mut AnswerPlace) -> Option<Value>
    ensures { or_reason result out.new ≡ out.old }
{
    match out {
        Err(_) => None,
        Ok(value) => Some(mem::replace(value, Value::none())),
    }
}
