//! What comes after a statement, and after the statements of a file.

ghost use Rattle.std.specs.Prelude.{◌≡◌, Ok, Err};
ghost use Rattle.bq_eval_spec.specs.Statements.{answer};
ghost use Rattle.bq_eval_rules.specs.Answers.{reason_of};
ghost use Rattle.bq_eval_rules.specs.Flows.{ending_in, flow_of, result_of};

use crate::answer::AnswerPlace;
use bq_value::{EvalErr, Value};

/// The next statement, or the end of a turn, a loop or the function. Where the function has ended, what it returns lies in
/// a place that its caller lends, or why it stopped.
#[derive(Clone, Copy)]
pub enum Flow {
    Next,
    Leave,
    Again,
    Ended,
}

/// What comes after the statements of a file, where these ended without a fault.
#[derive(Drop)]
pub enum Ending {
    Next,
    Leave,
    Again,
    Answer(Value),
}

/// Ends the function without a value, and says why.
#[inline(never)]
pub fn ended(out: &mut AnswerPlace, why: EvalErr) -> Flow
    ensures { flow_of result out.new ≡ Err why }
{
    *out = Err(why);
    Flow::Ended
}

/// Ends the function without a value, for the reason that lies there.
#[inline(never)]
pub fn ended_there(out: &mut AnswerPlace) -> Flow
    ensures { flow_of result out.new ≡ Err (reason_of out.old) }
{
    if let Ok(_) = out {
        *out = Err(EvalErr::Memory);
    }
    Flow::Ended
}

/// Ends the function with a value.
#[inline(always)]
pub fn returned(out: &mut AnswerPlace, value: Value) -> Flow
    ensures { flow_of result out.new ≡ Ok (answer value) }
{
    *out = Ok(value);
    Flow::Ended
}

/// Returns what a function returns whose body ended so.
#[inline(always)]
#[tactic(auto, using(crate::proofs::Flowing::ended_result))]
pub fn result_of(flow: Flow, out: AnswerPlace) -> AnswerPlace
    ensures { result ≡ result_of (flow_of flow out) }
{
    match flow {
        Flow::Next => Ok(Value::none()),
        Flow::Leave => Ok(Value::none()),
        Flow::Again => Ok(Value::none()),
        Flow::Ended => out,
    }
}

/// Returns what comes after the statements of a file that ended so.
pub fn ending_of(flow: Flow, out: AnswerPlace) -> Result<Ending, EvalErr>
    ensures { ending_in result ≡ flow_of flow out }
{
    match flow {
        Flow::Next => Ok(Ending::Next),
        Flow::Leave => Ok(Ending::Leave),
        Flow::Again => Ok(Ending::Again),
        Flow::Ended => match out {
            Ok(value) => Ok(Ending::Answer(value)),
            Err(why) => Err(why),
        },
    }
}
