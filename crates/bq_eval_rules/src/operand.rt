//! Values that are only read.

ghost use Rattle.std.specs.Prelude.{◌≡◌, IfOk};
ghost use Rattle.bq_value.specs.Datum.{int, string};
ghost use Rattle.bq_eval_spec.specs.Expressions as meaning;
ghost use Rattle.bq_eval_spec.specs.Slots.{by_slots};
ghost use Rattle.bq_eval_frame.specs.Slots.{slots_of};
ghost use Rattle.bq_eval_rules.specs.Acts.{Acts};
ghost use Rattle.bq_eval_rules.specs.Answers.{answer_of};
ghost use Rattle.bq_eval_rules.specs.Effects.{Returns};
ghost use Rattle.bq_eval_rules.specs.Round.{round_of};
ghost use Rattle.bq_eval_rules.specs.Operands.{read_of};

use crate::answer::{AnswerPlace, failed};
use crate::context::Context;
use crate::runtime::Runtime;
use crate::stuck::stuck;
use bq_base::{Bytes, EvalFault};
use bq_eval_frame::Frame;
use bq_parse_grammar::{Identifier, Referent};
use bq_value::{EvalErr, Value};
use std::alloc::AllocError;

/// A value that a frame lends, or an owned one.
#[derive(Drop)]
pub enum Operand<'f> {
    Lent(&'f Value),
    Own(Value),
}

impl<'f> Operand<'f> {
    #[inline(always)]
    pub fn get(&self) -> &Value
        ensures { result.now ≡ read_of self.now }
    {
        match self {
            Operand::Lent(value) => value,
            Operand::Own(value) => value,
        }
    }

    /// Returns the value itself.
    pub fn own(self) -> Result<Value, AllocError>
        ensures { IfOk result (λ v. v ≡ read_of self.entry) }
    {
        match self {
            Operand::Lent(value) => value.share(),
            Operand::Own(value) => Ok(value),
        }
    }
}

/// Evaluates the use of a name: lends its value, or fails with F49.
#[tactic(auto, unfolding(bq_eval_spec::specs::Expressions::use_of, bq_eval_spec::specs::Targets::bound, crate::specs::Round::round_of))]
#[inline(always)]
pub fn use_of<'f, R: Runtime>(
    context: &'f Context<'_>,
    frame: &'f Frame<'_>,
    runtime: &mut R,
    name: &Identifier,
) -> Result<Operand<'f>, EvalErr>
    ensures { Acts R.means read_of result (R.seen runtime.new) (meaning.use_of R.means by_slots (round_of context.now) name.now (slots_of frame.now) (R.seen runtime.old)) }
{
    runtime.step(1)?;
    let value = match name.referent {
        Referent::Unresolved(_) => return Err(stuck()),
        Referent::Local(slot) => frame.get(slot),
        Referent::Global(k) => context.globals.get(k),
        Referent::Loaded(k) => context.loaded.get(k),
        Referent::Predeclared(name) => return Ok(Operand::Own(runtime.predeclared(name)?)),
        Referent::Member(name) => return Ok(Operand::Own(runtime.predeclared(name)?)),
    };
    match value {
        None => Err(EvalErr::Bad(EvalFault::Unbound)),
        Some(value) => Ok(Operand::Lent(value)),
    }
}

/// Evaluates a literal.
#[tactic(auto, unfolding(bq_eval_spec::specs::Expressions::literal))]
#[inline(always)]
pub fn literal<R: Runtime>(runtime: &mut R, value: Value) -> Result<Value, EvalErr>
    ensures { Returns R.means R.seen (meaning.literal R.means value) runtime.old result runtime.new }
{
    runtime.step(1)?;
    Ok(value)
}

/// Evaluates a string literal. No byte of it is copied.
#[inline(never)]
pub fn string_leaf<R: Runtime>(runtime: &mut R, text: &Bytes) -> Result<Value, EvalErr>
    ensures { Returns R.means R.seen (meaning.literal R.means (string text.now)) runtime.old result runtime.new }
{
    literal(runtime, Value::string(text.share()?))
}

/// Evaluates a name whose value is lent.
#[tactic(auto, unfolding(bq_eval_spec::specs::Expressions::literal))]
#[inline(never)]
pub fn shared_leaf<R: Runtime>(runtime: &mut R, value: &Value) -> Result<Value, EvalErr>
    ensures { Returns R.means R.seen (meaning.literal R.means value.now) runtime.old result runtime.new }
{
    runtime.step(1)?;
    Ok(value.share()?)
}

/// Evaluates an integer literal, or a name whose value is an integer.
#[tactic(auto, unfolding(bq_eval_spec::specs::Expressions::literal))]
#[inline(always)]
pub fn int_answer<R: Runtime>(runtime: &mut R, n: i64, out: &mut AnswerPlace) -> Option<i64>
    ensures { Returns R.means R.seen (meaning.literal R.means (int n)) runtime.old (answer_of result out.new) runtime.new }
{
    match runtime.step(1) {
        Err(why) => failed(out, why),
        Ok(()) => Some(n),
    }
}

/// Evaluates an integer literal, as an operand.
#[inline(always)]
pub fn int_operand<'f, R: Runtime>(runtime: &mut R, n: i64) -> Result<Operand<'f>, EvalErr>
    ensures { Acts R.means read_of result (R.seen runtime.new) (meaning.literal R.means (int n) (R.seen runtime.old)) }
{
    Ok(Operand::Own(literal(runtime, Value::int(n))?))
}
