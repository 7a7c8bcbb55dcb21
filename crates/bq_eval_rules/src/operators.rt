//! Operators, comparisons and conditionals.

ghost use Rattle.std.specs.Prelude.{◌≡◌, reverse};
ghost use Rattle.bq_value.specs.Datum.{int};
ghost use Rattle.bq_builtin_machine.specs.Action.{◌>>=◌ as and_then};
ghost use Rattle.bq_eval_spec.specs.Expressions as meaning;
ghost use Rattle.bq_eval_rules.specs.Answers.{answer_of, or_reason};
ghost use Rattle.bq_eval_rules.specs.Conditions.{chooses};
ghost use Rattle.bq_eval_rules.specs.Effects.{Returns, ReturnsOn};
ghost use Rattle.bq_eval_rules.specs.Evaluators.{EvaluatesInside, evals_in, frame_of, value_inside};

use crate::answer::{AnswerPlace, failed, failed_there, placed, taken, unboxed, undecided};
use crate::context::Context;
use crate::evaluator::Evaluator;
use crate::names::local_use;
use crate::operand::literal;
use crate::runtime::Runtime;
use bq_eval_frame::Frame;
use bq_parse_grammar::{Choice, Comparison, Expr, Operation, Operator, Referent, UnaryOperator};
use bq_value::{EvalErr, Value};

/// Applies these operators to a value, the last one first.
#[tactic(auto, unfolding(bq_eval_spec::specs::Expressions::unary_each))]
fn unary_each<R: Runtime>(
    runtime: &mut R,
    operators: &[UnaryOperator],
    value: Value,
) -> Result<Value, EvalErr>
    ensures { Returns R.means R.seen (meaning.unary_each R.means (reverse operators.now) value) runtime.old result runtime.new }
{
    let mut value = value;
    let mut rest = operators;
    while let [before @ .., operator] = rest {
        value = runtime.unary(*operator, &value)?;
        rest = before;
    }
    Ok(value)
}

/// Applies `left op n`, for an integer literal.
#[inline(always)]
fn apply_int<R: Runtime>(
    runtime: &mut R,
    operator: Operator,
    left: &Value,
    n: i64,
) -> Result<Value, EvalErr>
    ensures { Returns R.means R.seen (and_then (meaning.literal R.means (int n)) (R.means.binary operator left.now)) runtime.old result runtime.new }
{
    let right = literal(runtime, Value::int(n))?;
    runtime.binary(operator, left, &right)
}

/// Applies `x op y` to two integers.
#[inline(always)]
fn apply_ints<R: Runtime>(
    runtime: &mut R,
    operator: Operator,
    x: i64,
    y: i64,
    out: &mut AnswerPlace,
) -> Option<i64>
    ensures { Returns R.means R.seen (R.means.binary operator (int x) (int y)) runtime.old (answer_of result out.new) runtime.new }
{
    let left = Value::int(x);
    let right = Value::int(y);
    let outcome = runtime.binary(operator, &left, &right);
    unboxed(out, outcome)
}

/// Applies `x op value` to an integer and the value that lies there.
#[inline(never)]
fn apply_there<R: Runtime>(
    runtime: &mut R,
    operator: Operator,
    x: i64,
    out: &mut AnswerPlace,
) -> Option<i64>
    ensures { ReturnsOn R.means R.seen out.old (R.means.binary operator (int x)) runtime.old (answer_of result out.new) runtime.new }
{
    match taken(out) {
        None => failed_there(out),
        Some(right) => {
            let left = Value::int(x);
            let outcome = runtime.binary(operator, &left, &right);
            placed(out, outcome)
        }
    }
}

impl<
    'a,
    R: Runtime,
    C: Copy,
    F: Copy
        + Fn(&Context<'_>, usize, C, &Frame<'_>, &mut R, &Expr, &mut AnswerPlace) -> Option<i64>,
> Evaluator<'a, R, C, F> {
    /// Evaluates operators before an operand.
    #[inline(never)]
    #[tactic(auto, unfolding(bq_eval_spec::specs::Expressions::unary))]
    pub fn unary(
        &self,
        runtime: &mut R,
        operators: &[UnaryOperator],
        code: &Expr,
    ) -> Result<Value, EvalErr>
        requires { EvaluatesInside R.means R.seen self.now F.pre F.post }
        ensures { Returns R.means R.seen (meaning.unary R.means (evals_in R.means self.now) operators.now code.now (frame_of self.now)) runtime.old result runtime.new }
    {
        runtime.step(operators.len() as u64)?;
        let value = self.value(runtime, code)?;
        unary_each(runtime, operators, value)
    }

    /// Applies one operation to the value so far.
    #[inline(always)]
    #[tactic(auto, unfolding(bq_eval_spec::specs::Expressions::operation))]
    fn operation(
        &self,
        runtime: &mut R,
        operation: &Operation,
        left: &Value,
    ) -> Result<Value, EvalErr>
        requires { EvaluatesInside R.means R.seen self.now F.pre F.post }
        ensures { Returns R.means R.seen (meaning.operation R.means (evals_in R.means self.now) operation.now (frame_of self.now) left.now) runtime.old result runtime.new }
    {
        match operation.operator {
            Operator::And => {
                if runtime.truth(left) {
                    return self.value(runtime, &operation.operand);
                }
                Ok(left.share()?)
            }
            Operator::Or => {
                if runtime.truth(left) {
                    return Ok(left.share()?);
                }
                self.value(runtime, &operation.operand)
            }
            operator => self.apply(runtime, operator, left, &operation.operand),
        }
    }

    /// Applies `left op operand`, for all operators but `and` and `or`. Most operands are local names or integers.
    #[inline(always)]
    fn apply(
        &self,
        runtime: &mut R,
        operator: Operator,
        left: &Value,
        operand: &Expr,
    ) -> Result<Value, EvalErr>
        requires { EvaluatesInside R.means R.seen self.now F.pre F.post }
        ensures { Returns R.means R.seen (and_then (value_inside R.means self.now operand.now) (R.means.binary operator left.now)) runtime.old result runtime.new }
    {
        if self.depth > 0 {
            if let Expr::Name(name) = operand {
                if let Referent::Local(slot) = name.referent {
                    let right = local_use(self.frame, runtime, slot)?;
                    return runtime.binary(operator, left, right);
                }
            }
            if let Expr::Int(n) = operand {
                return apply_int(runtime, operator, left, *n);
            }
        }
        let right = self.value(runtime, operand)?;
        runtime.binary(operator, left, &right)
    }

    #[tactic(auto, unfolding(bq_eval_spec::specs::Expressions::operations))]
    fn operations(
        &self,
        runtime: &mut R,
        operations: &[Operation],
        first: Value,
    ) -> Result<Value, EvalErr>
        requires { EvaluatesInside R.means R.seen self.now F.pre F.post }
        ensures { Returns R.means R.seen (meaning.operations R.means (evals_in R.means self.now) operations.now (frame_of self.now) first) runtime.old result runtime.new }
    {
        let mut value = first;
        for operation in operations {
            value = self.operation(runtime, operation, &value)?;
        }
        Ok(value)
    }

    /// Applies the operations of a chain to its first operand. Most often it is one.
    #[tactic(auto, unfolding(bq_eval_spec::specs::Expressions::operations))]
    #[inline(always)]
    fn chain(
        &self,
        runtime: &mut R,
        operations: &[Operation],
        first: &Value,
    ) -> Result<Value, EvalErr>
        requires { EvaluatesInside R.means R.seen self.now F.pre F.post }
        ensures { Returns R.means R.seen (meaning.operations R.means (evals_in R.means self.now) operations.now (frame_of self.now) first.now) runtime.old result runtime.new }
    {
        match operations {
            [operation] => self.operation(runtime, operation, first),
            _ => self.long_chain(runtime, operations, first),
        }
    }

    /// Applies any number of operations.
    #[tactic(auto, unfolding(bq_eval_spec::specs::Expressions::operations))]
    #[inline(never)]
    fn long_chain(
        &self,
        runtime: &mut R,
        operations: &[Operation],
        first: &Value,
    ) -> Result<Value, EvalErr>
        requires { EvaluatesInside R.means R.seen self.now F.pre F.post }
        ensures { Returns R.means R.seen (meaning.operations R.means (evals_in R.means self.now) operations.now (frame_of self.now) first.now) runtime.old result runtime.new }
    {
        match operations {
            [] => Ok(first.share()?),
            [operation, rest @ ..] => {
                let value = self.operation(runtime, operation, first)?;
                self.operations(runtime, rest, value)
            }
        }
    }

    // ---- chains whose first operand is an integer, and its operations, as long as they give integers

    /// Applies `x op operand`, for all operators but `and` and `or`.
    #[inline(always)]
    fn int_apply(
        &self,
        runtime: &mut R,
        operator: Operator,
        x: i64,
        operand: &Expr,
        out: &mut AnswerPlace,
    ) -> Option<i64>
        requires { EvaluatesInside R.means R.seen self.now F.pre F.post }
        ensures { Returns R.means R.seen (and_then (value_inside R.means self.now operand.now) (R.means.binary operator (int x))) runtime.old (answer_of result out.new) runtime.new }
    {
        match self.evaluate(runtime, operand, out) {
            Some(y) => apply_ints(runtime, operator, x, y, out),
            None => apply_there(runtime, operator, x, out),
        }
    }

    /// Applies `and` or `or`, or any other operation.
    #[inline(never)]
    fn int_decides(
        &self,
        runtime: &mut R,
        operation: &Operation,
        x: i64,
        out: &mut AnswerPlace,
    ) -> Option<i64>
        requires { EvaluatesInside R.means R.seen self.now F.pre F.post }
        ensures { Returns R.means R.seen (meaning.operation R.means (evals_in R.means self.now) operation.now (frame_of self.now) (int x)) runtime.old (answer_of result out.new) runtime.new }
    {
        let left = Value::int(x);
        let outcome = self.operation(runtime, operation, &left);
        placed(out, outcome)
    }

    /// Applies one operation to an integer.
    #[inline(always)]
    #[tactic(auto, unfolding(bq_eval_spec::specs::Expressions::operation))]
    fn int_operation(
        &self,
        runtime: &mut R,
        operation: &Operation,
        x: i64,
        out: &mut AnswerPlace,
    ) -> Option<i64>
        requires { EvaluatesInside R.means R.seen self.now F.pre F.post }
        ensures { Returns R.means R.seen (meaning.operation R.means (evals_in R.means self.now) operation.now (frame_of self.now) (int x)) runtime.old (answer_of result out.new) runtime.new }
    {
        match operation.operator {
            Operator::And => self.int_decides(runtime, operation, x, out),
            Operator::Or => self.int_decides(runtime, operation, x, out),
            operator => self.int_apply(runtime, operator, x, &operation.operand, out),
        }
    }

    /// Applies operations to the value that lies there.
    #[inline(never)]
    fn operations_there(
        &self,
        runtime: &mut R,
        operations: &[Operation],
        out: &mut AnswerPlace,
    ) -> Option<i64>
        requires { EvaluatesInside R.means R.seen self.now F.pre F.post }
        ensures { ReturnsOn R.means R.seen out.old (meaning.operations R.means (evals_in R.means self.now) operations.now (frame_of self.now)) runtime.old (answer_of result out.new) runtime.new }
    {
        match taken(out) {
            None => failed_there(out),
            Some(first) => {
                let outcome = self.operations(runtime, operations, first);
                unboxed(out, outcome)
            }
        }
    }

    /// Applies any number of operations to an integer: the rest of them to what lies there, once that is none.
    #[inline(never)]
    #[tactic(auto, unfolding(bq_eval_spec::specs::Expressions::operations))]
    fn int_operations(
        &self,
        runtime: &mut R,
        operations: &[Operation],
        first: i64,
        out: &mut AnswerPlace,
    ) -> Option<i64>
        requires { EvaluatesInside R.means R.seen self.now F.pre F.post }
        ensures { Returns R.means R.seen (meaning.operations R.means (evals_in R.means self.now) operations.now (frame_of self.now) (int first)) runtime.old (answer_of result out.new) runtime.new }
    {
        let mut value = first;
        let mut left = operations;
        while let [operation, rest @ ..] = left {
            match self.int_operation(runtime, operation, value, out) {
                None => return self.operations_there(runtime, rest, out),
                Some(n) => value = n,
            }
            left = rest;
        }
        Some(value)
    }

    /// Applies the operations of a chain to an integer. Most often it is one.
    #[inline(always)]
    #[tactic(auto, unfolding(bq_eval_spec::specs::Expressions::operations))]
    fn int_chain(
        &self,
        runtime: &mut R,
        operations: &[Operation],
        first: i64,
        out: &mut AnswerPlace,
    ) -> Option<i64>
        requires { EvaluatesInside R.means R.seen self.now F.pre F.post }
        ensures { Returns R.means R.seen (meaning.operations R.means (evals_in R.means self.now) operations.now (frame_of self.now) (int first)) runtime.old (answer_of result out.new) runtime.new }
    {
        match operations {
            [operation] => self.int_operation(runtime, operation, first, out),
            _ => self.int_operations(runtime, operations, first, out),
        }
    }

    // ---- chains

    /// Applies the operations of a chain to a value that is lent. Its use takes a step.
    #[inline(never)]
    #[tactic(auto, unfolding(bq_eval_spec::specs::Expressions::literal))]
    fn lent_chain(
        &self,
        runtime: &mut R,
        operations: &[Operation],
        first: &Value,
        out: &mut AnswerPlace,
    ) -> Option<i64>
        requires { EvaluatesInside R.means R.seen self.now F.pre F.post }
        ensures { Returns R.means R.seen (and_then (meaning.literal R.means first.now) (meaning.operations R.means (evals_in R.means self.now) operations.now (frame_of self.now))) runtime.old (answer_of result out.new) runtime.new }
    {
        match runtime.step(1) {
            Err(why) => failed(out, why),
            Ok(()) => {
                let outcome = self.chain(runtime, operations, first);
                unboxed(out, outcome)
            }
        }
    }

    /// Evaluates the first operand and the operations on it.
    #[inline(always)]
    fn chain_of(
        &self,
        runtime: &mut R,
        code: &Expr,
        operations: &[Operation],
        out: &mut AnswerPlace,
    ) -> Option<i64>
        requires { EvaluatesInside R.means R.seen self.now F.pre F.post }
        ensures { Returns R.means R.seen (and_then (value_inside R.means self.now code.now) (meaning.operations R.means (evals_in R.means self.now) operations.now (frame_of self.now))) runtime.old (answer_of result out.new) runtime.new }
    {
        if let Some(first) = self.lent_leaf(&*runtime, code) {
            return self.lent_chain(runtime, operations, first, out);
        }
        match self.evaluate(runtime, code, out) {
            Some(x) => self.int_chain(runtime, operations, x, out),
            None => self.operations_there(runtime, operations, out),
        }
    }

    /// Evaluates a chain of operators.
    #[inline(always)]
    #[tactic(auto, unfolding(bq_eval_spec::specs::Expressions::binary))]
    pub fn binary(
        &self,
        runtime: &mut R,
        code: &Expr,
        operations: &[Operation],
        out: &mut AnswerPlace,
    ) -> Option<i64>
        requires { EvaluatesInside R.means R.seen self.now F.pre F.post }
        ensures { Returns R.means R.seen (meaning.binary R.means (evals_in R.means self.now) code.now operations.now (frame_of self.now)) runtime.old (answer_of result out.new) runtime.new }
    {
        match runtime.step(operations.len() as u64) {
            Err(why) => failed(out, why),
            Ok(()) => self.chain_of(runtime, code, operations, out),
        }
    }

    #[tactic(auto, unfolding(bq_eval_spec::specs::Expressions::compare))]
    pub fn compare(
        &self,
        runtime: &mut R,
        left: &Expr,
        operator: Comparison,
        right: &Expr,
    ) -> Result<Value, EvalErr>
        requires { EvaluatesInside R.means R.seen self.now F.pre F.post }
        ensures { Returns R.means R.seen (meaning.compare R.means (evals_in R.means self.now) left.now operator right.now (frame_of self.now)) runtime.old result runtime.new }
    {
        runtime.step(1)?;
        let left = self.operand(runtime, left)?;
        let right = self.operand(runtime, right)?;
        runtime.compare(operator, left.get(), right.get())
    }

    /// Takes the step of a choice, and evaluates its condition.
    #[inline(always)]
    fn chooses(&self, runtime: &mut R, choice: &Choice, out: &mut AnswerPlace) -> Option<bool>
        requires { EvaluatesInside R.means R.seen self.now F.pre F.post }
        ensures { Returns R.means R.seen (chooses R.means (evals_in R.means self.now) choice.now (frame_of self.now)) runtime.old (or_reason result out.new) runtime.new }
    {
        match runtime.step(1) {
            Err(why) => undecided(out, why),
            Ok(()) => self.holds(runtime, &choice.condition, out),
        }
    }

    /// Evaluates `x if y else ..`: the value of the first choice whose condition holds.
    #[inline(never)]
    #[tactic(auto, unfolding(bq_eval_spec::specs::Expressions::conditional))]
    pub fn conditional(
        &self,
        runtime: &mut R,
        choices: &[Choice],
        otherwise: &Expr,
        out: &mut AnswerPlace,
    ) -> Option<i64>
        requires { EvaluatesInside R.means R.seen self.now F.pre F.post }
        ensures { Returns R.means R.seen (meaning.conditional R.means (evals_in R.means self.now) choices.now otherwise.now (frame_of self.now)) runtime.old (answer_of result out.new) runtime.new }
    {
        for choice in choices {
            match self.chooses(runtime, choice, out) {
                None => return failed_there(out),
                Some(true) => return self.evaluate(runtime, &choice.value, out),
                Some(false) => {}
            }
        }
        self.evaluate(runtime, otherwise, out)
    }
}
