//! The expressions of statements, and assignments.

ghost use Rattle.std.specs.Prelude.{◌≡◌};
ghost use Rattle.bq_value.specs.Datum.{int};
ghost use Rattle.bq_builtin_machine.specs.Action.{pure, ◌>>=◌ as and_then};
ghost use Rattle.bq_eval_spec.specs.Targets as meaning;
ghost use Rattle.bq_eval_spec.specs.Slots.{by_slots};
ghost use Rattle.bq_eval_spec.specs.Frame.{fill};
ghost use Rattle.bq_eval_frame.specs.Slots.{slots_of};
ghost use Rattle.bq_eval_rules.specs.Answers.{answer_of, or_reason};
ghost use Rattle.bq_eval_rules.specs.Conditions.{decision};
ghost use Rattle.bq_eval_rules.specs.Flows.{flow_of};
ghost use Rattle.bq_eval_rules.specs.Acts.{Acts};
ghost use Rattle.bq_eval_rules.specs.Nests.{AnswersCalls};
ghost use Rattle.bq_eval_rules.specs.Operands.{read_of};
ghost use Rattle.bq_eval_rules.specs.Round.{in_function, outside_functions};
ghost use Rattle.bq_eval_rules.specs.Effects.{Returns, ReturnsOn, Produces, Rebinds, Changes, ChangesOn};
ghost use Rattle.bq_eval_rules.specs.Readers.{evals_of, places_in_each, places_in_target, augmented, augment_at, assign_at};

use crate::answer::{
    AnswerPlace, failed_there, new_place, placed, settled, taken, unboxed, undecided,
};
use crate::called::Called;
use crate::context::{Context, Globals};
use crate::evaluator::Evaluator;
use crate::expressions::expr_to;
use crate::flow::{Flow, ended, ended_there};
use crate::names::{bound, int_in};
use crate::operand::Operand;
use crate::places::IndexedOperands;
use crate::runtime::Runtime;
use crate::stuck::stuck;
use crate::targets::{MAX_LAYERS, bind_to, slot_of};
use bq_eval_frame::Frame;
use bq_parse_grammar::{Expr, Identifier, Operator, TargetExpr};
use bq_value::{EvalErr, Value};
use std::marker::PhantomData;

/// `op= x`, which an augmented assignment does to a value.
#[derive(Clone, Copy)]
pub struct Augmentation<'c> {
    pub operator: Operator,
    pub code: &'c Expr,
}

/// Returns the new value of `x op= y` for two integers.
#[inline(always)]
fn augment_ints<R: Runtime>(
    runtime: &mut R,
    operator: Operator,
    x: i64,
    y: i64,
    out: &mut AnswerPlace,
) -> Option<i64>
    ensures { Returns R.means R.seen (R.means.augment operator (int x) (int y)) runtime.old (answer_of result out.new) runtime.new }
{
    let old = Value::int(x);
    let value = Value::int(y);
    let outcome = runtime.augment(operator, &old, &value);
    unboxed(out, outcome)
}

/// Returns the new value of `x op= value` for an integer and the value that lies there.
#[inline(never)]
fn augment_there<R: Runtime>(
    runtime: &mut R,
    operator: Operator,
    x: i64,
    out: &mut AnswerPlace,
) -> Option<i64>
    ensures { ReturnsOn R.means R.seen out.old (R.means.augment operator (int x)) runtime.old (answer_of result out.new) runtime.new }
{
    match taken(out) {
        None => failed_there(out),
        Some(value) => {
            let old = Value::int(x);
            let outcome = runtime.augment(operator, &old, &value);
            placed(out, outcome)
        }
    }
}

/// Puts a value into a slot, and goes on.
#[inline(always)]
fn fill_slot<R: Runtime>(
    runtime: &R,
    frame: &mut Frame<'_>,
    slot: usize,
    value: Value,
    out: &mut AnswerPlace,
) -> Flow
    ensures { Changes R.means R.seen (λ env. pure (fill env slot value)) frame.old runtime.now (flow_of result out.new) frame.new runtime.now }
{
    // The contract speaks of the state, so this reads it.
    let _ = runtime;
    match frame.fill(slot, value) {
        Err(_) => ended(out, EvalErr::Memory),
        Ok(()) => Flow::Next,
    }
}

/// Puts the value that lies there into a slot, and goes on.
#[inline(never)]
fn fill_slot_there<R: Runtime>(
    runtime: &R,
    frame: &mut Frame<'_>,
    slot: usize,
    out: &mut AnswerPlace,
) -> Flow
    ensures { ChangesOn R.means R.seen out.old (λ v env. pure (fill env slot v)) frame.old runtime.now (flow_of result out.new) frame.new runtime.now }
{
    match taken(out) {
        None => ended_there(out),
        Some(value) => fill_slot(runtime, frame, slot, value, out),
    }
}

/// Puts an answer into a slot, and goes on.
#[inline(always)]
fn fill_answer<R: Runtime>(
    runtime: &R,
    frame: &mut Frame<'_>,
    slot: usize,
    given: Option<i64>,
    out: &mut AnswerPlace,
) -> Flow
    ensures { ChangesOn R.means R.seen (answer_of given out.old) (λ v env. pure (fill env slot v)) frame.old runtime.now (flow_of result out.new) frame.new runtime.now }
{
    match given {
        Some(n) => fill_slot(runtime, frame, slot, Value::int(n), out),
        None => fill_slot_there(runtime, frame, slot, out),
    }
}

/// Evaluates the expressions of statements.
#[derive(Drop)]
pub struct Reader<'a, R, C> {
    pub context: &'a Context<'a>,
    pub call: C,
    pub of: PhantomData<R>,
}

impl<
    'a,
    R: Runtime,
    C: Copy + Fn(&Context<'_>, &mut R, Called<'_>) -> Result<Value, EvalErr>,
> Reader<'a, R, C> {
    /// Evaluates an expression in a function.
    #[inline(always)]
    #[tactic(auto, unfolding(crate::specs::Round::in_function, bq_resolve_scope::specs::Names::max_layers))]
    fn in_function(
        &self,
        frame: &Frame<'_>,
        runtime: &mut R,
        code: &Expr,
        out: &mut AnswerPlace,
    ) -> Option<i64>
        requires { AnswersCalls R.means R.seen self.now.context.now self.now.call C.pre C.post }
        ensures { Returns R.means R.seen (in_function R.means self.now.context.now code.now (slots_of frame.now)) runtime.old (answer_of result out.new) runtime.new }
    {
        // PROOF: lends both again.
        Evaluator {
            context: &*self.context,
            frame: &*frame,
            depth: MAX_LAYERS,
            call: self.call,
            eval: expr_to::<R, C>,
            of: PhantomData,
        }
        .evaluate(runtime, code, out)
    }

    /// Evaluates an expression outside functions.
    #[inline(never)]
    #[tactic(auto, using(bq_eval_frame::proofs::Slots::none_filled), unfolding(crate::specs::Round::outside_functions, crate::specs::Round::inside, crate::specs::Round::round_of, crate::specs::Round::globals_of, bq_resolve_scope::specs::Names::max_layers))]
    fn outside(
        &self,
        frame: &Frame<'_>,
        runtime: &mut R,
        code: &Expr,
        out: &mut AnswerPlace,
    ) -> Option<i64>
        requires { AnswersCalls R.means R.seen self.now.context.now self.now.call C.pre C.post }
        ensures { Returns R.means R.seen (outside_functions R.means self.now.context.now code.now (slots_of frame.now)) runtime.old (answer_of result out.new) runtime.new }
    {
        let inner = Context {
            alloc: self.context.alloc,
            left: self.context.left,
            program: self.context.program,
            own: Globals::Running(&*frame),
            outside: false,
            globals: Globals::Running(&*frame),
            loaded: self.context.program.loaded,
        };
        let empty = Frame::new(self.context.alloc);
        expr_to(&inner, MAX_LAYERS, self.call, &empty, runtime, code, out)
    }

    /// Evaluates an expression. At top level, the frame has the globals.
    #[inline(always)]
    #[tactic(auto, unfolding(crate::specs::Round::evals))]
    pub fn evaluate(
        &self,
        frame: &Frame<'_>,
        runtime: &mut R,
        code: &Expr,
        out: &mut AnswerPlace,
    ) -> Option<i64>
        requires { AnswersCalls R.means R.seen self.now.context.now self.now.call C.pre C.post }
        ensures { Returns R.means R.seen (evals_of R.means self.now code.now (slots_of frame.now)) runtime.old (answer_of result out.new) runtime.new }
    {
        if self.context.outside {
            return self.outside(frame, runtime, code, out);
        }
        self.in_function(frame, runtime, code, out)
    }

    /// Evaluates an expression, and returns its value whole.
    pub fn value(&self, frame: &Frame<'_>, runtime: &mut R, code: &Expr) -> Result<Value, EvalErr>
        requires { AnswersCalls R.means R.seen self.now.context.now self.now.call C.pre C.post }
        ensures { Returns R.means R.seen (evals_of R.means self.now code.now (slots_of frame.now)) runtime.old result runtime.new }
    {
        let mut out = new_place();
        let given = self.evaluate(frame, runtime, code, &mut out);
        settled(given, out)
    }

    /// Evaluates an expression whose value is only read. In a function, its frame lends the value of a name.
    #[inline(always)]
    #[tactic(auto, unfolding(crate::specs::Round::evals, crate::specs::Round::in_function, bq_resolve_scope::specs::Names::max_layers))]
    fn operand<'f>(
        &'f self,
        frame: &'f Frame<'_>,
        runtime: &mut R,
        code: &Expr,
    ) -> Result<Operand<'f>, EvalErr>
        requires { AnswersCalls R.means R.seen self.now.context.now self.now.call C.pre C.post }
        ensures { Acts R.means read_of result (R.seen runtime.new) (evals_of R.means self.now code.now (slots_of frame.now) (R.seen runtime.old)) }
    {
        if self.context.outside {
            return Ok(Operand::Own(self.value(frame, runtime, code)?));
        }
        // PROOF: lends both again.
        Evaluator {
            context: &*self.context,
            frame: &*frame,
            depth: MAX_LAYERS,
            call: self.call,
            eval: expr_to::<R, C>,
            of: PhantomData,
        }
        .operand(runtime, code)
    }

    /// Evaluates a condition outside functions.
    #[inline(never)]
    fn holds_outside(
        &self,
        frame: &Frame<'_>,
        runtime: &mut R,
        condition: &Expr,
        out: &mut AnswerPlace,
    ) -> Option<bool>
        requires { AnswersCalls R.means R.seen self.now.context.now self.now.call C.pre C.post }
        ensures { Returns R.means R.seen (decision R.means (evals_of R.means self.now condition.now (slots_of frame.now))) runtime.old (or_reason result out.new) runtime.new }
    {
        match self.value(frame, runtime, condition) {
            Err(why) => undecided(out, why),
            Ok(condition) => Some(runtime.truth(&condition)),
        }
    }

    /// Evaluates a condition.
    #[inline(always)]
    #[tactic(auto, unfolding(crate::specs::Round::evals, crate::specs::Round::in_function, bq_resolve_scope::specs::Names::max_layers))]
    pub fn holds(
        &self,
        frame: &Frame<'_>,
        runtime: &mut R,
        condition: &Expr,
        out: &mut AnswerPlace,
    ) -> Option<bool>
        requires { AnswersCalls R.means R.seen self.now.context.now self.now.call C.pre C.post }
        ensures { Returns R.means R.seen (decision R.means (evals_of R.means self.now condition.now (slots_of frame.now))) runtime.old (or_reason result out.new) runtime.new }
    {
        if self.context.outside {
            return self.holds_outside(frame, runtime, condition, out);
        }
        // PROOF: lends both again.
        Evaluator {
            context: &*self.context,
            frame: &*frame,
            depth: MAX_LAYERS,
            call: self.call,
            eval: expr_to::<R, C>,
            of: PhantomData,
        }
        .holds(runtime, condition, out)
    }

    // ---- the places of a target

    /// Evaluates the operand and the index of `x[i]`, and appends them.
    #[tactic(auto, unfolding(bq_eval_spec::specs::Targets::place))]
    fn place(
        &self,
        frame: &Frame<'_>,
        runtime: &mut R,
        places: &mut Vec<(Value, Value)>,
        operand: &Expr,
        index: &Expr,
    ) -> Result<(), EvalErr>
        requires { AnswersCalls R.means R.seen self.now.context.now self.now.call C.pre C.post }
        ensures { Produces R.means R.seen places.new.items (meaning.place R.means (evals_of R.means self.now) operand.now index.now (slots_of frame.now) places.old.items) runtime.old result runtime.new }
    {
        let operand = self.value(frame, runtime, operand)?;
        let index = self.value(frame, runtime, index)?;
        places.push((operand, index))?;
        Ok(())
    }

    #[cycle(places)]
    #[tactic(auto, unfolding(bq_eval_spec::specs::Targets::places_each))]
    fn places_each(
        &self,
        frame: &Frame<'_>,
        runtime: &mut R,
        places: &mut Vec<(Value, Value)>,
        depth: usize,
        targets: &[TargetExpr],
    ) -> Result<(), EvalErr>
        requires { AnswersCalls R.means R.seen self.now.context.now self.now.call C.pre C.post }
        ensures { Produces R.means R.seen places.new.items (places_in_each R.means self.now depth targets.now (slots_of frame.now) places.old.items) runtime.old result runtime.new }
    {
        for target in targets {
            self.places_to(frame, runtime, places, depth, target)?;
        }
        Ok(())
    }

    #[cycle(places)]
    #[tactic(auto, unfolding(bq_eval_spec::specs::Targets::places_of))]
    fn places_of(
        &self,
        frame: &Frame<'_>,
        runtime: &mut R,
        places: &mut Vec<(Value, Value)>,
        depth: usize,
        target: &TargetExpr,
    ) -> Result<(), EvalErr>
        requires { AnswersCalls R.means R.seen self.now.context.now self.now.call C.pre C.post }
        ensures { Produces R.means R.seen places.new.items (places_in_target R.means self.now depth target.now (slots_of frame.now) places.old.items) runtime.old result runtime.new }
    {
        match target {
            TargetExpr::Name(_) => Ok(()),
            TargetExpr::Index(operand, index) => {
                self.place(frame, runtime, places, operand.get(), index.get())
            }
            TargetExpr::Tuple(targets) => {
                self.places_each(frame, runtime, places, depth, targets.as_slice())
            }
            TargetExpr::List(targets) => {
                self.places_each(frame, runtime, places, depth, targets.as_slice())
            }
        }
    }

    /// Appends the places of a target that is at most `depth` layers deep.
    #[cycle(places)]
    #[tactic(auto, unfolding(bq_eval_spec::specs::Targets::places_to))]
    fn places_to(
        &self,
        frame: &Frame<'_>,
        runtime: &mut R,
        places: &mut Vec<(Value, Value)>,
        depth: usize,
        target: &TargetExpr,
    ) -> Result<(), EvalErr>
        requires { AnswersCalls R.means R.seen self.now.context.now self.now.call C.pre C.post }
        ensures { Produces R.means R.seen places.new.items (meaning.places_to R.means (evals_of R.means self.now) depth target.now (slots_of frame.now) places.old.items) runtime.old result runtime.new }
    {
        if depth == 0 {
            return Err(stuck());
        }
        self.places_of(frame, runtime, places, depth - 1, target)
    }

    // ---- assignments

    /// Carries out `target = value`. A name has no operands, and is bound at once; a single index needs no list of places.
    #[inline(always)]
    pub fn assign(
        &self,
        frame: &mut Frame<'_>,
        runtime: &mut R,
        target: &TargetExpr,
        value: Value,
    ) -> Result<(), EvalErr>
        requires { AnswersCalls R.means R.seen self.now.context.now self.now.call C.pre C.post }
        ensures { Rebinds R.means R.seen (meaning.assign R.means by_slots (evals_of R.means self.now) target.now value) frame.old runtime.old result frame.new runtime.new }
    {
        match target {
            TargetExpr::Name(name) => Ok(frame.fill(slot_of(name), value)?),
            TargetExpr::Index(operand, index) => {
                self.assign_at(&*frame, runtime, operand.get(), index.get(), value)
            }
            _ => self.assign_parts(frame, runtime, target, value),
        }
    }

    /// Carries out `x[i] = value`, where `x` and `i` are only read.
    #[inline(never)]
    fn assign_at(
        &self,
        frame: &Frame<'_>,
        runtime: &mut R,
        operand: &Expr,
        index: &Expr,
        value: Value,
    ) -> Result<(), EvalErr>
        requires { AnswersCalls R.means R.seen self.now.context.now self.now.call C.pre C.post }
        ensures { Rebinds R.means R.seen (assign_at R.means self.now operand.now index.now value) frame.now runtime.old result frame.now runtime.new }
    {
        let operand = self.operand(frame, runtime, operand)?;
        let index = self.operand(frame, runtime, index)?;
        runtime.set_index(operand.get(), index.get(), value)?;
        Ok(())
    }

    /// Carries out `target = value` for any target: its operands and indices are evaluated first.
    #[inline(never)]
    #[tactic(auto, unfolding(bq_eval_spec::specs::Targets::assign, bq_resolve_scope::specs::Names::max_layers))]
    fn assign_parts(
        &self,
        frame: &mut Frame<'_>,
        runtime: &mut R,
        target: &TargetExpr,
        value: Value,
    ) -> Result<(), EvalErr>
        requires { AnswersCalls R.means R.seen self.now.context.now self.now.call C.pre C.post }
        ensures { Rebinds R.means R.seen (meaning.assign R.means by_slots (evals_of R.means self.now) target.now value) frame.old runtime.old result frame.new runtime.new }
    {
        let mut places = Vec::new(self.context.alloc);
        self.places_to(frame, runtime, &mut places, MAX_LAYERS, target)?;
        let mut places = IndexedOperands::of(self.context.alloc, places);
        bind_to(runtime, frame, &mut places, MAX_LAYERS, target, value)
    }

    /// Carries out `target = value`, and goes on.
    #[inline(always)]
    pub fn assign_value(
        &self,
        frame: &mut Frame<'_>,
        runtime: &mut R,
        target: &TargetExpr,
        value: Value,
        out: &mut AnswerPlace,
    ) -> Flow
        requires { AnswersCalls R.means R.seen self.now.context.now self.now.call C.pre C.post }
        ensures { Changes R.means R.seen (meaning.assign R.means by_slots (evals_of R.means self.now) target.now value) frame.old runtime.old (flow_of result out.new) frame.new runtime.new }
    {
        match self.assign(frame, runtime, target, value) {
            Err(why) => ended(out, why),
            Ok(()) => Flow::Next,
        }
    }

    /// Carries out `target = value` with the value that lies there, and goes on.
    #[inline(never)]
    pub fn assign_there(
        &self,
        frame: &mut Frame<'_>,
        runtime: &mut R,
        target: &TargetExpr,
        out: &mut AnswerPlace,
    ) -> Flow
        requires { AnswersCalls R.means R.seen self.now.context.now self.now.call C.pre C.post }
        ensures { ChangesOn R.means R.seen out.old (meaning.assign R.means by_slots (evals_of R.means self.now) target.now) frame.old runtime.old (flow_of result out.new) frame.new runtime.new }
    {
        match taken(out) {
            None => ended_there(out),
            Some(value) => self.assign_value(frame, runtime, target, value, out),
        }
    }

    // ---- augmented assignments

    /// Returns the new value for `op= x` and an old one.
    #[inline(always)]
    fn augmented(
        &self,
        frame: &Frame<'_>,
        runtime: &mut R,
        old: &Value,
        op: Augmentation<'_>,
    ) -> Result<Value, EvalErr>
        requires { AnswersCalls R.means R.seen self.now.context.now self.now.call C.pre C.post }
        ensures { Returns R.means R.seen (augmented R.means self.now op.entry.operator op.entry.code.now (slots_of frame.now) old.now) runtime.old result runtime.new }
    {
        let value = self.value(frame, runtime, op.code)?;
        runtime.augment(op.operator, old, &value)
    }

    /// Carries out `name op= x`.
    #[tactic(auto, unfolding(bq_eval_spec::specs::Targets::augment_name))]
    fn augment_name(
        &self,
        frame: &mut Frame<'_>,
        runtime: &mut R,
        name: &Identifier,
        op: Augmentation<'_>,
    ) -> Result<(), EvalErr>
        requires { AnswersCalls R.means R.seen self.now.context.now self.now.call C.pre C.post }
        ensures { Rebinds R.means R.seen (meaning.augment_name R.means by_slots (evals_of R.means self.now) name.now op.entry.operator op.entry.code.now) frame.old runtime.old result frame.new runtime.new }
    {
        let slot = slot_of(name);
        let old = bound(frame, &*runtime, slot)?;
        let new = self.augmented(frame, runtime, old, op)?;
        frame.fill(slot, new)?;
        Ok(())
    }

    /// Carries out `y[i] op= x`, where `y` and `i` have these values.
    fn augment_at(
        &self,
        frame: &Frame<'_>,
        runtime: &mut R,
        operand: &Value,
        index: &Value,
        op: Augmentation<'_>,
    ) -> Result<(), EvalErr>
        requires { AnswersCalls R.means R.seen self.now.context.now self.now.call C.pre C.post }
        ensures { Produces R.means R.seen tt (augment_at R.means self.now operand.now index.now op.entry.operator op.entry.code.now (slots_of frame.now)) runtime.old result runtime.new }
    {
        let old = runtime.index(operand, index)?;
        let new = self.augmented(frame, runtime, &old, op)?;
        runtime.set_index(operand, index, new)
    }

    /// Carries out `y[i] op= x`.
    #[inline(never)]
    #[tactic(auto, unfolding(bq_eval_spec::specs::Targets::augment_index))]
    fn augment_index(
        &self,
        frame: &mut Frame<'_>,
        runtime: &mut R,
        operand: &Expr,
        index: &Expr,
        op: Augmentation<'_>,
    ) -> Result<(), EvalErr>
        requires { AnswersCalls R.means R.seen self.now.context.now self.now.call C.pre C.post }
        ensures { Rebinds R.means R.seen (meaning.augment_index R.means (evals_of R.means self.now) operand.now index.now op.entry.operator op.entry.code.now) frame.old runtime.old result frame.new runtime.new }
    {
        let operand = self.value(frame, runtime, operand)?;
        let index = self.value(frame, runtime, index)?;
        self.augment_at(frame, runtime, &operand, &index, op)
    }

    /// Carries out `target op= x`, for any target and any values.
    fn augment_any(
        &self,
        frame: &mut Frame<'_>,
        runtime: &mut R,
        target: &TargetExpr,
        operator: Operator,
        code: &Expr,
    ) -> Result<(), EvalErr>
        requires { AnswersCalls R.means R.seen self.now.context.now self.now.call C.pre C.post }
        ensures { Rebinds R.means R.seen (meaning.augment R.means by_slots (evals_of R.means self.now) target.now operator code.now) frame.old runtime.old result frame.new runtime.new }
    {
        let op = Augmentation { operator, code };
        match target {
            TargetExpr::Name(name) => self.augment_name(frame, runtime, name, op),
            TargetExpr::Index(operand, index) => {
                self.augment_index(frame, runtime, operand.get(), index.get(), op)
            }
            TargetExpr::Tuple(_) => Err(stuck()),
            TargetExpr::List(_) => Err(stuck()),
        }
    }

    /// Carries out `target op= x` for any target and any values, and goes on.
    #[inline(never)]
    fn go_on_augmented(
        &self,
        frame: &mut Frame<'_>,
        runtime: &mut R,
        target: &TargetExpr,
        op: Augmentation<'_>,
        out: &mut AnswerPlace,
    ) -> Flow
        requires { AnswersCalls R.means R.seen self.now.context.now self.now.call C.pre C.post }
        ensures { Changes R.means R.seen (meaning.augment R.means by_slots (evals_of R.means self.now) target.now op.entry.operator op.entry.code.now) frame.old runtime.old (flow_of result out.new) frame.new runtime.new }
    {
        match self.augment_any(frame, runtime, target, op.operator, op.code) {
            Err(why) => ended(out, why),
            Ok(()) => Flow::Next,
        }
    }

    // ---- `name op= x`, where the name's value is an integer

    /// Evaluates the new value.
    #[inline(always)]
    fn int_augmented(
        &self,
        frame: &Frame<'_>,
        runtime: &mut R,
        old: i64,
        op: Augmentation<'_>,
        out: &mut AnswerPlace,
    ) -> Option<i64>
        requires { AnswersCalls R.means R.seen self.now.context.now self.now.call C.pre C.post }
        ensures { Returns R.means R.seen (augmented R.means self.now op.entry.operator op.entry.code.now (slots_of frame.now) (int old)) runtime.old (answer_of result out.new) runtime.new }
    {
        match self.evaluate(frame, runtime, op.code, out) {
            Some(y) => augment_ints(runtime, op.operator, old, y, out),
            None => augment_there(runtime, op.operator, old, out),
        }
    }

    /// Carries out `target op= x`, and goes on.
    #[inline(always)]
    pub fn augment(
        &self,
        frame: &mut Frame<'_>,
        runtime: &mut R,
        target: &TargetExpr,
        op: Augmentation<'_>,
        out: &mut AnswerPlace,
    ) -> Flow
        requires { AnswersCalls R.means R.seen self.now.context.now self.now.call C.pre C.post }
        ensures { Changes R.means R.seen (meaning.augment R.means by_slots (evals_of R.means self.now) target.now op.entry.operator op.entry.code.now) frame.old runtime.old (flow_of result out.new) frame.new runtime.new }
    {
        if let TargetExpr::Name(name) = target {
            let slot = slot_of(name);
            if let Some(old) = int_in(&*frame, slot) {
                let new = self.int_augmented(&*frame, runtime, old, op, out);
                return fill_answer(&*runtime, frame, slot, new, out);
            }
        }
        self.go_on_augmented(frame, runtime, target, op, out)
    }
}
