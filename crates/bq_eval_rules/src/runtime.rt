//! What the evaluator asks for.

ghost use Rattle.std.specs.Prelude.{◌≡◌, IfOk};
ghost use Rattle.bq_eval_spec.specs.Primitives.{Primitives};
ghost use Rattle.bq_eval_rules.specs.Acts.{Acts};
ghost use Rattle.bq_eval_rules.specs.Few.{PassesFew};

use bq_base::Bytes;
use bq_builtin_machine::{Args, ElementWalk, Elements};
use bq_parse_grammar::{Comparison, Operator, UnaryOperator};
use bq_predeclared::{Predeclared, RuleFunction};
use bq_value::{Cell, Content, EvalErr, Value};
use bq_value_datum::Seed;
use std::alloc::{AllocError, Global};

/// The operations of the language, on a state. A call that runs out of memory may leave any state.
pub trait Runtime {
    /// The state, as contracts see it.
    ghost State: { Type 0 };

    ghost seen: { Self → State };

    /// What the operations mean.
    ghost means: { Primitives State };

    /// Returns what the keys of new dicts are hashed by.
    fn seed(&self) -> Seed;

    /// Takes steps.
    fn step(&mut self, count: u64) -> Result<(), EvalErr>
        ensures { Acts means (λ _. tt) result (seen self.new) (means.step count (seen self.old)) };

    /// Returns whether a value counts as true.
    fn truth(&self, value: &Value) -> bool
        ensures { result ≡ means.truth value.now (seen self.now) };

    /// Returns the value of a predeclared name.
    fn predeclared(&self, name: Predeclared) -> Result<Value, AllocError>
        ensures { IfOk result (λ v. v ≡ means.predeclared name) };

    fn unary(&mut self, operator: UnaryOperator, value: &Value) -> Result<Value, EvalErr>
        ensures { Acts means (λ v. v) result (seen self.new) (means.unary operator value.now (seen self.old)) };

    /// Applies an operator other than `and` and `or`.
    fn binary(&mut self, operator: Operator, left: &Value, right: &Value) -> Result<Value, EvalErr>
        ensures { Acts means (λ v. v) result (seen self.new) (means.binary operator left.now right.now (seen self.old)) };

    fn compare(
        &mut self,
        operator: Comparison,
        left: &Value,
        right: &Value,
    ) -> Result<Value, EvalErr>
        ensures { Acts means (λ v. v) result (seen self.new) (means.compare operator left.now right.now (seen self.old)) };

    /// Applies the operator of an augmented assignment.
    fn augment(&mut self, operator: Operator, left: &Value, right: &Value) -> Result<Value, EvalErr>
        ensures { Acts means (λ v. v) result (seen self.new) (means.augment operator left.now right.now (seen self.old)) };

    /// Returns `value[index]`.
    fn index(&mut self, value: &Value, index: &Value) -> Result<Value, EvalErr>
        ensures { Acts means (λ v. v) result (seen self.new) (means.index value.now index.now (seen self.old)) };

    /// Carries out `value[index] = item`.
    fn set_index(&mut self, value: &Value, index: &Value, item: Value) -> Result<(), EvalErr>
        ensures { Acts means (λ _. tt) result (seen self.new) (means.set_index value.now index.now item (seen self.old)) };

    /// Returns `value[start:stop:step]`, where a part that is left out is `None`.
    fn slice(
        &mut self,
        value: &Value,
        start: &Value,
        stop: &Value,
        step: &Value,
    ) -> Result<Value, EvalErr>
        ensures { Acts means (λ v. v) result (seen self.new) (means.slice value.now start.now stop.now step.now (seen self.old)) };

    /// Makes a list or dict.
    fn make(&mut self, content: Content) -> Result<Value, EvalErr>
        ensures { Acts means (λ v. v) result (seen self.new) (means.make content (seen self.old)) };

    /// Appends an element to a list that is being made.
    fn add(&mut self, content: &mut Content, value: Value) -> Result<(), EvalErr>
        ensures { Acts means (λ _. content.new) result (seen self.new) (means.add content.old value (seen self.old)) };

    /// Adds a pair to a dict that is being made, which doesn't have its key yet.
    fn add_pair(&mut self, content: &mut Content, key: &Value, value: Value) -> Result<(), EvalErr>
        ensures { Acts means (λ _. content.new) result (seen self.new) (means.add_pair content.old key.now value (seen self.old)) };

    /// Sets the value of a key of a dict that is being made.
    fn put_pair(&mut self, content: &mut Content, key: &Value, value: Value) -> Result<(), EvalErr>
        ensures { Acts means (λ _. content.new) result (seen self.new) (means.put_pair content.old key.now value (seen self.old)) };

    /// Returns the elements of an iterable that has exactly `count`.
    fn parts(&mut self, alloc: Global, count: usize, value: &Value) -> Result<Elements, EvalErr>
        ensures { Acts means (λ xs. xs) result (seen self.new) (means.parts count value.now (seen self.old)) };

    /// Begins a walk over an iterable, and returns its elements. Until it ends, a list or dict may not be changed.
    fn begin_walk(&mut self, alloc: Global, value: &Value) -> Result<ElementWalk, EvalErr>
        ensures { Acts means (λ xs. xs) result (seen self.new) (means.begin_walk value.now (seen self.old)) };

    /// Ends the walk over `value`, which may be changed again.
    fn end_walk(&mut self, value: &Value)
        ensures { seen self.new ≡ means.end_walk value.now (seen self.old) };

    /// Passes a positional argument.
    fn pass(&mut self, args: &mut Args, value: Value) -> Result<(), EvalErr>
        ensures { Acts means (λ _. args.new) result (seen self.new) (means.pass args.old value (seen self.old)) };

    /// Passes `name = value`.
    fn pass_named(&mut self, args: &mut Args, name: &Bytes, value: Value) -> Result<(), EvalErr>
        ensures { Acts means (λ _. args.new) result (seen self.new) (means.pass_named args.old name.now value (seen self.old)) };

    /// Passes `*value`.
    fn pass_all(&mut self, args: &mut Args, value: &Value) -> Result<(), EvalErr>
        ensures { Acts means (λ _. args.new) result (seen self.new) (means.pass_all args.old value.now (seen self.old)) };

    /// Passes `**value`.
    fn pass_all_named(&mut self, args: &mut Args, value: &Value) -> Result<(), EvalErr>
        ensures { Acts means (λ _. args.new) result (seen self.new) (means.pass_all_named args.old value.now (seen self.old)) };

    /// Returns `value.name(args)`.
    fn call_method(
        &mut self,
        alloc: Global,
        name: &Bytes,
        value: &Value,
        args: Args,
    ) -> Result<Value, EvalErr>
        ensures { Acts means (λ v. v) result (seen self.new) (means.call_method name.now value.now args (seen self.old)) };

    /// Calls a built-in function.
    fn call_built_in(
        &mut self,
        alloc: Global,
        function: Predeclared,
        args: Args,
    ) -> Result<Value, EvalErr>
        ensures { Acts means (λ v. v) result (seen self.new) (means.call_built_in function args (seen self.old)) };

    /// Calls a function that declares rules.
    fn call_rule_function(
        &mut self,
        alloc: Global,
        function: RuleFunction,
        args: Args,
    ) -> Result<Value, EvalErr>
        ensures { Acts means (λ v. v) result (seen self.new) (means.call_rule_function function args (seen self.old)) };

    /// Calls a cell; only a rule can be called.
    fn call_cell(&mut self, alloc: Global, cell: Cell, args: Args) -> Result<Value, EvalErr>
        ensures { Acts means (λ v. v) result (seen self.new) (means.call_cell cell.«module» cell.number args (seen self.old)) };

    /// Makes a function of a module active.
    fn enter(&mut self, home: u32, place: u32) -> Result<(), EvalErr>
        ensures { Acts means (λ _. tt) result (seen self.new) (means.enter home place (seen self.old)) };

    /// Leaves the function that became active last.
    fn leave(&mut self)
        ensures { seen self.new ≡ means.leave (seen self.old) };

    /// Sets the line of the top-level statement that runs.
    fn at_line(&mut self, line: u32)
        ensures { seen self.new ≡ means.at_line line (seen self.old) };

    /// Where there are few arguments, one more joins them, and no limit stops it.
    ghost passes_few: { PassesFew means };
}
