//! The operations of the language, on a machine and a host.

ghost use Rattle.std.specs.Prelude.{◌≡◌, List, [], ℕ};
ghost use Rattle.bq_builtin_machine.specs.State.{State};
ghost use Rattle.bq_eval.specs.Runtime.{primitives};
ghost use Rattle.bq_eval.specs.FewArguments.{no_limit};

use crate::making::{with_element, with_new_pair, with_pair};
use crate::unpacking::parts_of;
use crate::{augmenting, comparing, passing};
use bq_base::Bytes;
use bq_builtin_machine::{Args, ElementWalk, Elements, Machine};
use bq_eval_rules::Runtime;
use bq_package_values::{BuiltIns, Host};
use bq_parse_grammar::{Comparison, Operator, UnaryOperator};
use bq_predeclared::{Predeclared, RuleFunction};
use bq_value::{Cell, Content, EvalErr, Node, Value};
use bq_value_datum::Seed;
use std::alloc::{AllocError, Global};
use std::marker::{Brand, PhantomData};

/// The names of the rules of a schema, which stay the same during an evaluation. Only contracts see them.
pub trait RuleNames {
    ghost rules: { List (List ℕ) };
}

impl RuleNames for Brand {
    ghost rules = { [] };
}

/// A module's evaluation: the state of its machine, and the host of its build functions and rules.
#[derive(Drop)]
pub struct Evaluation<'a, H: Host, K: RuleNames> {
    alloc: Global,
    built_ins: &'a BuiltIns,
    machine: Machine,
    host: H,
    names: PhantomData<K>,
    ghost named: { built_ins.now ≡ K.rules },
}

impl<'a, H: Host, K: RuleNames> Evaluation<'a, H, K> {
    /// Begins an evaluation.
    pub fn new(
        alloc: Global,
        built_ins: &'a BuiltIns,
        machine: Machine,
        host: H,
    ) -> Evaluation<'a, H, K>
        requires { built_ins.now ≡ K.rules }
        ensures machine { result.machine ≡ machine }
        ensures host { result.host ≡ host }
    {
        Evaluation {
            alloc,
            built_ins,
            machine,
            host,
            names: PhantomData,
        }
    }

    /// Ends the evaluation.
    pub fn into_parts(self) -> (Machine, H)
        ensures machine { result.0 ≡ self.entry.machine }
        ensures host { result.1 ≡ self.entry.host }
    {
        let Evaluation { machine, host, .. } = self;
        (machine, host)
    }
}

impl<'a, H: Host, K: RuleNames> Runtime for Evaluation<'a, H, K> {
    ghost State = { State × H.Kept };

    ghost seen = { λ e. (e.machine, H.seen e.host) };

    ghost means = { primitives K.rules H.means };

    fn seed(&self) -> Seed {
        self.machine.store().seed()
    }

    #[inline(always)]
    #[tactic(auto, using(crate::proofs::Lifting::lifted), unfolding(crate::specs::Runtime::primitives))]
    fn step(&mut self, count: u64) -> Result<(), EvalErr> {
        self.machine.step(count)
    }

    #[inline(always)]
    #[tactic(auto, unfolding(crate::specs::Runtime::primitives))]
    fn truth(&self, value: &Value) -> bool {
        match &value.node {
            Node::Bool(b) => *b,
            Node::Int(n) => *n != 0,
            _ => bq_value::truth(self.machine.store(), value),
        }
    }

    #[tactic(auto, unfolding(crate::specs::Runtime::primitives))]
    fn predeclared(&self, name: Predeclared) -> Result<Value, AllocError> {
        self.built_ins.value(name)
    }

    #[tactic(auto, using(crate::proofs::Lifting::lifted), unfolding(crate::specs::Runtime::primitives))]
    fn unary(&mut self, operator: UnaryOperator, value: &Value) -> Result<Value, EvalErr> {
        bq_builtin_operators::unary(&self.machine, operator, value)
    }

    #[inline(always)]
    #[tactic(auto, using(crate::proofs::Lifting::lifted), unfolding(crate::specs::Runtime::primitives))]
    fn binary(
        &mut self,
        operator: Operator,
        left: &Value,
        right: &Value,
    ) -> Result<Value, EvalErr> {
        bq_builtin_operators::binary(self.alloc, &mut self.machine, operator, left, right)
    }

    #[inline(always)]
    #[tactic(auto, using(crate::proofs::Lifting::lifted), unfolding(crate::specs::Runtime::primitives))]
    fn compare(
        &mut self,
        operator: Comparison,
        left: &Value,
        right: &Value,
    ) -> Result<Value, EvalErr> {
        comparing::compare(&mut self.machine, operator, left, right)
    }

    #[inline(always)]
    #[tactic(auto, using(crate::proofs::Lifting::lifted), unfolding(crate::specs::Runtime::primitives))]
    fn augment(
        &mut self,
        operator: Operator,
        left: &Value,
        right: &Value,
    ) -> Result<Value, EvalErr> {
        augmenting::augment(self.alloc, &mut self.machine, operator, left, right)
    }

    #[tactic(auto, using(crate::proofs::Lifting::lifted), unfolding(crate::specs::Runtime::primitives))]
    fn index(&mut self, value: &Value, index: &Value) -> Result<Value, EvalErr> {
        bq_builtin_operators::index(self.alloc, &mut self.machine, value, index)
    }

    #[tactic(auto, using(crate::proofs::Lifting::lifted), unfolding(crate::specs::Runtime::primitives))]
    fn set_index(&mut self, value: &Value, index: &Value, item: Value) -> Result<(), EvalErr> {
        bq_builtin_augment::set_index(&mut self.machine, value, index, item)
    }

    #[tactic(auto, using(crate::proofs::Lifting::lifted), unfolding(crate::specs::Runtime::primitives))]
    fn slice(
        &mut self,
        value: &Value,
        start: &Value,
        stop: &Value,
        step: &Value,
    ) -> Result<Value, EvalErr> {
        bq_builtin_operators::slice(self.alloc, &mut self.machine, value, start, stop, step)
    }

    #[tactic(auto, using(crate::proofs::Lifting::lifted), unfolding(crate::specs::Runtime::primitives))]
    fn make(&mut self, content: Content) -> Result<Value, EvalErr> {
        self.machine.new_content(content)
    }

    #[tactic(auto, using(crate::proofs::Lifting::lifted), unfolding(crate::specs::Runtime::primitives, crate::specs::Making::add))]
    fn add(&mut self, content: &mut Content, value: Value) -> Result<(), EvalErr> {
        with_element(content, value)
    }

    #[tactic(auto, unfolding(crate::specs::Runtime::primitives, crate::specs::Making::add_pair))]
    fn add_pair(
        &mut self,
        content: &mut Content,
        key: &Value,
        value: Value,
    ) -> Result<(), EvalErr> {
        let key = self.machine.key(key)?;
        with_new_pair(content, key, value)
    }

    #[tactic(auto, unfolding(crate::specs::Runtime::primitives, crate::specs::Making::put_pair))]
    fn put_pair(
        &mut self,
        content: &mut Content,
        key: &Value,
        value: Value,
    ) -> Result<(), EvalErr> {
        let key = self.machine.key(key)?;
        with_pair(content, key, value)
    }

    #[tactic(auto, using(crate::proofs::Lifting::lifted), unfolding(crate::specs::Runtime::primitives))]
    fn parts(&mut self, alloc: Global, count: usize, value: &Value) -> Result<Elements, EvalErr> {
        parts_of(&self.machine, alloc, count, value)
    }

    #[tactic(auto, using(crate::proofs::Lifting::lifted), unfolding(crate::specs::Runtime::primitives))]
    fn begin_walk(&mut self, alloc: Global, value: &Value) -> Result<ElementWalk, EvalErr> {
        self.machine.begin_walk(alloc, value)
    }

    #[tactic(auto, unfolding(crate::specs::Runtime::primitives))]
    fn end_walk(&mut self, value: &Value) {
        self.machine.end_walk(value);
    }

    #[tactic(auto, using(crate::proofs::Lifting::lifted), unfolding(crate::specs::Runtime::primitives, crate::specs::Passing::pass))]
    fn pass(&mut self, args: &mut Args, value: Value) -> Result<(), EvalErr> {
        passing::check_count(args, 1)?;
        args.positional.push(value)?;
        Ok(())
    }

    #[tactic(auto, using(crate::proofs::Lifting::lifted), unfolding(crate::specs::Runtime::primitives, crate::specs::Passing::pass_named))]
    fn pass_named(&mut self, args: &mut Args, name: &Bytes, value: Value) -> Result<(), EvalErr> {
        passing::check_count(args, 1)?;
        args.named.push((name.share()?, value))?;
        Ok(())
    }

    #[tactic(auto, unfolding(crate::specs::Runtime::primitives, crate::specs::Passing::pass_all))]
    fn pass_all(&mut self, args: &mut Args, value: &Value) -> Result<(), EvalErr> {
        let values = self.machine.elements(self.alloc, value)?;
        passing::pass_all(args, values)
    }

    #[tactic(auto, unfolding(crate::specs::Runtime::primitives, crate::specs::Passing::pass_all_named))]
    fn pass_all_named(&mut self, args: &mut Args, value: &Value) -> Result<(), EvalErr> {
        passing::pass_pairs(args, passing::dict_in(self.machine.store(), value)?)
    }

    #[tactic(auto, using(crate::proofs::Lifting::lifted), unfolding(crate::specs::Runtime::primitives))]
    fn call_method(
        &mut self,
        alloc: Global,
        name: &Bytes,
        value: &Value,
        args: Args,
    ) -> Result<Value, EvalErr> {
        bq_builtin_methods::call_method(alloc, &mut self.machine, name.as_slice(), value, args)
    }

    #[tactic(auto, unfolding(crate::specs::Runtime::primitives, crate::specs::Calling::call_built_in))]
    fn call_built_in(
        &mut self,
        alloc: Global,
        function: Predeclared,
        args: Args,
    ) -> Result<Value, EvalErr> {
        match function {
            Predeclared::Host(function) => {
                self.host.call(alloc, function, args, &mut self.machine)
            }
            function => bq_builtin::call_function(alloc, &mut self.machine, function, args),
        }
    }

    #[tactic(auto, unfolding(crate::specs::Runtime::primitives))]
    fn call_rule_function(
        &mut self,
        alloc: Global,
        function: RuleFunction,
        args: Args,
    ) -> Result<Value, EvalErr> {
        bq_package_attributes::call_rule_function(
            alloc,
            &self.host,
            function,
            args,
            &mut self.machine,
        )
    }

    #[tactic(auto, unfolding(crate::specs::Runtime::primitives))]
    fn call_cell(&mut self, alloc: Global, cell: Cell, args: Args) -> Result<Value, EvalErr> {
        bq_package_attributes::call_cell(alloc, &mut self.host, cell, args, &mut self.machine)
    }

    #[tactic(auto, using(crate::proofs::Lifting::lifted), unfolding(crate::specs::Runtime::primitives))]
    fn enter(&mut self, home: u32, place: u32) -> Result<(), EvalErr> {
        self.machine.enter(home, place)
    }

    #[tactic(auto, unfolding(crate::specs::Runtime::primitives))]
    fn leave(&mut self) {
        self.machine.leave();
    }

    #[tactic(auto, unfolding(crate::specs::Runtime::primitives))]
    fn at_line(&mut self, line: u32) {
        self.machine.set_line(line);
    }

    ghost passes_few = { no_limit K.rules H.means };
}
