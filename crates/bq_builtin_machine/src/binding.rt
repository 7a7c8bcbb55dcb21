//! Which argument goes to which parameter (Starlark, "Function and method calls").

ghost use Rattle.std.specs.Prelude.{◌≡◌, ◌≤◌, not, ◌||◌, nat_le, [], take, drop, IfOk, OnOk, map};
ghost use Rattle.bq_base.specs.Gives.{Gives};
ghost use Rattle.bq_value.specs.declared.error.EvalErr.TheVariants.{Bad};
ghost use Rattle.bq_builtin_machine.specs.Parameters.{parameter_of, signature_of, places, HasPlaces};
ghost use Rattle.bq_builtin_machine.specs.Binding.{placed_values, placed, has_value, take_keyword, take_named_by, take_all_named, is_complete, bind};
ghost use Rattle.bq_builtin_machine.specs.Placed.{padded};

use crate::args::Args;
use crate::parameters::{Signature, SingleParameter, parameter_called, places_by_name};
use bq_base::{Bytes, EvalFault};
use bq_value::{Dict, EvalErr, Key, Value};
use bq_value_datum::Seed;
use std::alloc::{AllocError, Global};
use std::collections::BTreeMap;
use std::marker::Model;

/// Where at most this many arguments are named, or there are at most this many parameters, each name is searched among
/// the parameters one by one. Where there are more of both, a map finds it.
pub const MAX_SEARCHED: usize = 16;

/// What the parameters of a function take. Contracts see `BoundView`.
#[derive(Drop)]
pub struct Bound {
    /// The argument of each parameter, if it has one.
    pub values: Vec<Option<Value>>,
    /// What `*` takes.
    pub rest: Vec<Value>,
    /// What `**` takes.
    pub keywords: Dict,
}

impl Model for Bound {
    ghost use Rattle.bq_builtin_machine.specs.Binding.{BoundView, coded_bound};

    ghost Value = { BoundView };

    ghost coded = { coded_bound };

    ghost use Rattle.bq_builtin_machine.specs.ArgsOf.{bound_of};

    ghost view = { bound_of };
}

/// Binds arguments to parameters, or fails with F52. What `**` takes is hashed by `seed`.
#[tactic(auto, unfolding(crate::specs::Binding::bind))]
pub fn bind(
    alloc: Global,
    seed: Seed,
    signature: &Signature<'_>,
    args: Args,
) -> Result<Bound, EvalErr>
    ensures { Gives (λ b. b) Bad result (bind (signature_of signature.now) args) }
{
    let Args { positional, named } = args;
    if is_too_many(signature, positional.len()) {
        return Err(EvalErr::Bad(EvalFault::Args));
    }
    let mut bound = Bound::placed_by(alloc, seed, signature, positional)?;
    bound.take_all_named(alloc, signature, named)?;
    if !is_complete(signature.parameters, &bound.values) {
        return Err(EvalErr::Bad(EvalFault::Args));
    }
    Ok(bound)
}

fn places(signature: &Signature<'_>) -> usize
    ensures { result ≡ places (signature_of signature.now) }
{
    signature.placed.min(signature.parameters.len())
}

fn is_too_many(signature: &Signature<'_>, count: usize) -> bool
    ensures { result ≡ not (signature.now.takes_rest || nat_le count (places (signature_of signature.now))) }
{
    !(signature.takes_rest || count <= places(signature))
}

/// Takes the values from a place on away.
#[tactic(auto, using(std::proofs::lemmas::List::take_all, std::proofs::lemmas::List::drop_all))]
fn rest_of(alloc: Global, place: usize, values: &mut Vec<Value>) -> Result<Vec<Value>, AllocError>
    ensures first { OnOk result (values.new.items ≡ take place values.old.items) }
    ensures rest { IfOk result (λ rest. rest.items ≡ drop place values.old.items) }
{
    if values.len() <= place {
        return Ok(Vec::new(alloc));
    }
    values.split_off(place)
}

/// Gives values to the first of `count` parameters, in order, and makes room for `room` parameters.
#[tactic(auto, using(crate::proofs::Placing::one_less))]
fn padded(
    alloc: Global,
    room: usize,
    count: usize,
    given: Vec<Value>,
) -> Result<Vec<Option<Value>>, AllocError>
    ensures { IfOk result (λ vs. vs.items ≡ padded count given.items) }
{
    let mut values = Vec::with_capacity(alloc, room.max(count))?;
    for value in given {
        values.push(Some(value))?;
    }
    while values.len() < count {
        values.push(None)?;
    }
    Ok(values)
}

fn is_complete(parameters: &[SingleParameter<'_>], values: &[Option<Value>]) -> bool
    ensures { result ≡ is_complete (map parameter_of parameters.now) values.now }
{
    for (i, parameter) in parameters.iter().enumerate() {
        if parameter.is_required && !has_value(values, i) {
            return false;
        }
    }
    true
}

/// Returns whether the parameter of that place has an argument.
pub fn has_value(values: &[Option<Value>], i: usize) -> bool
    ensures { result ≡ has_value values.now i }
{
    match values.get(i) {
        Some(Some(_)) => true,
        _ => false,
    }
}

impl Bound {
    /// Gives positional arguments to the first `places` of `count` parameters, in order, and makes room for `room`
    /// parameters. `*` takes what is left over.
    #[tactic(auto, using(crate::proofs::Placing::all_placed))]
    pub fn placed(
        alloc: Global,
        seed: Seed,
        room: usize,
        places: usize,
        count: usize,
        mut positional: Vec<Value>,
    ) -> Result<Bound, AllocError>
        requires { places ≤ count }
        ensures { IfOk result (λ b. b ≡ record { values = placed_values places count positional.items; rest = drop places positional.items; keywords = [] }) }
    {
        let rest = rest_of(alloc, places, &mut positional)?;
        let values = padded(alloc, room, count, positional)?;
        Ok(Bound {
            values,
            rest,
            keywords: Dict::new(alloc, seed),
        })
    }

    /// Gives the positional arguments to the parameters, in order.
    fn placed_by(
        alloc: Global,
        seed: Seed,
        signature: &Signature<'_>,
        positional: Vec<Value>,
    ) -> Result<Bound, AllocError>
        ensures { IfOk result (λ b. b ≡ placed (signature_of signature.now) positional.items) }
    {
        let count = signature.parameters.len();
        Bound::placed(alloc, seed, count, places(signature), count, positional)
    }

    /// Gives each named argument to the parameter of its name, or else to `**`.
    #[tactic(auto, unfolding(crate::specs::Binding::take_all_named, crate::specs::Binding::take_named))]
    fn take_all_named(
        &mut self,
        alloc: Global,
        signature: &Signature<'_>,
        named: Vec<(Bytes, Value)>,
    ) -> Result<(), EvalErr>
        ensures { Gives (λ _. self.new) Bad result (take_all_named (signature_of signature.now) named.items self.old) }
    {
        if named.len().min(signature.parameters.len()) > MAX_SEARCHED {
            let by_name = places_by_name(alloc, signature.parameters)?;
            return self.take_many_named(&by_name, signature, named);
        }
        for (name, value) in named {
            let place = parameter_called(signature.parameters, name.as_slice());
            self.take_named(place, signature.takes_keywords, name, value)?;
        }
        Ok(())
    }

    /// Gives each named argument to its parameter, which is found in a map of all.
    #[tactic(auto, unfolding(crate::specs::Binding::take_all_named, crate::specs::Binding::take_named))]
    fn take_many_named(
        &mut self,
        by_name: &BTreeMap<&[u8], usize>,
        signature: &Signature<'_>,
        named: Vec<(Bytes, Value)>,
    ) -> Result<(), EvalErr>
        requires { HasPlaces 0 (map parameter_of signature.now.parameters.now) by_name.now }
        ensures { Gives (λ _. self.new) Bad result (take_all_named (signature_of signature.now) named.items self.old) }
    {
        for (name, value) in named {
            let place = by_name.get(name.as_slice()).copied();
            self.take_named(place, signature.takes_keywords, name, value)?;
        }
        Ok(())
    }

    /// Gives a named argument to the parameter at the place of its name, or else to `**`, if that takes arguments.
    #[tactic(auto, unfolding(crate::specs::Binding::fill))]
    pub fn take_named(
        &mut self,
        place: Option<usize>,
        takes: bool,
        name: Bytes,
        value: Value,
    ) -> Result<(), EvalErr>
        ensures { Gives (λ _. self.new) Bad result (take_named_by place takes name value self.old) }
    {
        match place {
            Some(i) => {
                if i >= self.values.len() || self.values[i].is_some() {
                    return Err(EvalErr::Bad(EvalFault::Args));
                }
                self.values[i] = Some(value);
                Ok(())
            }
            None => self.take_keyword(takes, name, value),
        }
    }

    #[tactic(auto, unfolding(crate::specs::Binding::take_keyword))]
    fn take_keyword(&mut self, takes: bool, name: Bytes, value: Value) -> Result<(), EvalErr>
        ensures { Gives (λ _. self.new) Bad result (take_keyword takes name value self.old) }
    {
        if !takes {
            return Err(EvalErr::Bad(EvalFault::Args));
        }
        let before = self.keywords.insert(Key::new(Value::string(name)), value)?;
        if before.is_some() {
            return Err(EvalErr::Bad(EvalFault::Args));
        }
        Ok(())
    }
}
