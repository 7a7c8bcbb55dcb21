//! The pairs that `update` and `dict` are given (Starlark, "dict", "dict·update").
//!
//! All is read before any key is made, and all keys are made before a pair is inserted: so the faults come in the order
//! F52, F40, then F47 and F48 of the dict that is changed, then those of keys (F45, F53, F55), then F57, then F54.

ghost use Rattle.std.specs.Prelude.{◌≡◌, ◌++◌, IfOk, OnOk, option_copied};
ghost use Rattle.bq_base.specs.Gives.{Gives};
ghost use Rattle.bq_value.specs.declared.error.EvalErr.TheVariants.{Bad};
ghost use Rattle.bq_builtin_machine.specs.Action.{Does};
ghost use Rattle.bq_builtin_methods.specs.PairsGiven.{two, pair_in, take_element, take_elements, dict_of, read, first_value, pairs_given, make_key, make_keys, all_pairs};

use bq_base::EvalFault;
use bq_builtin_machine::{Args, Bound, Elements, Machine, Signature, SingleParameter, bind};
use bq_value::{Body, Dict, EvalErr, Key, Node, Store, Value};
use std::alloc::{AllocError, Global};
use std::marker::Model;

/// `(pairs = [], **keywords)`
const PAIRS: Signature<'static> = Signature {
    parameters: &[SingleParameter {
        name: None,
        is_required: false,
    }],
    placed: 1,
    takes_rest: false,
    takes_keywords: true,
};

/// What was read of the arguments. Contracts see `GivenView`.
#[derive(Drop)]
pub(crate) struct PairsGiven {
    /// Pairs of a dict.
    keyed: Vec<(Key, Value)>,
    /// The parts of elements that have two.
    unkeyed: Vec<(Value, Value)>,
    /// Whether each element that was read has two.
    all_have_two: bool,
    keywords: Dict,
}

impl Model for PairsGiven {
    ghost use Rattle.bq_builtin_methods.specs.PairsGiven.{GivenView, coded_given};

    ghost Value = { GivenView };

    ghost coded = { coded_given };

    ghost use Rattle.bq_builtin_methods.specs.GivenOf.{given_of};

    ghost view = { given_of };
}

impl PairsGiven {
    /// Binds the arguments, and reads the pairs.
    #[tactic(auto, unfolding(crate::specs::PairsGiven::pairs_given))]
    pub(crate) fn of(alloc: Global, machine: &Machine, args: Args) -> Result<PairsGiven, EvalErr>
        ensures { Does (λ g. g) result machine.now (pairs_given args machine.now) }
    {
        let bound = bind(alloc, machine.store().seed(), &PAIRS, args)?;
        let Bound {
            values,
            keywords,
            ..
        } = bound;
        let mut given = PairsGiven {
            keyed: Vec::new(alloc),
            unkeyed: Vec::new(alloc),
            all_have_two: true,
            keywords,
        };
        match first_value(&values) {
            Some(value) => given.read(alloc, machine, value)?,
            None => {}
        }
        Ok(given)
    }

    #[tactic(auto, unfolding(crate::specs::PairsGiven::read))]
    fn read(&mut self, alloc: Global, machine: &Machine, value: &Value) -> Result<(), EvalErr>
        ensures { Does (λ _. self.new) result machine.now (read value.now self.old machine.now) }
    {
        match dict_of(machine.store(), value) {
            Some(dict) => {
                push_pairs(&mut self.keyed, dict)?;
                Ok(())
            }
            None => {
                let elements = machine.elements(alloc, value)?;
                self.take_elements(machine.store(), elements)
            }
        }
    }

    fn take_elements(&mut self, store: &Store, mut elements: Elements) -> Result<(), EvalErr>
        ensures { Gives (λ _. self.new) Bad result (take_elements store.now elements self.old) }
    {
        while let Some(element) = elements.next() {
            self.take_element(store, &element)?;
        }
        Ok(())
    }

    #[tactic(auto, unfolding(crate::specs::PairsGiven::take_element))]
    fn take_element(&mut self, store: &Store, element: &Value) -> Result<(), EvalErr>
        ensures { Gives (λ _. self.new) Bad result (take_element store.now element.now self.old) }
    {
        match pair_in(store, element)? {
            Some(pair) => self.unkeyed.push(pair)?,
            None => self.all_have_two = false,
        }
        Ok(())
    }

    /// Makes the keys.
    #[tactic(auto, unfolding(crate::specs::PairsGiven::all_pairs))]
    pub(crate) fn into_pairs(self, machine: &mut Machine) -> Result<Vec<(Key, Value)>, EvalErr>
        ensures { Does (λ ps. ps.items) result machine.new (all_pairs self machine.old) }
    {
        let PairsGiven {
            keyed,
            unkeyed,
            all_have_two,
            keywords,
        } = self;
        let mut pairs = keyed;
        make_keys(machine, unkeyed, &mut pairs)?;
        if !all_have_two {
            return Err(EvalErr::Bad(EvalFault::BadValue));
        }
        push_pairs(&mut pairs, &keywords)?;
        Ok(pairs)
    }
}

fn first_value(values: &[Option<Value>]) -> Option<&Value>
    ensures { option_copied result ≡ first_value values.now }
{
    match values {
        [Some(value), ..] => Some(value),
        _ => None,
    }
}

/// Returns the dict that a value is.
fn dict_of<'s>(store: &'s Store, value: &Value) -> Option<&'s Dict>
    ensures { option_copied result ≡ dict_of store.now value.now }
{
    let Node::Cell(cell) = &value.node else {
        return None;
    };
    match store.content(*cell) {
        None => None,
        Some(content) => match content.body() {
            Body::Dict(dict) => Some(dict),
            Body::List(_) => None,
            Body::Rule(_) => None,
        },
    }
}

/// Returns the two parts of a list or tuple, if it has two (F40).
#[tactic(auto, using(bq_value_datum::specs::Datum::list_of_data_of), unfolding(crate::specs::PairsGiven::pair_in))]
fn pair_in(store: &Store, element: &Value) -> Result<Option<(Value, Value)>, EvalErr>
    ensures { Gives (λ o. o) Bad result (pair_in store.now element.now) }
{
    match &element.node {
        Node::Tuple(items) => Ok(two(items)?),
        Node::Cell(cell) => match store.content(*cell) {
            None => Err(EvalErr::Bad(EvalFault::WrongType)),
            Some(content) => match content.body() {
                Body::List(values) => Ok(two(values)?),
                Body::Dict(_) => Err(EvalErr::Bad(EvalFault::WrongType)),
                Body::Rule(_) => Err(EvalErr::Bad(EvalFault::WrongType)),
            },
        },
        _ => Err(EvalErr::Bad(EvalFault::WrongType)),
    }
}

/// Shares two values, if there are exactly two.
fn two(values: &[Value]) -> Result<Option<(Value, Value)>, AllocError>
    ensures { IfOk result (λ o. o ≡ two values.now) }
{
    match values {
        [key, value] => Ok(Some((key.share()?, value.share()?))),
        _ => Ok(None),
    }
}

/// Appends shares of the pairs of a dict.
fn push_pairs(pairs: &mut Vec<(Key, Value)>, dict: &Dict) -> Result<(), AllocError>
    ensures { OnOk result (pairs.new.items ≡ pairs.old.items ++ dict.now) }
{
    for i in 0..dict.len() {
        let (key, value) = dict.pair(i);
        pairs.push((key.share()?, value.share()?))?;
    }
    Ok(())
}

fn make_keys(
    machine: &mut Machine,
    unkeyed: Vec<(Value, Value)>,
    made: &mut Vec<(Key, Value)>,
) -> Result<(), EvalErr>
    ensures { Does (λ _. made.new.items) result machine.new (make_keys unkeyed.items made.old.items machine.old) }
{
    for pair in unkeyed {
        make_key(machine, pair, made)?;
    }
    Ok(())
}

#[tactic(auto, unfolding(crate::specs::PairsGiven::make_key))]
fn make_key(
    machine: &mut Machine,
    pair: (Value, Value),
    made: &mut Vec<(Key, Value)>,
) -> Result<(), EvalErr>
    ensures { Does (λ _. made.new.items) result machine.new (make_key pair made.old.items machine.old) }
{
    let (key, value) = pair;
    let key = machine.key(&key)?;
    made.push((key, value))?;
    Ok(())
}
