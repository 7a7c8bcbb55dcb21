//! The methods of dicts (Starlark, "Built-in methods"), and the changes that they make.

ghost use Rattle.std.specs.Prelude.{◌≡◌, map, IfOk, option_copied};
ghost use Rattle.bq_base.specs.Gives.{Gives};
ghost use Rattle.bq_value.specs.Datum.{or_none};
ghost use Rattle.bq_value.specs.declared.error.EvalErr.TheVariants.{Bad};
ghost use Rattle.bq_builtin_machine.specs.Action.{Does};
ghost use Rattle.bq_builtin_machine.specs.Cells.{changing};
ghost use Rattle.bq_builtin_methods.specs.Dict.{on_pairs, pairs_in, pair_tuple, emptied, taken_out, first_out, with_default, edited, dict_changed, clear, get, dict_items, dict_keys, dict_values, key_to_change, pop, popitem, setdefault, update, dict_made};

use crate::arguments::{no_argument, one_or_two};
use crate::pairs_given::PairsGiven;
use bq_base::EvalFault;
use bq_builtin_machine::{Args, Machine, keys_of, values_of};
use bq_builtin_operators::{put_pairs, unite};
use bq_builtin_strings::joined_len;
use bq_value::{Body, Cell, Content, Dict, EvalErr, Key, Value};
use std::alloc::{AllocError, Global};

/// Returns the pairs of a dict.
#[tactic(auto, unfolding(crate::specs::Dict::pairs_in))]
fn pairs_in(machine: &Machine, dict: Cell) -> Result<&Dict, EvalErr>
    ensures { Does (λ ps. ps.now) result machine.now (pairs_in dict.module dict.number machine.now) }
{
    let content = machine.content(dict)?;
    match content.body() {
        Body::Dict(pairs) => Ok(pairs),
        Body::List(_) => Err(EvalErr::Bad(EvalFault::WrongType)),
        Body::Rule(_) => Err(EvalErr::Bad(EvalFault::WrongType)),
    }
}

/// Returns a value that may be left out, and `None` if it is.
fn or_none(value: Option<&Value>) -> Result<Value, AllocError>
    ensures { IfOk result (λ v. v ≡ or_none (option_copied value.entry)) }
{
    match value {
        Some(value) => value.share(),
        None => Ok(Value::none()),
    }
}

fn shared(value: Option<&Value>) -> Result<Option<Value>, AllocError>
    ensures { IfOk result (λ o. o ≡ option_copied value.entry) }
{
    match value {
        Some(value) => Ok(Some(value.share()?)),
        None => Ok(None),
    }
}

/// `clear()`: removes all pairs.
#[tactic(auto, unfolding(crate::specs::Dict::clear))]
pub fn clear(
    alloc: Global,
    machine: &mut Machine,
    dict: Cell,
    args: &[Value],
) -> Result<Value, EvalErr>
    ensures { Does (λ v. v) result machine.new (dict_changed clear dict.module dict.number args.now machine.old) }
{
    no_argument(args)?;
    change_dict(alloc, machine, dict, DictEdit::Clear)
}

/// `get(key, default)`: returns the key's value.
#[tactic(auto, unfolding(crate::specs::Dict::get))]
pub fn get(machine: &mut Machine, dict: Cell, args: &[Value]) -> Result<Value, EvalErr>
    ensures { Does (λ v. v) result machine.new (get dict.module dict.number args.now machine.old) }
{
    let (key, default) = one_or_two(args)?;
    let key = machine.key(key)?;
    match pairs_in(machine, dict)?.get(&key) {
        Some(value) => Ok(value.share()?),
        None => Ok(or_none(default)?),
    }
}

/// `items()`: makes a list of the pairs, each a tuple.
#[tactic(auto, unfolding(crate::specs::Dict::dict_items))]
pub fn items(
    alloc: Global,
    machine: &mut Machine,
    dict: Cell,
    args: &[Value],
) -> Result<Value, EvalErr>
    ensures { Does (λ v. v) result machine.new (dict_items dict.module dict.number args.now machine.old) }
{
    no_argument(args)?;
    let tuples = tuples_of(alloc, pairs_in(machine, dict)?)?;
    machine.new_list(tuples)
}

/// `keys()`: makes a list of the keys.
#[tactic(auto, unfolding(crate::specs::Dict::dict_keys))]
pub fn keys(
    alloc: Global,
    machine: &mut Machine,
    dict: Cell,
    args: &[Value],
) -> Result<Value, EvalErr>
    ensures { Does (λ v. v) result machine.new (dict_keys dict.module dict.number args.now machine.old) }
{
    no_argument(args)?;
    let keys = keys_of(alloc, pairs_in(machine, dict)?)?;
    machine.new_list(keys)
}

/// `values()`: makes a list of the values.
#[tactic(auto, unfolding(crate::specs::Dict::dict_values))]
pub fn values(
    alloc: Global,
    machine: &mut Machine,
    dict: Cell,
    args: &[Value],
) -> Result<Value, EvalErr>
    ensures { Does (λ v. v) result machine.new (dict_values dict.module dict.number args.now machine.old) }
{
    no_argument(args)?;
    let values = values_of(alloc, pairs_in(machine, dict)?)?;
    machine.new_list(values)
}

fn tuples_of(alloc: Global, dict: &Dict) -> Result<Vec<Value>, AllocError>
    ensures { IfOk result (λ xs. xs.items ≡ map pair_tuple dict.now) }
{
    let mut tuples = Vec::with_capacity(alloc, dict.len())?;
    for i in 0..dict.len() {
        let (key, value) = dict.pair(i);
        tuples.push(pair_tuple(alloc, key, value)?)?;
    }
    Ok(tuples)
}

/// Returns a key by which the dict is changed.
#[tactic(auto, unfolding(crate::specs::Dict::key_to_change))]
fn key_to_change(machine: &mut Machine, dict: Cell, key: &Value) -> Result<Key, EvalErr>
    ensures { Does (λ key. key) result machine.new (key_to_change dict.module dict.number key.now machine.old) }
{
    pairs_in(machine, dict)?;
    machine.may_change(dict)?;
    machine.key(key)
}

/// `pop(key, default)`: removes the key's pair, and returns its value.
#[tactic(auto, unfolding(crate::specs::Dict::pop))]
pub fn pop(
    alloc: Global,
    machine: &mut Machine,
    dict: Cell,
    args: &[Value],
) -> Result<Value, EvalErr>
    ensures { Does (λ v. v) result machine.new (pop dict.module dict.number args.now machine.old) }
{
    let (key, default) = one_or_two(args)?;
    let default = shared(default)?;
    let key = key_to_change(machine, dict, key)?;
    change_dict(alloc, machine, dict, DictEdit::Pop(key, default))
}

/// `popitem()`: removes the first pair, and returns it.
#[tactic(auto, unfolding(crate::specs::Dict::popitem))]
pub fn popitem(
    alloc: Global,
    machine: &mut Machine,
    dict: Cell,
    args: &[Value],
) -> Result<Value, EvalErr>
    ensures { Does (λ v. v) result machine.new (dict_changed popitem dict.module dict.number args.now machine.old) }
{
    no_argument(args)?;
    change_dict(alloc, machine, dict, DictEdit::PopItem)
}

/// `setdefault(key, default)`: returns the key's value, which becomes the default if there is none.
#[tactic(auto, unfolding(crate::specs::Dict::setdefault))]
pub fn setdefault(
    alloc: Global,
    machine: &mut Machine,
    dict: Cell,
    args: &[Value],
) -> Result<Value, EvalErr>
    ensures { Does (λ v. v) result machine.new (setdefault dict.module dict.number args.now machine.old) }
{
    let (key, default) = one_or_two(args)?;
    let default = or_none(default)?;
    let key = key_to_change(machine, dict, key)?;
    change_dict(alloc, machine, dict, DictEdit::SetDefault(key, default))
}

/// `update(pairs = [], **keywords)`: inserts each pair in turn; a key that is there keeps its place.
#[tactic(auto, unfolding(crate::specs::Dict::update))]
pub fn update(
    alloc: Global,
    machine: &mut Machine,
    dict: Cell,
    args: Args,
) -> Result<Value, EvalErr>
    ensures { Does (λ v. v) result machine.new (update dict.module dict.number args machine.old) }
{
    let given = PairsGiven::of(alloc, machine, args)?;
    machine.may_change(dict)?;
    let pairs = given.into_pairs(machine)?;
    unite(machine, dict, &pairs)?;
    Ok(Value::none())
}

/// `dict(pairs = [], **keywords)`: makes a dict into which each pair is inserted in turn.
#[tactic(auto, unfolding(crate::specs::Dict::dict_made))]
pub fn new_dict(alloc: Global, machine: &mut Machine, args: Args) -> Result<Value, EvalErr>
    ensures { Does (λ v. v) result machine.new (dict_made args machine.old) }
{
    let given = PairsGiven::of(alloc, machine, args)?;
    let pairs = given.into_pairs(machine)?;
    let mut dict = Dict::new(alloc, machine.store().seed());
    put_pairs(&mut dict, &pairs)?;
    machine.new_dict(dict)
}

/// A change of a dict.
#[derive(Drop)]
pub(crate) enum DictEdit {
    Clear,
    Pop(Key, Option<Value>),
    PopItem,
    SetDefault(Key, Value),
}

/// Changes a dict that may be changed.
#[tactic(auto, unfolding(bq_builtin_machine::specs::Cells::changing))]
fn change_dict(
    alloc: Global,
    machine: &mut Machine,
    dict: Cell,
    edit: DictEdit,
) -> Result<Value, EvalErr>
    ensures { Does (λ v. v) result machine.new (changing dict.module dict.number (on_pairs (edited edit)) machine.old) }
{
    let content = machine.change(dict)?;
    edit_content(alloc, content, edit)
}

#[tactic(auto, unfolding(crate::specs::Dict::on_pairs))]
fn edit_content(alloc: Global, content: &mut Content, edit: DictEdit) -> Result<Value, EvalErr>
    ensures { Gives (λ v. (v, content.new)) Bad result (on_pairs (edited edit) content.old) }
{
    match content.change()? {
        Body::Dict(pairs) => edit_pairs(alloc, pairs, edit),
        Body::List(_) => Err(EvalErr::Bad(EvalFault::WrongType)),
        Body::Rule(_) => Err(EvalErr::Bad(EvalFault::WrongType)),
    }
}

fn edit_pairs(alloc: Global, pairs: &mut Dict, edit: DictEdit) -> Result<Value, EvalErr>
    ensures { Gives (λ v. (v, pairs.new)) Bad result (edited edit pairs.old) }
{
    match edit {
        DictEdit::Clear => emptied(pairs),
        DictEdit::Pop(key, default) => taken_out(pairs, key, default),
        DictEdit::PopItem => first_out(alloc, pairs),
        DictEdit::SetDefault(key, default) => with_default(pairs, key, default),
    }
}

#[tactic(auto, unfolding(crate::specs::Dict::emptied))]
fn emptied(pairs: &mut Dict) -> Result<Value, EvalErr>
    ensures { Gives (λ v. (v, pairs.new)) Bad result (emptied pairs.old) }
{
    pairs.clear();
    Ok(Value::none())
}

#[tactic(auto, using(crate::proofs::First::absent_without), unfolding(crate::specs::Dict::taken_out))]
fn taken_out(pairs: &mut Dict, key: Key, default: Option<Value>) -> Result<Value, EvalErr>
    ensures { Gives (λ v. (v, pairs.new)) Bad result (taken_out key default pairs.old) }
{
    match pairs.remove(&key) {
        Some(value) => Ok(value),
        None => match default {
            Some(default) => Ok(default),
            None => Err(EvalErr::Bad(EvalFault::NoKey)),
        },
    }
}

#[tactic(auto, using(crate::proofs::First::first_without), unfolding(crate::specs::Dict::first_out))]
fn first_out(alloc: Global, pairs: &mut Dict) -> Result<Value, EvalErr>
    ensures { Gives (λ v. (v, pairs.new)) Bad result (first_out pairs.old) }
{
    if pairs.len() == 0 {
        return Err(EvalErr::Bad(EvalFault::NoKey));
    }
    let (key, value) = pairs.pair(0);
    let pair = pair_tuple(alloc, key, value)?;
    let key = key.share()?;
    pairs.remove(&key);
    Ok(pair)
}

#[tactic(auto, unfolding(crate::specs::Dict::with_default))]
fn with_default(pairs: &mut Dict, key: Key, default: Value) -> Result<Value, EvalErr>
    ensures { Gives (λ v. (v, pairs.new)) Bad result (with_default key default pairs.old) }
{
    if let Some(value) = pairs.get(&key) {
        return Ok(value.share()?);
    }
    joined_len(pairs.len(), 1)?;
    pairs.insert(key, default.share()?)?;
    Ok(default)
}

/// Returns `(key, value)`.
fn pair_tuple(alloc: Global, key: &Key, value: &Value) -> Result<Value, AllocError>
    ensures { IfOk result (λ v. v ≡ pair_tuple (key.now, value.now)) }
{
    let mut parts = Vec::with_capacity(alloc, 2)?;
    parts.push(key.value().share()?)?;
    parts.push(value.share()?)?;
    Value::tuple(alloc, parts)
}
