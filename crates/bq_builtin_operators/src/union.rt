//! `|` (Starlark, "Arithmetic", "Dictionaries").

ghost use Rattle.std.specs.Prelude.{◌≡◌, OnOk};
ghost use Rattle.bq_base.specs.Gives.{Gives};
ghost use Rattle.bq_value.specs.declared.error.EvalErr.TheVariants.{Bad};
ghost use Rattle.bq_builtin_machine.specs.Action.{Does};
ghost use Rattle.bq_builtin_operators.specs.Union.{put_all, united, dict_union, union};

use crate::integers::integers;
use crate::operand::dict_in;
use bq_base::EvalFault;
use bq_builtin_machine::Machine;
use bq_builtin_strings::MAX_LEN;
use bq_parse_grammar::Operator;
use bq_value::{Content, Dict, EvalErr, Node, Store, Value};
use bq_value_datum::Seed;
use std::alloc::{AllocError, Global};

/// Returns `a | b`, of integers or of dicts; F40, F54.
#[tactic(auto, unfolding(crate::specs::Union::union))]
pub(crate) fn union(
    alloc: Global,
    machine: &mut Machine,
    a: &Value,
    b: &Value,
) -> Result<Value, EvalErr>
    ensures { Does (λ value. value) result machine.new (union a.now b.now machine.old) }
{
    match &a.node {
        Node::Cell(_) => {
            let dict = dict_union(alloc, machine.store(), a, b)?;
            machine.new_content(Content::dict(dict))
        }
        _ => Ok(integers(Operator::BitOr, a, b)?),
    }
}

/// Returns the pairs of a new dict.
#[tactic(auto, unfolding(crate::specs::Union::dict_union))]
fn dict_union(alloc: Global, store: &Store, a: &Value, b: &Value) -> Result<Dict, EvalErr>
    ensures { Gives (λ dict. dict) Bad result (dict_union store.now a.now b.now) }
{
    let dict = dict_in(store, a)?;
    let more = dict_in(store, b)?;
    united(alloc, store.seed(), dict, more)
}

/// Makes a dict into which the pairs of both are inserted in turn.
#[tactic(auto, unfolding(crate::specs::Union::united))]
fn united(alloc: Global, seed: Seed, dict: &Dict, more: &Dict) -> Result<Dict, EvalErr>
    ensures { Gives (λ all. all) Bad result (united dict.now more.now) }
{
    let mut all = Dict::new(alloc, seed);
    put_all(&mut all, dict)?;
    put_all(&mut all, more)?;
    if all.len() > MAX_LEN {
        return Err(EvalErr::Bad(EvalFault::TooLong));
    }
    Ok(all)
}

/// Inserts each pair of another dict.
fn put_all(dict: &mut Dict, more: &Dict) -> Result<(), AllocError>
    ensures { OnOk result (dict.new ≡ put_all dict.old more.now) }
{
    for i in 0..more.len() {
        let (key, value) = more.pair(i);
        let _before = dict.insert(key.share()?, value.share()?)?;
    }
    Ok(())
}
