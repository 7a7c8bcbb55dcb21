//! The arguments of a call, one after another.

ghost use Rattle.std.specs.Prelude.{◌≡◌, ◌+◌, ◌++◌, length, cond, nat_le, Ok, Err, OnOk};
ghost use Rattle.bq_base.specs.Gives.{Gives};
ghost use Rattle.bq_base.specs.declared.fault.EvalFault.TheVariants.{TooLong};
ghost use Rattle.bq_value.specs.declared.error.EvalErr.TheVariants.{Bad};
ghost use Rattle.bq_builtin_strings.specs.Length.{max_len};
ghost use Rattle.bq_builtin_operators.specs.Operand.{dict_in};
ghost use Rattle.bq_builtin_machine.specs.Answer.{and_then};
ghost use Rattle.bq_eval.specs.Passing.{if_few, with_positional, with_named, with_pairs, name_of};

use bq_base::EvalFault;
use bq_builtin_machine::{Args, Elements};
use bq_builtin_strings::joined_len;
use bq_value::{Body, Dict, EvalErr, Node, Store, Value};
use std::alloc::AllocError;

/// Fails with F54 if `more` further arguments are too many.
pub(crate) fn check_count(args: &Args, more: usize) -> Result<(), EvalFault>
    ensures { result ≡ cond (nat_le (length args.now.positional + length args.now.named + more) max_len) (Ok tt) (Err TooLong) }
{
    joined_len(args.positional.len() + args.named.len(), more)?;
    Ok(())
}

/// Passes the elements of an iterable. Their number is known before memory is asked for.
pub(crate) fn pass_all(args: &mut Args, values: Elements) -> Result<(), EvalErr>
    ensures { Gives (λ _. args.new) Bad result (if_few (with_positional args.old values)) }
{
    check_count(args, values.len())?;
    push_elements(&mut args.positional, values)?;
    Ok(())
}

fn push_elements(values: &mut Vec<Value>, mut more: Elements) -> Result<(), AllocError>
    ensures { OnOk result (values.new.items ≡ values.old.items ++ more) }
{
    while let Some(value) = more.next() {
        values.push(value)?;
    }
    Ok(())
}

/// Passes the pairs of a dict, whose keys are names.
pub(crate) fn pass_pairs(args: &mut Args, dict: &Dict) -> Result<(), EvalErr>
    ensures { Gives (λ _. args.new) Bad result (and_then (with_pairs args.old dict.now) if_few) }
{
    push_pairs(args, dict)?;
    check_count(args, 0)?;
    Ok(())
}

#[tactic(auto, unfolding(crate::specs::Passing::with_pairs))]
fn push_pairs(args: &mut Args, dict: &Dict) -> Result<(), EvalErr>
    ensures { Gives (λ _. args.new) Bad result (with_pairs args.old dict.now) }
{
    for i in 0..dict.len() {
        let (key, value) = dict.pair(i);
        push_pair(args, key.value(), value)?;
    }
    Ok(())
}

fn push_pair(args: &mut Args, key: &Value, value: &Value) -> Result<(), EvalErr>
    ensures { Gives (λ _. args.new) Bad result (and_then (name_of key.now) (λ name. Ok (with_named args.old name value.now))) }
{
    match &key.node {
        Node::Text(name) => {
            args.named.push((name.share()?, value.share()?))?;
            Ok(())
        }
        _ => Err(EvalErr::Bad(EvalFault::WrongType)),
    }
}

/// Returns the dict that `**` takes.
pub(crate) fn dict_in<'s>(store: &'s Store, value: &Value) -> Result<&'s Dict, EvalErr>
    ensures { Gives (λ ps. ps.now) Bad result (dict_in store.now value.now) }
{
    match &value.node {
        Node::Cell(cell) => match store.content(*cell) {
            None => Err(EvalErr::Bad(EvalFault::WrongType)),
            Some(content) => match content.body() {
                Body::Dict(dict) => Ok(dict),
                _ => Err(EvalErr::Bad(EvalFault::WrongType)),
            },
        },
        _ => Err(EvalErr::Bad(EvalFault::WrongType)),
    }
}
