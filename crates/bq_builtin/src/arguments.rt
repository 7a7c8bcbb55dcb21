//! Which arguments a function takes (F52).

ghost use Rattle.std.specs.Prelude.{option_copied};
ghost use Rattle.bq_base.specs.Gives.{Gives};
ghost use Rattle.bq_value.specs.declared.error.EvalErr.TheVariants.{Bad};
ghost use Rattle.bq_builtin_methods.specs.Arguments.{one_argument, optional_argument, one_or_two, one_to_three, integer};
ghost use Rattle.bq_builtin.specs.Arguments.{by_place, only_argument, only_argument_if_any, only_named, passed_once, one_and_named, flag, text};

use bq_base::{Bytes, EvalFault};
use bq_builtin_machine::Args;
use bq_value::{EvalErr, Node, Value};

/// Returns the positional arguments, if none is passed by name.
#[tactic(auto, unfolding(crate::specs::Arguments::by_place))]
pub(crate) fn by_place(args: &Args) -> Result<&[Value], EvalErr>
    ensures { Gives (λ vs. vs.now) Bad result (by_place args.now) }
{
    match args.named.as_slice() {
        [] => Ok(&args.positional),
        _ => Err(EvalErr::Bad(EvalFault::Args)),
    }
}

#[tactic(auto, unfolding(bq_builtin_methods::specs::Arguments::one_argument))]
fn one_argument(values: &[Value]) -> Result<&Value, EvalErr>
    ensures { Gives (λ v. v.now) Bad result (one_argument values.now) }
{
    match values {
        [value] => Ok(value),
        _ => Err(EvalErr::Bad(EvalFault::Args)),
    }
}

#[tactic(auto, unfolding(bq_builtin_methods::specs::Arguments::optional_argument))]
fn optional_argument(values: &[Value]) -> Result<Option<&Value>, EvalErr>
    ensures { Gives (λ o. option_copied o) Bad result (optional_argument values.now) }
{
    match values {
        [] => Ok(None),
        [value] => Ok(Some(value)),
        _ => Err(EvalErr::Bad(EvalFault::Args)),
    }
}

#[tactic(auto, unfolding(bq_builtin_methods::specs::Arguments::one_or_two))]
fn one_or_two(values: &[Value]) -> Result<(&Value, Option<&Value>), EvalErr>
    ensures { Gives (λ r. (r.0.now, option_copied r.1)) Bad result (one_or_two values.now) }
{
    match values {
        [first] => Ok((first, None)),
        [first, second] => Ok((first, Some(second))),
        _ => Err(EvalErr::Bad(EvalFault::Args)),
    }
}

/// Returns one to three positional arguments.
#[tactic(auto, unfolding(bq_builtin_methods::specs::Arguments::one_to_three))]
pub(crate) fn one_to_three(
    values: &[Value],
) -> Result<(&Value, Option<&Value>, Option<&Value>), EvalErr>
    ensures { Gives (λ r. (r.0.now, (option_copied r.1, option_copied r.2))) Bad result (one_to_three values.now) }
{
    match values {
        [first] => Ok((first, None, None)),
        [first, second] => Ok((first, Some(second), None)),
        [first, second, third] => Ok((first, Some(second), Some(third))),
        _ => Err(EvalErr::Bad(EvalFault::Args)),
    }
}

/// Returns the one argument.
#[tactic(auto, unfolding(crate::specs::Arguments::only_argument))]
pub(crate) fn only_argument(args: &Args) -> Result<&Value, EvalErr>
    ensures { Gives (λ v. v.now) Bad result (only_argument args.now) }
{
    one_argument(by_place(args)?)
}

/// Returns the argument, which may be left out.
#[tactic(auto, unfolding(crate::specs::Arguments::only_argument_if_any))]
pub(crate) fn only_argument_if_any(args: &Args) -> Result<Option<&Value>, EvalErr>
    ensures { Gives (λ o. option_copied o) Bad result (only_argument_if_any args.now) }
{
    optional_argument(by_place(args)?)
}

/// Returns the one argument that may be passed by name, which has to be this one.
#[tactic(auto, unfolding(crate::specs::Arguments::only_named))]
pub(crate) fn only_named<'a>(
    name: &[u8],
    named: &'a [(Bytes, Value)],
) -> Result<Option<&'a Value>, EvalErr>
    ensures { Gives (λ o. option_copied o) Bad result (only_named name.now named.now) }
{
    match named {
        [] => Ok(None),
        [argument] => {
            if name == argument.0.as_slice() {
                return Ok(Some(&argument.1));
            }
            Err(EvalErr::Bad(EvalFault::Args))
        }
        _ => Err(EvalErr::Bad(EvalFault::Args)),
    }
}

fn passed_once<'a>(
    first: &'a Value,
    placed: Option<&'a Value>,
    named: Option<&'a Value>,
) -> Result<(&'a Value, Option<&'a Value>), EvalErr>
    ensures { Gives (λ r. (r.0.now, option_copied r.1)) Bad result (passed_once first.now (option_copied placed.entry) (option_copied named.entry)) }
{
    match placed {
        None => Ok((first, named)),
        Some(second) => match named {
            None => Ok((first, Some(second))),
            Some(_) => Err(EvalErr::Bad(EvalFault::Args)),
        },
    }
}

/// Returns an argument, and a second one that may be left out, by place or by this name.
#[tactic(auto, unfolding(crate::specs::Arguments::one_and_named))]
pub(crate) fn one_and_named<'a>(
    name: &[u8],
    args: &'a Args,
) -> Result<(&'a Value, Option<&'a Value>), EvalErr>
    ensures { Gives (λ r. (r.0.now, option_copied r.1)) Bad result (one_and_named name.now args.now) }
{
    let (first, second) = one_or_two(&args.positional)?;
    let named = only_named(name, &args.named)?;
    passed_once(first, second, named)
}

/// Returns an integer (F40).
#[tactic(auto, unfolding(bq_builtin_methods::specs::Arguments::integer))]
pub(crate) fn integer(value: &Value) -> Result<i64, EvalErr>
    ensures { Gives (λ i. i) Bad result (integer value.now) }
{
    match &value.node {
        Node::Int(n) => Ok(*n),
        _ => Err(EvalErr::Bad(EvalFault::WrongType)),
    }
}

/// Returns a bool, which is false if it is left out.
#[tactic(auto, unfolding(crate::specs::Arguments::flag))]
pub(crate) fn flag(value: Option<&Value>) -> Result<bool, EvalErr>
    ensures { Gives (λ b. b) Bad result (flag (option_copied value.entry)) }
{
    match value {
        None => Ok(false),
        Some(value) => match &value.node {
            Node::Bool(b) => Ok(*b),
            _ => Err(EvalErr::Bad(EvalFault::WrongType)),
        },
    }
}

/// Returns a string (F40).
#[tactic(auto, unfolding(crate::specs::Arguments::text))]
pub(crate) fn text(value: &Value) -> Result<&Bytes, EvalErr>
    ensures { Gives (λ t. t.now) Bad result (text value.now) }
{
    match &value.node {
        Node::Text(text) => Ok(text),
        _ => Err(EvalErr::Bad(EvalFault::WrongType)),
    }
}
