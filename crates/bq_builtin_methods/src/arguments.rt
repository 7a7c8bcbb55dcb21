//! Positional arguments.

ghost use Rattle.std.specs.Prelude.{option_copied};
ghost use Rattle.bq_base.specs.Gives.{Gives};
ghost use Rattle.bq_value.specs.declared.error.EvalErr.TheVariants.{Bad};
ghost use Rattle.bq_builtin_machine.specs.Iteration.{elements_in};
ghost use Rattle.bq_builtin_methods.specs.Arguments.{no_argument, one_argument, two_arguments, optional_argument, one_or_two, one_to_three, integer, optional_integer, index_or_last};

use bq_base::EvalFault;
use bq_builtin_machine::{Elements, Machine};
use bq_value::{EvalErr, Node, Value};
use std::alloc::Global;

/// Checks that there is no argument.
#[tactic(auto, unfolding(crate::specs::Arguments::no_argument))]
pub(crate) fn no_argument(args: &[Value]) -> Result<(), EvalErr>
    ensures { Gives (λ _. tt) Bad result (no_argument args.now) }
{
    match args {
        [] => Ok(()),
        _ => Err(EvalErr::Bad(EvalFault::Args)),
    }
}

/// Returns the one argument.
#[tactic(auto, unfolding(crate::specs::Arguments::one_argument))]
pub(crate) fn one_argument(args: &[Value]) -> Result<&Value, EvalErr>
    ensures { Gives (λ v. v.now) Bad result (one_argument args.now) }
{
    match args {
        [value] => Ok(value),
        _ => Err(EvalErr::Bad(EvalFault::Args)),
    }
}

/// Returns the two arguments.
#[tactic(auto, unfolding(crate::specs::Arguments::two_arguments))]
pub(crate) fn two_arguments(args: &[Value]) -> Result<(&Value, &Value), EvalErr>
    ensures { Gives (λ r. (r.0.now, r.1.now)) Bad result (two_arguments args.now) }
{
    match args {
        [first, second] => Ok((first, second)),
        _ => Err(EvalErr::Bad(EvalFault::Args)),
    }
}

/// Returns the argument, which may be left out.
#[tactic(auto, unfolding(crate::specs::Arguments::optional_argument))]
pub(crate) fn optional_argument(args: &[Value]) -> Result<Option<&Value>, EvalErr>
    ensures { Gives (λ o. option_copied o) Bad result (optional_argument args.now) }
{
    match args {
        [] => Ok(None),
        [value] => Ok(Some(value)),
        _ => Err(EvalErr::Bad(EvalFault::Args)),
    }
}

/// Returns the two arguments, of which the second may be left out.
#[tactic(auto, unfolding(crate::specs::Arguments::one_or_two))]
pub(crate) fn one_or_two(args: &[Value]) -> Result<(&Value, Option<&Value>), EvalErr>
    ensures { Gives (λ r. (r.0.now, option_copied r.1)) Bad result (one_or_two args.now) }
{
    match args {
        [first] => Ok((first, None)),
        [first, second] => Ok((first, Some(second))),
        _ => Err(EvalErr::Bad(EvalFault::Args)),
    }
}

/// Returns an integer (F40).
#[tactic(auto, unfolding(crate::specs::Arguments::integer))]
pub(crate) fn integer(value: &Value) -> Result<i64, EvalErr>
    ensures { Gives (λ i. i) Bad result (integer value.now) }
{
    match &value.node {
        Node::Int(n) => Ok(*n),
        _ => Err(EvalErr::Bad(EvalFault::WrongType)),
    }
}

/// Returns an index; if it is left out, that of the last element.
#[tactic(auto, unfolding(crate::specs::Arguments::index_or_last))]
pub(crate) fn index_or_last(value: Option<&Value>) -> Result<i64, EvalErr>
    ensures { Gives (λ i. i) Bad result (index_or_last (option_copied value.entry)) }
{
    match value {
        None => Ok(-1),
        Some(value) => integer(value),
    }
}

/// Returns the three arguments, of which the second and the third may be left out.
#[tactic(auto, unfolding(crate::specs::Arguments::one_to_three))]
pub(crate) fn one_to_three(
    args: &[Value],
) -> Result<(&Value, Option<&Value>, Option<&Value>), EvalErr>
    ensures { Gives (λ r. (r.0.now, (option_copied r.1, option_copied r.2))) Bad result (one_to_three args.now) }
{
    match args {
        [first] => Ok((first, None, None)),
        [first, second] => Ok((first, Some(second), None)),
        [first, second, third] => Ok((first, Some(second), Some(third))),
        _ => Err(EvalErr::Bad(EvalFault::Args)),
    }
}

/// Returns an integer, or `None` if it is left out or `None`.
#[tactic(auto, unfolding(crate::specs::Arguments::optional_integer))]
pub(crate) fn optional_integer(value: Option<&Value>) -> Result<Option<i64>, EvalErr>
    ensures { Gives (λ o. o) Bad result (optional_integer (option_copied value.entry)) }
{
    match value {
        None => Ok(None),
        Some(value) => match &value.node {
            Node::NoneValue => Ok(None),
            Node::Int(n) => Ok(Some(*n)),
            _ => Err(EvalErr::Bad(EvalFault::WrongType)),
        },
    }
}

/// Returns the elements of an iterable (F40).
#[tactic(auto, unfolding(bq_builtin_machine::specs::Iteration::elements))]
pub fn elements_in(alloc: Global, machine: &Machine, value: &Value) -> Result<Elements, EvalErr>
    ensures { Gives (λ xs. xs) Bad result (elements_in machine.now.store value.now) }
{
    machine.elements(alloc, value)
}
