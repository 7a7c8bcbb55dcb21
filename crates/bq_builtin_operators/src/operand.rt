//! Operands by their types (Starlark, "Data types"): F40 for one of another type.

ghost use Rattle.std.specs.Prelude.{◌≡◌};
ghost use Rattle.bq_base.specs.Gives.{Gives};
ghost use Rattle.bq_value.specs.declared.error.EvalErr.TheVariants.{Bad};
ghost use Rattle.bq_builtin_operators.specs.Operand.{int_of, list_in, dict_in};

use bq_base::EvalFault;
use bq_value::{Body, Dict, EvalErr, Node, Store, Value};

/// Returns an integer.
pub fn int_of(value: &Value) -> Result<i64, EvalFault>
    ensures { result ≡ int_of value.now }
{
    match &value.node {
        Node::Int(n) => Ok(*n),
        _ => Err(EvalFault::WrongType),
    }
}

/// Returns the values of a list.
pub fn list_in<'s>(store: &'s Store, value: &Value) -> Result<&'s [Value], EvalErr>
    ensures { Gives (λ xs. xs.now) Bad result (list_in store.now value.now) }
{
    match &value.node {
        Node::Cell(cell) => match store.content(*cell) {
            None => Err(EvalErr::Bad(EvalFault::WrongType)),
            Some(content) => match content.body() {
                Body::List(values) => Ok(values.as_slice()),
                Body::Dict(_) => Err(EvalErr::Bad(EvalFault::WrongType)),
                Body::Rule(_) => Err(EvalErr::Bad(EvalFault::WrongType)),
            },
        },
        _ => Err(EvalErr::Bad(EvalFault::WrongType)),
    }
}

/// Returns the pairs of a dict.
pub fn dict_in<'s>(store: &'s Store, value: &Value) -> Result<&'s Dict, EvalErr>
    ensures { Gives (λ ps. ps.now) Bad result (dict_in store.now value.now) }
{
    match &value.node {
        Node::Cell(cell) => match store.content(*cell) {
            None => Err(EvalErr::Bad(EvalFault::WrongType)),
            Some(content) => match content.body() {
                Body::List(_) => Err(EvalErr::Bad(EvalFault::WrongType)),
                Body::Dict(dict) => Ok(dict),
                Body::Rule(_) => Err(EvalErr::Bad(EvalFault::WrongType)),
            },
        },
        _ => Err(EvalErr::Bad(EvalFault::WrongType)),
    }
}
