//! The methods that look at the ends of a region of a string (Starlark, "string·startswith", "string·endswith").

ghost use Rattle.std.specs.Prelude.{◌≡◌, Ok};
ghost use Rattle.std.specs.List.{list_any};
ghost use Rattle.bq_builtin_machine.specs.Answer.{and_then};
ghost use Rattle.bq_builtin_string_methods.specs.Affixes.{has_end, texts_of, ends};

use crate::argument::{argument, region};
use bq_base::EvalFault;
use bq_value::{Node, Value};

#[derive(Clone, Copy)]
pub enum EndMethod {
    Startswith,
    Endswith,
}

fn has_end(method: EndMethod, part: &[u8], text: &[u8]) -> bool
    ensures { result ≡ has_end method part.now text.now }
{
    match method {
        EndMethod::Startswith => part.starts_with(text),
        EndMethod::Endswith => part.ends_with(text),
    }
}

/// Returns whether one of these strings is at that end; F40 if one of them isn't a string.
fn has_one(method: EndMethod, part: &[u8], values: &[Value]) -> Result<bool, EvalFault>
    ensures { result ≡ and_then (texts_of values.now) (λ texts. Ok (list_any (has_end method part.now) texts)) }
{
    let mut found = false;
    for value in values {
        let Node::Text(text) = &value.node else {
            return Err(EvalFault::WrongType);
        };
        found = found || has_end(method, part, text.as_slice());
    }
    Ok(found)
}

/// Returns `s.method(x, start, end)`, where x is a string, or a tuple of strings of which one has to be there.
#[tactic(auto, using(bq_value_datum::specs::Datum::list_of_data_of), unfolding(crate::specs::Affixes::ends))]
pub fn ends(method: EndMethod, text: &[u8], values: &[Value]) -> Result<Value, EvalFault>
    ensures { result ≡ ends method text.now values.now }
{
    let (_, part) = region(text, values, 1, 2)?;
    let Some(value) = argument(values, 0) else {
        return Err(EvalFault::Args);
    };
    match &value.node {
        Node::Text(end) => Ok(Value::bool(has_end(method, part, end.as_slice()))),
        Node::Tuple(items) => Ok(Value::bool(has_one(method, part, items)?)),
        _ => Err(EvalFault::WrongType),
    }
}
