//! The methods of strings: a row for each, and what a call of it gives. A new one comes last, so that the others keep their places.

ghost use Rattle.std.specs.Prelude.{slice_get};
ghost use Rattle.std.specs.Map.{values_of};
ghost use Rattle.bq_builtin_machine.specs.Action.{Does};
ghost use Rattle.bq_builtin_methods.specs.Methods.{string_methods};
ghost use Rattle.bq_builtin_methods.specs.Call.{call_in};
ghost use Rattle.bq_builtin_methods.specs.Row.{IsRowOf, called_at};

use crate::row::{Parameters, fits, row_in};
use bq_base::{Bytes, EvalFault};
use bq_builtin_machine::{Args, Machine};
use bq_builtin_string_methods::{
    EndMethod, SearchMethod, Side, StripMethod, ends, format_text, joined, new_strings, partition,
    replace, search, split, splitlines, stripped,
};
use bq_builtin_strings::{ByteClass, all_are, elems, is_lower, is_upper, lower, upper};
use bq_value::{EvalErr, Value};
use std::alloc::Global;

/// The names of the methods, and which arguments they take.
const STRING_METHODS: [(&[u8], Parameters); 29] = [
    (b"count", Parameters::Positional(1, 3)),
    (b"elems", Parameters::Positional(0, 0)),
    (b"endswith", Parameters::Positional(1, 3)),
    (b"find", Parameters::Positional(1, 3)),
    (b"format", Parameters::Any),
    (b"index", Parameters::Positional(1, 3)),
    (b"isalnum", Parameters::Positional(0, 0)),
    (b"isalpha", Parameters::Positional(0, 0)),
    (b"isdigit", Parameters::Positional(0, 0)),
    (b"islower", Parameters::Positional(0, 0)),
    (b"isspace", Parameters::Positional(0, 0)),
    (b"isupper", Parameters::Positional(0, 0)),
    (b"join", Parameters::Positional(1, 1)),
    (b"lower", Parameters::Positional(0, 0)),
    (b"lstrip", Parameters::Positional(0, 1)),
    (b"partition", Parameters::Positional(1, 1)),
    (b"removeprefix", Parameters::Positional(1, 1)),
    (b"removesuffix", Parameters::Positional(1, 1)),
    (b"replace", Parameters::Positional(2, 3)),
    (b"rfind", Parameters::Positional(1, 3)),
    (b"rindex", Parameters::Positional(1, 3)),
    (b"rpartition", Parameters::Positional(1, 1)),
    (b"rsplit", Parameters::Positional(0, 2)),
    (b"rstrip", Parameters::Positional(0, 1)),
    (b"split", Parameters::Positional(0, 2)),
    (b"splitlines", Parameters::Positional(0, 1)),
    (b"startswith", Parameters::Positional(1, 3)),
    (b"strip", Parameters::Positional(0, 1)),
    (b"upper", Parameters::Positional(0, 0)),
];

/// Returns the row of a name, if strings have the method.
fn string_row(name: &[u8]) -> Option<(usize, Parameters)>
    ensures { IsRowOf string_methods name.now result }
{
    row_in(&STRING_METHODS, name)
}

/// Calls the method whose row has this place.
#[tactic(auto, unfolding(crate::specs::Methods::string_methods))]
fn string_method(
    alloc: Global,
    machine: &mut Machine,
    place: usize,
    text: &[u8],
    args: &Args,
) -> Result<Value, EvalErr>
    ensures { Does (λ v. v) result machine.new (called_at (slice_get (values_of string_methods) place) text.now args.now machine.old) }
{
    let values = args.positional.as_slice();
    match place {
        0 => Ok(search(SearchMethod::Count, text, values)?),
        1 => new_strings(alloc, machine, elems(alloc, text)?),
        2 => Ok(ends(EndMethod::Endswith, text, values)?),
        3 => Ok(search(SearchMethod::Find, text, values)?),
        4 => format_text(alloc, machine, text, args),
        5 => Ok(search(SearchMethod::Index, text, values)?),
        6 => Ok(Value::bool(all_are(text, ByteClass::Alphanumeric))),
        7 => Ok(Value::bool(all_are(text, ByteClass::Alphabetic))),
        8 => Ok(Value::bool(all_are(text, ByteClass::Digit))),
        9 => Ok(Value::bool(is_lower(text))),
        10 => Ok(Value::bool(all_are(text, ByteClass::Space))),
        11 => Ok(Value::bool(is_upper(text))),
        12 => joined(alloc, machine, text, values),
        13 => Ok(Value::string(Bytes::from_vec(alloc, lower(alloc, text)?)?)),
        14 => Ok(stripped(alloc, StripMethod::Lstrip, text, values)?),
        15 => Ok(partition(alloc, Side::Left, text, values)?),
        16 => Ok(stripped(alloc, StripMethod::Removeprefix, text, values)?),
        17 => Ok(stripped(alloc, StripMethod::Removesuffix, text, values)?),
        18 => Ok(Value::string(replace(alloc, text, values)?)),
        19 => Ok(search(SearchMethod::Rfind, text, values)?),
        20 => Ok(search(SearchMethod::Rindex, text, values)?),
        21 => Ok(partition(alloc, Side::Right, text, values)?),
        22 => new_strings(alloc, machine, split(alloc, Side::Right, text, values)?),
        23 => Ok(stripped(alloc, StripMethod::Rstrip, text, values)?),
        24 => new_strings(alloc, machine, split(alloc, Side::Left, text, values)?),
        25 => new_strings(alloc, machine, splitlines(alloc, text, values)?),
        26 => Ok(ends(EndMethod::Startswith, text, values)?),
        27 => Ok(stripped(alloc, StripMethod::Strip, text, values)?),
        28 => Ok(Value::string(Bytes::from_vec(alloc, upper(alloc, text)?)?)),
        _ => Err(EvalErr::Bad(EvalFault::NoMethod)),
    }
}

/// Returns `text.name(args)`.
pub(crate) fn call_of_string(
    alloc: Global,
    machine: &mut Machine,
    name: &[u8],
    text: &[u8],
    args: &Args,
) -> Result<Value, EvalErr>
    ensures { Does (λ v. v) result machine.new (call_in string_methods name.now text.now args.now machine.old) }
{
    match string_row(name) {
        Some((place, parameters)) => {
            fits(parameters, args)?;
            string_method(alloc, machine, place, text, args)
        }
        None => Err(EvalErr::Bad(EvalFault::NoMethod)),
    }
}
