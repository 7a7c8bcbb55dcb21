//! The methods that look for a text in a region of a string (Starlark, "string·count", "string·find", "string·rfind",
//! "string·index", "string·rindex").

ghost use Rattle.std.specs.Prelude.{◌≡◌, ◌+◌};
ghost use Rattle.bq_builtin_string_methods.specs.Searches.{number, place_or_less, place_or_fault, said, search};

use crate::argument::{region, text_in};
use bq_base::EvalFault;
use bq_builtin_strings::{count, find, rfind};
use bq_value::Value;

#[derive(Clone, Copy)]
pub enum SearchMethod {
    Count,
    Find,
    Rfind,
    Index,
    Rindex,
}

/// Returns a number as a value; F41 if it doesn't fit 64 bits, which no string is long enough for.
#[tactic(auto, using(std::proofs::lemmas::Bool::Decides::nat_tests))]
fn number(n: usize) -> Result<Value, EvalFault>
    ensures { result ≡ number n }
{
    if n >= 1 << 63 {
        return Err(EvalFault::Overflow);
    }
    Ok(Value::int(n as i64))
}

/// Returns a sum as a value.
#[tactic(auto, using(std::proofs::lemmas::Bool::Decides::nat_tests))]
fn sum(from: usize, at: usize) -> Result<Value, EvalFault>
    ensures { result ≡ number (from + at) }
{
    match from.checked_add(at) {
        Some(place) => number(place),
        None => Err(EvalFault::Overflow),
    }
}

/// Returns the place in the string of what was found in a region that starts at `from`; -1 if nothing was found.
fn place_or_less(from: usize, found: Option<usize>) -> Result<Value, EvalFault>
    ensures { result ≡ place_or_less from found }
{
    match found {
        None => Ok(Value::int(-1)),
        Some(at) => sum(from, at),
    }
}

/// Returns the place in the string of what was found in a region that starts at `from`; F57 if nothing was found.
fn place_or_fault(from: usize, found: Option<usize>) -> Result<Value, EvalFault>
    ensures { result ≡ place_or_fault from found }
{
    match found {
        None => Err(EvalFault::BadValue),
        Some(at) => sum(from, at),
    }
}

/// Returns the result of a search in `part`, a region that starts at `from`.
fn said(method: SearchMethod, sub: &[u8], from: usize, part: &[u8]) -> Result<Value, EvalFault>
    ensures { result ≡ said method sub.now from part.now }
{
    match method {
        SearchMethod::Count => number(count(part, sub)),
        SearchMethod::Find => place_or_less(from, find(part, sub)),
        SearchMethod::Rfind => place_or_less(from, rfind(part, sub)),
        SearchMethod::Index => place_or_fault(from, find(part, sub)),
        SearchMethod::Rindex => place_or_fault(from, rfind(part, sub)),
    }
}

/// Returns `s.method(sub, start, end)`.
#[tactic(auto, unfolding(crate::specs::Searches::search))]
pub fn search(method: SearchMethod, text: &[u8], values: &[Value]) -> Result<Value, EvalFault>
    ensures { result ≡ search method text.now values.now }
{
    let sub = text_in(values, 0)?;
    let (from, part) = region(text, values, 1, 2)?;
    said(method, sub.as_slice(), from, part)
}
