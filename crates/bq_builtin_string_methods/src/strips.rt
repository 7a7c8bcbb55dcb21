//! The methods that remove something from the ends of a string (Starlark, "string·strip", "string·lstrip",
//! "string·rstrip", "string·removeprefix", "string·removesuffix").

ghost use Rattle.std.specs.Prelude.{◌≡◌};
ghost use Rattle.bq_base.specs.Gives.{Gives};
ghost use Rattle.bq_value.specs.declared.error.EvalErr.TheVariants.{Bad};
ghost use Rattle.bq_builtin_machine.specs.Answer.{as_string};
ghost use Rattle.bq_builtin_string_methods.specs.Argument.{Says};
ghost use Rattle.bq_builtin_string_methods.specs.Strips.{end_in, without, strip};

use crate::argument::{bytes_in, text_in};
use bq_base::{Bytes, EvalFault};
use bq_builtin_strings::{lstrip, remove_prefix, remove_suffix, rstrip, strip as strip_both};
use bq_value::{EvalErr, Value};
use std::alloc::Global;

#[derive(Clone, Copy)]
pub enum StripMethod {
    Strip,
    Lstrip,
    Rstrip,
    Removeprefix,
    Removesuffix,
}

/// Returns what is removed: bytes of a set, or a text.
fn end_in(method: StripMethod, values: &[Value]) -> Result<&[u8], EvalFault>
    ensures { Says (λ end. end.now) result (end_in method values.now) }
{
    match method {
        StripMethod::Strip => bytes_in(values, 0),
        StripMethod::Lstrip => bytes_in(values, 0),
        StripMethod::Rstrip => bytes_in(values, 0),
        StripMethod::Removeprefix => Ok(text_in(values, 0)?.as_slice()),
        StripMethod::Removesuffix => Ok(text_in(values, 0)?.as_slice()),
    }
}

fn without<'t>(method: StripMethod, end: &[u8], text: &'t [u8]) -> &'t [u8]
    ensures { result.now ≡ without method end.now text.now }
{
    match method {
        StripMethod::Strip => strip_both(text, end),
        StripMethod::Lstrip => lstrip(text, end),
        StripMethod::Rstrip => rstrip(text, end),
        StripMethod::Removeprefix => remove_prefix(text, end),
        StripMethod::Removesuffix => remove_suffix(text, end),
    }
}

/// Returns what is left of the text.
#[tactic(auto, unfolding(crate::specs::Strips::strip))]
fn strip<'t>(method: StripMethod, text: &'t [u8], values: &[Value]) -> Result<&'t [u8], EvalFault>
    ensures { Says (λ part. part.now) result (strip method text.now values.now) }
{
    let end = end_in(method, values)?;
    Ok(without(method, end, text))
}

/// Returns `s.method(end)`.
pub fn stripped(
    alloc: Global,
    method: StripMethod,
    text: &[u8],
    values: &[Value],
) -> Result<Value, EvalErr>
    ensures { Gives (λ v. v) Bad result (as_string (strip method text.now values.now)) }
{
    let part = strip(method, text, values)?;
    Ok(Value::string(Bytes::from_slice(alloc, part)?))
}
