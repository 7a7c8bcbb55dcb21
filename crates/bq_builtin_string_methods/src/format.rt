//! The method that fills a format (Starlark, "string·format").

ghost use Rattle.bq_builtin_machine.specs.Action.{Does};
ghost use Rattle.bq_builtin_string_methods.specs.Format.{format_text};

use bq_builtin_format::format;
use bq_builtin_machine::{Args, Machine};
use bq_value::{EvalErr, Value};
use std::alloc::Global;

/// Returns `text.format(args)`.
pub fn format_text(
    alloc: Global,
    machine: &mut Machine,
    text: &[u8],
    args: &Args,
) -> Result<Value, EvalErr>
    ensures { Does (λ v. v) result machine.new (format_text text.now args.now machine.old) }
{
    let (made, left) = format(
        alloc,
        machine.store(),
        machine.steps(),
        text,
        &args.positional,
        &args.named,
    )?;
    machine.set_steps(left);
    Ok(Value::string(made))
}
