//! `type`, `str`, `repr`, `print` and `fail` (Starlark, "type", "str", "repr", "print", "fail").

ghost use Rattle.std.specs.Prelude.{◌≡◌, Some, option_copied};
ghost use Rattle.bq_base.specs.Gives.{Gives};
ghost use Rattle.bq_value.specs.declared.error.EvalErr.TheVariants.{Bad};
ghost use Rattle.bq_builtin_machine.specs.Action.{Does};
ghost use Rattle.bq_value_text.specs.Page.{written};
ghost use Rattle.bq_value_text.specs.Shown.{text_shown};
ghost use Rattle.bq_builtin.specs.Texts.{content_type, type_name, type_of, str, repr, others_shown, values_shown, joined_texts, space, separator_of, separator_in, print, fail};

use crate::arguments::{by_place, only_argument, only_named, text};
use bq_base::{Bytes, EvalFault};
use bq_builtin_machine::{Args, Machine};
use bq_value::{Body, Content, EvalErr, Node, Store, Value};
use bq_value_text::{Page, write_text};
use std::alloc::Global;

fn content_type(content: &Content) -> &'static [u8]
    ensures { Ok result.now ≡ content_type (Some content.now) }
{
    match content.body() {
        Body::List(_) => b"list",
        Body::Dict(_) => b"dict",
        Body::Rule(_) => b"rule",
    }
}

#[tactic(auto, unfolding(crate::specs::Texts::type_name))]
fn type_name(store: &Store, value: &Value) -> Result<&'static [u8], EvalErr>
    ensures { Gives (λ name. name.now) Bad result (type_name store.now value.now) }
{
    match &value.node {
        Node::NoneValue => Ok(b"NoneType"),
        Node::Bool(_) => Ok(b"bool"),
        Node::Int(_) => Ok(b"int"),
        Node::Text(_) => Ok(b"string"),
        Node::Tuple(_) => Ok(b"tuple"),
        Node::Range(_) => Ok(b"range"),
        Node::Cell(cell) => match store.content(*cell) {
            Some(content) => Ok(content_type(content)),
            None => Err(EvalErr::Bad(EvalFault::WrongType)),
        },
        Node::Function(_) => Ok(b"function"),
        Node::BuiltIn(_) => Ok(b"builtin_function_or_method"),
        Node::SchemaRule(_, _) => Ok(b"builtin_function_or_method"),
        Node::Rule | Node::Attr(_) => Ok(b"builtin_function_or_method"),
        Node::Attribute(_) => Ok(b"Attribute"),
    }
}

/// Returns `type(x)`: the name of its type.
#[tactic(auto, unfolding(crate::specs::Texts::type_of))]
pub(crate) fn type_of(alloc: Global, machine: &Machine, args: &Args) -> Result<Value, EvalErr>
    ensures { Gives (λ v. v) Bad result (type_of machine.now.store args.now) }
{
    let value = only_argument(args)?;
    let name = type_name(machine.store(), value)?;
    Ok(Value::string(Bytes::from_slice(alloc, name)?))
}

/// Returns `str(x)`.
#[tactic(auto, unfolding(crate::specs::Texts::str))]
pub(crate) fn str(alloc: Global, machine: &mut Machine, args: &Args) -> Result<Value, EvalErr>
    ensures { Does (λ v. v) result machine.new (str args.now machine.old) }
{
    let value = only_argument(args)?;
    Ok(Value::string(machine.text(alloc, value)?))
}

/// Returns `repr(x)`.
#[tactic(auto, unfolding(crate::specs::Texts::repr))]
pub(crate) fn repr(alloc: Global, machine: &mut Machine, args: &Args) -> Result<Value, EvalErr>
    ensures { Does (λ v. v) result machine.new (repr args.now machine.old) }
{
    let value = only_argument(args)?;
    Ok(Value::string(machine.repr(alloc, value)?))
}

/// Writes the separator and the `str` of a value, and returns how many of the steps are left.
fn write_next(
    store: &Store,
    steps: u64,
    separator: &[u8],
    value: &Value,
    page: &mut Page,
) -> Result<u64, EvalErr>
    ensures { Gives (λ left. (page.new, left)) Bad result (text_shown store.now (written page.old separator.now) steps value.now) }
{
    page.write(separator)?;
    write_text(store, steps, value, page)
}

/// Writes the `str` of each value after the separator, and returns how many of the steps are left.
fn write_others(
    store: &Store,
    steps: u64,
    separator: &[u8],
    values: &[Value],
    page: &mut Page,
) -> Result<u64, EvalErr>
    ensures { Gives (λ left. (page.new, left)) Bad result (others_shown separator.now store.now page.old steps values.now) }
{
    let mut left = steps;
    for value in values {
        left = write_next(store, left, separator, value, page)?;
    }
    Ok(left)
}

/// Writes the `str` of each value, with the separator between two, and returns how many of the steps are left.
fn write_values(
    store: &Store,
    steps: u64,
    separator: &[u8],
    values: &[Value],
    page: &mut Page,
) -> Result<u64, EvalErr>
    ensures { Gives (λ left. (page.new, left)) Bad result (values_shown separator.now store.now page.old steps values.now) }
{
    match values {
        [] => Ok(steps),
        [first, others @ ..] => {
            let left = write_text(store, steps, first, page)?;
            write_others(store, left, separator, others, page)
        }
    }
}

/// Returns the text of values, and how many of the steps are left.
#[tactic(auto, unfolding(crate::specs::Texts::joined_texts))]
fn joined_texts(
    alloc: Global,
    store: &Store,
    steps: u64,
    separator: &[u8],
    values: &[Value],
) -> Result<(Bytes, u64), EvalErr>
    ensures { Gives (λ answer. answer) Bad result (joined_texts separator.now store.now steps values.now) }
{
    let mut page = Page::new(alloc);
    let left = write_values(store, steps, separator, values, &mut page)?;
    Ok((page.finish(alloc)?, left))
}

fn separator_of(value: Option<&Value>) -> Result<&[u8], EvalErr>
    ensures { Gives (λ text. text.now) Bad result (separator_of (option_copied value.entry)) }
{
    match value {
        None => Ok(b" "),
        Some(value) => Ok(text(value)?.as_slice()),
    }
}

#[tactic(auto, unfolding(crate::specs::Texts::separator_in))]
fn separator_in(named: &[(Bytes, Value)]) -> Result<&[u8], EvalErr>
    ensures { Gives (λ text. text.now) Bad result (separator_in named.now) }
{
    separator_of(only_named(b"sep", named)?)
}

/// `print(.., sep = " ")`: prints one more text.
#[tactic(auto, unfolding(crate::specs::Texts::print))]
pub(crate) fn print(alloc: Global, machine: &mut Machine, args: &Args) -> Result<Value, EvalErr>
    ensures { Does (λ v. v) result machine.new (print args.now machine.old) }
{
    let separator = separator_in(&args.named)?;
    let (text, left) = joined_texts(
        alloc,
        machine.store(),
        machine.steps(),
        separator,
        &args.positional,
    )?;
    machine.set_steps(left);
    machine.print(text)?;
    Ok(Value::none())
}

/// `fail(..)`: stops the program.
#[tactic(auto, unfolding(crate::specs::Texts::fail))]
pub(crate) fn fail(alloc: Global, machine: &mut Machine, args: &Args) -> Result<Value, EvalErr>
    ensures { Does (λ v. v) result machine.new (fail args.now machine.old) }
{
    let values = by_place(args)?;
    let (text, left) = joined_texts(alloc, machine.store(), machine.steps(), b" ", values)?;
    machine.set_steps(left);
    machine.fail(text)
}
