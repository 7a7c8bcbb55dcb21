//! Values that no program makes: those that nest a million deep, on a stack of the usual size; functions of `attr` that are not called;
//! and attributes of a type that rules in .bzl files haven't.

use bq_base::Bytes;
use bq_predeclared::{AttributeType, Predeclared, RuleFunction};
use bq_query_pattern::{PatternErr, QueryPattern};
use bq_value::{FunctionValue, Store, Value, equal};
use bq_value_datum::{Attribute, Seed};
use bq_value_text::text;
use std::alloc::{AllocError, Global};

const TIMES: usize = 1_000_000;

/// What a value is put into, again and again.
#[derive(Clone, Copy)]
enum Around {
    /// A tuple that has it alone.
    Alone,
    /// A tuple of it and `None`, or of `None` and it.
    First,
    Last,
    /// A function whose default it is.
    Default,
}

fn function(alloc: Global, defaults: Vec<Value>) -> Result<Value, AllocError> {
    Value::function(
        alloc,
        FunctionValue {
            module: 1,
            place: 1,
            name: Bytes::empty(),
            defaults,
        },
    )
}

/// One value, or two.
fn list_of<T: Drop>(alloc: Global, first: T, second: Option<T>) -> Result<Vec<T>, AllocError> {
    let mut items = Vec::new(alloc);
    items.push(first)?;
    match second {
        Some(item) => items.push(item)?,
        None => {}
    }
    Ok(items)
}

fn put_into(alloc: Global, around: Around, value: Value) -> Result<Value, AllocError> {
    let values = match around {
        Around::First => list_of(alloc, value, Some(Value::none())),
        Around::Last => list_of(alloc, Value::none(), Some(value)),
        _ => list_of(alloc, value, None),
    };
    match around {
        Around::Default => function(alloc, values?),
        _ => Value::tuple(alloc, values?),
    }
}

fn nested(alloc: Global, around: Around) -> Result<Value, AllocError> {
    let mut value = Value::int(1);
    for _ in 0..TIMES {
        value = put_into(alloc, around, value)?;
    }
    Ok(value)
}

/// Calls within calls would take more stack than there is.
#[test]
fn deep_values_come_to_an_end(rt: HostRuntime) -> Result<(), AllocError> {
    for around in [Around::Alone, Around::First, Around::Last, Around::Default] {
        drop(nested(rt.alloc(), around)?);
    }
    Ok(())
}

fn add_shares(values: &mut Vec<Value>, value: &Value, times: usize) -> Result<(), AllocError> {
    for _ in 0..times {
        values.push(value.share()?)?;
    }
    Ok(())
}

/// A tuple that has a value so many times, and is its only owner.
fn repeated(alloc: Global, value: Value, times: usize) -> Result<Value, AllocError> {
    let mut values = Vec::new(alloc);
    let added = add_shares(&mut values, &value, times);
    drop(value);
    match added {
        Ok(()) => Value::tuple(alloc, values),
        Err(error) => {
            drop(values);
            Err(error)
        }
    }
}

/// A deep value of two owners, and a tuple of a million.
#[test]
fn shared_and_wide_values_come_to_an_end(rt: HostRuntime) -> Result<(), AllocError> {
    let deep = nested(rt.alloc(), Around::First)?;
    drop(repeated(rt.alloc(), deep, 2)?);
    let one = put_into(rt.alloc(), Around::Alone, Value::int(1))?;
    drop(repeated(rt.alloc(), one, TIMES)?);
    Ok(())
}

fn attribute(alloc: Global, kind: AttributeType, is_mandatory: bool) -> Result<Value, AllocError> {
    Value::attribute(
        alloc,
        Attribute {
            kind,
            is_mandatory,
            default: None,
        },
    )
}

/// Whether two values are unlike, which takes one step of 99.
fn are_unlike(alloc: Global, a: Value, b: Value) -> bool {
    let store = Store::new(alloc, 1, Seed::fixed());
    let found = equal(&store, 99, &a, &b);
    let is_so = matches!(&found, Ok((false, 98)));
    drop(found);
    drop(a);
    drop(b);
    drop(store);
    is_so
}

#[test]
fn functions_that_declare_rules_are_equal_by_which_they_are(
    rt: HostRuntime,
) -> Result<(), AllocError> {
    let alloc = rt.alloc();
    let made = attribute(alloc, AttributeType::String, false)?;
    let string = Value::rule_function(RuleFunction::Attr(AttributeType::String));
    assert!(rt; are_unlike(alloc, made, string));
    let int = Value::rule_function(RuleFunction::Attr(AttributeType::Int));
    assert!(rt; are_unlike(alloc, Value::rule_function(RuleFunction::Rule), int));
    let int = Value::rule_function(RuleFunction::Attr(AttributeType::Int));
    assert!(rt; are_unlike(alloc, int, Value::built_in(Predeclared::BuiltIn(6))));
    Ok(())
}

/// Whether this is the text of a value, which takes one step of 99.
fn has_text(alloc: Global, value: &Value, wanted: &[u8]) -> bool {
    let store = Store::new(alloc, 1, Seed::fixed());
    let found = text(alloc, &store, 99, value);
    let is_so = match &found {
        Ok((shown, 98)) => shown.as_slice() == wanted,
        _ => false,
    };
    drop(found);
    drop(store);
    is_so
}

#[test]
fn text_of_an_output_attribute(rt: HostRuntime) -> Result<(), AllocError> {
    let output = attribute(rt.alloc(), AttributeType::Output, true)?;
    let is_shown = has_text(rt.alloc(), &output, b"<attr.output>");
    drop(output);
    assert!(rt; is_shown);
    Ok(())
}

fn is_bad_pattern(alloc: Global, bytes: &Bytes) -> bool {
    matches!(QueryPattern::new(alloc, bytes), Err(PatternErr::BadRegex))
}

/// A pattern of bytes that are no text: an argument of the program can't have them.
#[test]
fn a_pattern_that_is_no_text(rt: HostRuntime) -> Result<(), AllocError> {
    let bytes = Bytes::from_slice(rt.alloc(), b"\xff")?;
    let refused = is_bad_pattern(rt.alloc(), &bytes);
    drop(bytes);
    assert!(rt; refused);
    Ok(())
}
