//! Calls of the functions that declare rules, and of rules.

ghost use Rattle.std.specs.Prelude.{◌≡◌, IfOk};
ghost use Rattle.bq_base.specs.Gives.{Gives};
ghost use Rattle.bq_value.specs.declared.error.EvalErr.TheVariants.{Bad};
ghost use Rattle.bq_value.specs.Cells.{content_at, kind_of};
ghost use Rattle.bq_builtin_machine.specs.Action.{Does, HostDoes};
ghost use Rattle.bq_package_attributes.specs.Call.{new_attribute, new_rule, declare, class_in, call_kind, call_class, call_rule_function, call_cell};

use crate::attribute::attribute;
use crate::rule::class;
use bq_base::{Bytes, EvalFault};
use bq_builtin_machine::{Args, Machine};
use bq_package_values::Host;
use bq_predeclared::{AttributeType, RuleFunction};
use bq_value::{Body, Cell, Content, EvalErr, Store, Value};
use bq_value_datum::RuleClass;
use std::alloc::{AllocError, Global};

/// Carries out `attr.NAME(..)`.
#[tactic(auto, unfolding(crate::specs::Call::new_attribute))]
fn new_attribute<H: Host>(
    alloc: Global,
    host: &H,
    kind: AttributeType,
    args: Args,
    machine: &Machine,
) -> Result<Value, EvalErr>
    ensures { Does (λ v. v) result machine.now (new_attribute (H.means.read_default (H.seen host.now)) kind args machine.now) }
{
    let attribute = attribute(alloc, host, machine.store(), kind, args)?;
    Ok(Value::attribute(alloc, attribute)?)
}

/// Carries out `rule(..)`.
#[tactic(auto, unfolding(crate::specs::Call::new_rule))]
fn new_rule(
    alloc: Global,
    in_build: bool,
    args: Args,
    machine: &mut Machine,
) -> Result<Value, EvalErr>
    ensures { Does (λ v. v) result machine.new (new_rule in_build args machine.old) }
{
    let class = class(alloc, in_build, machine.store(), args)?;
    machine.new_content(Content::rule(class))
}

fn declare<H: Host>(
    alloc: Global,
    host: &H,
    function: RuleFunction,
    args: Args,
    machine: &mut Machine,
) -> Result<Value, EvalErr>
    ensures { Does (λ v. v) result machine.new (declare (H.means.read_default (H.seen host.now)) (H.means.in_build (H.seen host.now)) function args machine.old) }
{
    match function {
        RuleFunction::Rule => new_rule(alloc, host.in_build(), args, machine),
        RuleFunction::Attr(kind) => new_attribute(alloc, host, kind, args, machine),
    }
}

/// Calls a function that declares rules.
#[tactic(auto, using(crate::proofs::Lifting::lifted), unfolding(crate::specs::Call::call_rule_function))]
pub fn call_rule_function<H: Host>(
    alloc: Global,
    host: &H,
    function: RuleFunction,
    args: Args,
    machine: &mut Machine,
) -> Result<Value, EvalErr>
    ensures { HostDoes (λ v. v) result machine.new (H.seen host.now) (call_rule_function H.means function args (machine.old, H.seen host.now)) }
{
    declare(alloc, host, function, args, machine)
}

/// Returns the attributes of the rule that a cell holds.
fn class_in(store: &Store, cell: Cell) -> Result<RuleClass, EvalErr>
    ensures { Gives (λ c. c) Bad result (class_in (content_at store.now cell.module cell.number)) }
{
    let Some(content) = store.content(cell) else {
        return Err(EvalErr::Bad(EvalFault::WrongType));
    };
    match content.body() {
        Body::Rule(class) => Ok(class.share()?),
        _ => Err(EvalErr::Bad(EvalFault::WrongType)),
    }
}

/// Returns the kind of the rule that a cell holds.
fn kind_of(store: &Store, cell: Cell) -> Result<Option<Bytes>, AllocError>
    ensures { IfOk result (λ kind. kind ≡ kind_of store.now cell.module cell.number) }
{
    match store.kind(cell) {
        None => Ok(None),
        Some(kind) => Ok(Some(kind.share()?)),
    }
}

/// Calls a rule of a kind.
fn call_kind<H: Host>(
    alloc: Global,
    host: &mut H,
    kind: Option<Bytes>,
    class: &RuleClass,
    args: Args,
    machine: &mut Machine,
) -> Result<Value, EvalErr>
    ensures { HostDoes (λ v. v) result machine.new (H.seen host.new) (call_kind H.means kind class.now args (machine.old, H.seen host.old)) }
{
    match kind {
        None => Err(EvalErr::Bad(EvalFault::BadValue)),
        Some(kind) => host.call_rule(alloc, &kind, class, args, machine),
    }
}

/// Calls the rule that a cell holds.
#[tactic(auto, unfolding(crate::specs::Call::call_class))]
fn call_class<H: Host>(
    alloc: Global,
    host: &mut H,
    cell: Cell,
    class: &RuleClass,
    args: Args,
    machine: &mut Machine,
) -> Result<Value, EvalErr>
    ensures { HostDoes (λ v. v) result machine.new (H.seen host.new) (call_class H.means cell.module cell.number class.now args (machine.old, H.seen host.old)) }
{
    if !host.in_build() {
        return Err(EvalErr::Bad(EvalFault::NotInPackage));
    }
    let kind = kind_of(machine.store(), cell)?;
    call_kind(alloc, host, kind, class, args, machine)
}

/// Calls a cell.
#[tactic(auto, unfolding(crate::specs::Call::call_cell))]
pub fn call_cell<H: Host>(
    alloc: Global,
    host: &mut H,
    cell: Cell,
    args: Args,
    machine: &mut Machine,
) -> Result<Value, EvalErr>
    ensures { HostDoes (λ v. v) result machine.new (H.seen host.new) (call_cell H.means cell.module cell.number args (machine.old, H.seen host.old)) }
{
    let class = class_in(machine.store(), cell)?;
    call_class(alloc, host, cell, &class, args, machine)
}
