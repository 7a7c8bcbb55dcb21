//! The target that a call of a rule declares.

ghost use Rattle.std.specs.Prelude.{◌≡◌, ◌++◌, IfOk, OnOk};
ghost use Rattle.bq_base.specs.Gives.{Gives};
ghost use Rattle.bq_value.specs.declared.error.EvalErr.TheVariants.{Bad};
ghost use Rattle.bq_package_attributes.specs.Arguments.{nothing_given};
ghost use Rattle.bq_package_attributes.specs.Declarations.{gives, gives_mandatory, default_for, defaults, target, declaration};

use crate::arguments::{Callee, Given, is_none};
use crate::keyword_arguments::Keywords;
use bq_base::{Bytes, EvalFault};
use bq_builtin_machine::Args;
use bq_package_target::{AttributeList, GivenAttribute, Target, TargetKind};
use bq_value::EvalErr;
use bq_value_datum::{Attribute, RuleClass};
use sqlite_items::Items;
use std::alloc::{AllocError, Global};
use std::mem;

/// Returns whether a keyword argument of that name is there, and isn't `None`.
fn gives(keywords: &Keywords, name: &Bytes) -> Result<bool, AllocError>
    ensures { IfOk result (λ given. given ≡ gives keywords.now name.now) }
{
    match keywords.get(name)? {
        None => Ok(false),
        Some(value) => Ok(!is_none(value)),
    }
}

/// Returns whether each attribute that has to be given is.
#[tactic(auto, unfolding(crate::specs::Declarations::gives_mandatory))]
fn gives_mandatory(class: &RuleClass, keywords: &Keywords) -> Result<bool, AllocError>
    ensures { IfOk result (λ all. all ≡ gives_mandatory class.now keywords.now) }
{
    for place in 0..class.len() {
        let Some((name, attribute)) = class.entry(place) else {
            return Ok(true);
        };
        if !attribute.is_mandatory {
            continue;
        }
        if !gives(keywords, name)? {
            return Ok(false);
        }
    }
    Ok(true)
}

/// Appends the default of an attribute that the keyword arguments don't give. The names of outputs have none.
#[tactic(auto, unfolding(crate::specs::Declarations::default_for))]
fn add_default(
    keywords: &Keywords,
    name: &Bytes,
    attribute: &Attribute,
    attributes: &mut Items<GivenAttribute>,
) -> Result<(), AllocError>
    ensures { OnOk result (attributes.new ≡ attributes.old ++ default_for keywords.now (name.now, attribute.now)) }
{
    let Some(value) = &attribute.default else {
        return Ok(());
    };
    if value.names_outputs() {
        return Ok(());
    }
    if gives(keywords, name)? {
        return Ok(());
    }
    let name = name.share()?;
    let value = value.share()?;
    attributes.push(GivenAttribute { name, value })?;
    Ok(())
}

/// Appends the defaults of the attributes that the keyword arguments don't give, in the order of the class.
fn add_defaults(
    class: &RuleClass,
    keywords: &Keywords,
    attributes: &mut Items<GivenAttribute>,
) -> Result<(), AllocError>
    ensures { OnOk result (attributes.new ≡ attributes.old ++ defaults keywords.now class.now) }
{
    for place in 0..class.len() {
        let Some((name, attribute)) = class.entry(place) else {
            return Ok(());
        };
        add_default(keywords, name, attribute, attributes)?;
    }
    Ok(())
}

/// Returns the target that these keyword arguments declare; or the faults of the arguments, F72 if its name isn't given,
/// or another attribute that has to be. `given`, in which nothing is given yet, collects what they give and is the
/// caller's, so that only the caller lets go of it where a call fails.
#[tactic(auto, unfolding(crate::specs::Declarations::target), using(crate::proofs::Declared::lacks))]
fn target(
    alloc: Global,
    callee: Callee<'_>,
    line: u32,
    keywords: &Keywords,
    given: &mut Given,
) -> Result<Target, EvalErr>
    requires { given.old ≡ nothing_given }
    ensures { Gives (λ t. t) Bad result (target callee.entry.scope.own.now callee.entry.scope.packages.now callee.entry.store.now callee.entry.class.now callee.entry.kind.now line keywords.now) }
{
    given.take_arguments(alloc, callee, keywords)?;
    if !gives_mandatory(callee.class, keywords)? {
        return Err(EvalErr::Bad(EvalFault::MissingAttribute));
    }
    add_defaults(callee.class, keywords, &mut given.attributes)?;
    let class = callee.class.share()?;
    let kind = callee.kind.share()?;
    let Some(label) = given.name.take() else {
        return Err(EvalErr::Bad(EvalFault::MissingAttribute));
    };
    let attributes = mem::replace(&mut given.attributes, Items::new(alloc));
    Ok(Target {
        label,
        kind: TargetKind::Rule(kind, class),
        attributes: AttributeList::of(alloc, attributes)?,
        line,
    })
}

/// Returns the target that a call of a rule declares, with the line of the call; or F52, the faults of the arguments,
/// F72 if its name isn't given, or another attribute that has to be.
#[tactic(auto, unfolding(crate::specs::Declarations::declaration))]
pub fn declaration(
    alloc: Global,
    callee: Callee<'_>,
    line: u32,
    args: Args,
) -> Result<Target, EvalErr>
    ensures { Gives (λ t. t) Bad result (declaration callee.entry.scope.own.now callee.entry.scope.packages.now callee.entry.store.now callee.entry.class.now callee.entry.kind.now line args) }
{
    let count = args.named.len();
    let keywords = Keywords::of(alloc, callee.store.seed(), args)?;
    let mut given = Given {
        name: None,
        attributes: Items::from_vec(Vec::with_capacity(alloc, count)?),
    };
    target(alloc, callee, line, &keywords, &mut given)
}
