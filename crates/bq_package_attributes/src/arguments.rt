//! The arguments of a call of a rule.

ghost use Rattle.std.specs.Prelude.{◌≡◌, IfOk};
ghost use Rattle.bq_base.specs.Gives.{Gives};
ghost use Rattle.bq_value.specs.declared.error.EvalErr.TheVariants.{Bad};
ghost use Rattle.bq_value.specs.Datum.{string};
ghost use Rattle.bq_package_attributes.specs.KeywordArguments.{pairs};
ghost use Rattle.bq_package_attributes.specs.Arguments.{is_none, keyword, with_name, with_argument, with_arguments};

use crate::keyword_arguments::{HeldArguments, Keywords};
use bq_base::{Bytes, EvalFault};
use bq_label::Label;
use bq_package_target::{GivenAttribute, attribute_type};
use bq_package_values::{PackageScope, TextKind, label, text_in, value_as};
use bq_value::{Dict, EvalErr, Key, Node, Store, Value};
use bq_value_datum::{AttributeValue, RuleClass};
use sqlite_items::Items;
use std::alloc::{AllocError, Global};

/// What the arguments have given so far.
#[derive(Drop)]
pub struct Given {
    /// The target's label, once its name is read.
    pub name: Option<Label>,
    /// The attributes, in the order in which they are written.
    pub attributes: Items<GivenAttribute>,
}

/// The rule that is called, where, and in what its values are read.
#[derive(Clone, Copy)]
pub struct Callee<'a> {
    pub scope: PackageScope<'a>,
    pub store: &'a Store,
    /// The attributes that the rule has of its own.
    pub class: &'a RuleClass,
    /// The name of the rule's kind.
    pub kind: &'a Bytes,
}

/// Returns the name of a keyword argument.
fn keyword(key: &Key) -> Result<Bytes, AllocError>
    ensures { IfOk result (λ name. name ≡ keyword key.now) }
{
    match &key.value().node {
        Node::Text(name) => name.share(),
        _ => Ok(Bytes::empty()),
    }
}

/// Returns whether the value is `None`, which gives nothing.
pub(crate) fn is_none(value: &Value) -> bool
    ensures { result ≡ is_none value.now }
{
    matches!(&value.node, Node::NoneValue)
}

impl Given {
    /// Takes the argument `name`, which is an attribute too: F73, F75, F37.
    #[tactic(auto, unfolding(crate::specs::Arguments::with_name))]
    fn take_name(
        &mut self,
        alloc: Global,
        scope: PackageScope<'_>,
        value: &Value,
    ) -> Result<(), EvalErr>
        ensures { Gives (λ _. self.new) Bad result (with_name scope.entry.own.now scope.entry.packages.now value.now self.old) }
    {
        if is_none(value) {
            return Ok(());
        }
        let text = text_in(value, EvalFault::AttributeType)?;
        let label = label(alloc, scope, TextKind::Name, &text)?;
        self.name = Some(label);
        let name = Bytes::from_slice(alloc, b"name")?;
        let value = AttributeValue::String(text);
        self.attributes.push(GivenAttribute { name, value })?;
        Ok(())
    }

    /// Takes an argument by its name. One that isn't `name`: F71, then the faults of its value.
    #[tactic(auto, unfolding(crate::specs::Arguments::with_argument, crate::specs::Arguments::with_attribute))]
    fn take_named(
        &mut self,
        alloc: Global,
        callee: Callee<'_>,
        name: &Bytes,
        value: &Value,
    ) -> Result<(), EvalErr>
        ensures { Gives (λ _. self.new) Bad result (with_argument callee.entry.scope.own.now callee.entry.scope.packages.now callee.entry.store.now callee.entry.class.now self.old (string name.now, value.now)) }
    {
        if name.as_slice() == b"name".as_slice() {
            return self.take_name(alloc, callee.scope, value);
        }
        let Some(kind) = attribute_type(callee.class, name.as_slice()) else {
            return Err(EvalErr::Bad(EvalFault::NoAttribute));
        };
        if is_none(value) {
            return Ok(());
        }
        let name = name.share()?;
        let value = value_as(alloc, callee.scope, callee.store, kind, value)?;
        self.attributes.push(GivenAttribute { name, value })?;
        Ok(())
    }

    /// Takes an argument that is in a dict.
    #[tactic(auto, unfolding(crate::specs::Arguments::with_argument))]
    fn take_argument(
        &mut self,
        alloc: Global,
        callee: Callee<'_>,
        key: &Key,
        value: &Value,
    ) -> Result<(), EvalErr>
        ensures { Gives (λ _. self.new) Bad result (with_argument callee.entry.scope.own.now callee.entry.scope.packages.now callee.entry.store.now callee.entry.class.now self.old (key.now, value.now)) }
    {
        let name = keyword(key)?;
        self.take_named(alloc, callee, &name, value)
    }

    #[tactic(auto, unfolding(crate::specs::Arguments::with_arguments))]
    fn take_few(
        &mut self,
        alloc: Global,
        callee: Callee<'_>,
        named: &[(Bytes, Value)],
    ) -> Result<(), EvalErr>
        ensures { Gives (λ _. self.new) Bad result (with_arguments callee.entry.scope.own.now callee.entry.scope.packages.now callee.entry.store.now callee.entry.class.now self.old (pairs named.now)) }
    {
        for argument in named {
            self.take_named(alloc, callee, &argument.0, &argument.1)?;
        }
        Ok(())
    }

    #[tactic(auto, unfolding(crate::specs::Arguments::with_arguments))]
    fn take_many(
        &mut self,
        alloc: Global,
        callee: Callee<'_>,
        keywords: &Dict,
    ) -> Result<(), EvalErr>
        ensures { Gives (λ _. self.new) Bad result (with_arguments callee.entry.scope.own.now callee.entry.scope.packages.now callee.entry.store.now callee.entry.class.now self.old keywords.now) }
    {
        for i in 0..keywords.len() {
            let (key, value) = keywords.pair(i);
            self.take_argument(alloc, callee, key, value)?;
        }
        Ok(())
    }

    /// Takes the arguments in the order in which they are written.
    pub(crate) fn take_arguments(
        &mut self,
        alloc: Global,
        callee: Callee<'_>,
        keywords: &Keywords,
    ) -> Result<(), EvalErr>
        ensures { Gives (λ _. self.new) Bad result (with_arguments callee.entry.scope.own.now callee.entry.scope.packages.now callee.entry.store.now callee.entry.class.now self.old keywords.now) }
    {
        match &keywords.held {
            HeldArguments::Few(named) => self.take_few(alloc, callee, named),
            HeldArguments::Many(dict) => self.take_many(alloc, callee, dict),
        }
    }
}
