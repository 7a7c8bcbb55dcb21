//! Calls of `package_group`.

ghost use Rattle.std.specs.Prelude.{◌≡◌, ◌||◌, Ok, IfOk};
ghost use Rattle.bq_base.specs.Gives.{Gives};
ghost use Rattle.bq_value.specs.declared.error.EvalErr.TheVariants.{Bad};
ghost use Rattle.bq_builtin_machine.specs.Binding.{bind};
ghost use Rattle.bq_package_values.specs.Steps.{and_then};
ghost use Rattle.bq_package.specs.Place.{place_of};
ghost use Rattle.bq_package.specs.Bound.{group_parameters};
ghost use Rattle.bq_package.specs.Groups.{is_name_first, names_first, group, group_labels, group_of, group_named};

use crate::bound::{text_of, texts_of};
use crate::place::Place;
use bq_base::Bytes;
use bq_builtin_machine::{Args, Bound, Signature, SingleParameter, bind};
use bq_label::Label;
use bq_package_target::{AttributeList, GivenAttribute, Target, TargetKind};
use bq_package_values::{TextKind, label, labels};
use bq_value::{EvalErr, Store, Value};
use bq_value_datum::{AttributeValue, Seed, SharedList};
use sqlite_items::Items;
use std::alloc::{AllocError, Global};

/// `(name, packages = [], includes = [])`
const PACKAGE_GROUP: Signature<'static> = Signature {
    parameters: &[
        SingleParameter {
            name: Some(b"name"),
            is_required: true,
        },
        SingleParameter {
            name: Some(b"packages"),
            is_required: false,
        },
        SingleParameter {
            name: Some(b"includes"),
            is_required: false,
        },
    ],
    placed: 3,
    takes_rest: false,
    takes_keywords: false,
};

fn bind_group(alloc: Global, args: Args) -> Result<Bound, EvalErr>
    ensures { Gives (λ b. b) Bad result (bind group_parameters args) }
{
    bind(alloc, Seed::fixed(), &PACKAGE_GROUP, args)
}

/// Returns whether `name` doesn't come after `includes` among named arguments.
#[tactic(auto, unfolding(crate::specs::Groups::is_name_first))]
fn is_name_first(named: &[(Bytes, Value)]) -> bool
    ensures { result ≡ is_name_first named.now }
{
    for (name, _) in named {
        if name.as_slice() == b"includes".as_slice() {
            return false;
        }
        if name.as_slice() == b"name".as_slice() {
            return true;
        }
    }
    true
}

/// Returns whether `name` doesn't come after `includes` in the call, which decides whose fault is reported. A
/// positional argument is the name.
fn names_first(args: &Args) -> bool
    ensures { result ≡ names_first args.now }
{
    !args.positional.is_empty() || is_name_first(&args.named)
}

/// Makes a group of packages.
fn group(
    alloc: Global,
    line: u32,
    label: Label,
    includes: Items<Label>,
) -> Result<Target, AllocError>
    ensures { IfOk result (λ t. t ≡ group line label includes) }
{
    let mut attributes = Items::new(alloc);
    attributes.push(GivenAttribute {
        name: Bytes::from_slice(alloc, b"includes")?,
        value: AttributeValue::LabelList(SharedList::of(alloc, includes)?),
    })?;
    Ok(Target {
        label,
        kind: TargetKind::Group,
        attributes: AttributeList::of(alloc, attributes)?,
        line,
    })
}

impl<'a> Place<'a> {
    /// Returns the labels of a group and of those that it includes.
    #[tactic(auto, unfolding(crate::specs::Groups::group_labels))]
    fn group_labels(
        &self,
        alloc: Global,
        first: bool,
        name: &Bytes,
        includes: &[Bytes],
    ) -> Result<(Label, Items<Label>), EvalErr>
        ensures { Gives (λ r. r) Bad result (group_labels (place_of self.now) first name.now includes.now) }
    {
        if first {
            let group = label(alloc, self.scope, TextKind::Name, name)?;
            return Ok((group, labels(alloc, self.scope, TextKind::Label, includes)?));
        }
        let includes = labels(alloc, self.scope, TextKind::Label, includes)?;
        Ok((label(alloc, self.scope, TextKind::Name, name)?, includes))
    }

    /// Makes the group of a name and of those that it includes.
    fn labelled_group(
        &self,
        alloc: Global,
        line: u32,
        first: bool,
        name: &Bytes,
        includes: &[Bytes],
    ) -> Result<Target, EvalErr>
        ensures { Gives (λ t. t) Bad result (and_then (group_labels (place_of self.now) first name.now includes.now) (λ r. Ok (group line r.0 r.1))) }
    {
        let (label, includes) = self.group_labels(alloc, first, name, includes)?;
        Ok(group(alloc, line, label, includes)?)
    }

    /// Returns the group that the arguments of the parameters declare: F73, F75, F78, F37.
    #[tactic(auto, unfolding(crate::specs::Groups::group_of))]
    fn group_of(
        &self,
        alloc: Global,
        store: &Store,
        line: u32,
        first: bool,
        values: &[Option<Value>],
    ) -> Result<Target, EvalErr>
        ensures { Gives (λ t. t) Bad result (group_of (place_of self.now) store.now line first values.now) }
    {
        let name = text_of(values, 0)?;
        let includes = texts_of(alloc, store, values, 2)?;
        self.labelled_group(alloc, line, first, &name, includes.as_slice())
    }

    /// Returns the group that a call of `package_group` declares: F52, then the faults of its arguments.
    #[tactic(auto, unfolding(crate::specs::Groups::group_named))]
    pub fn group_named(
        &self,
        alloc: Global,
        store: &Store,
        line: u32,
        args: Args,
    ) -> Result<Target, EvalErr>
        ensures { Gives (λ t. t) Bad result (group_named (place_of self.now) store.now line args) }
    {
        let first = names_first(&args);
        let bound = bind_group(alloc, args)?;
        self.group_of(alloc, store, line, first, &bound.values)
    }
}
