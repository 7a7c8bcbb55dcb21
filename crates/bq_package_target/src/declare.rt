//! The calls of rules and of `package_group`.

ghost use Rattle.std.specs.Prelude.{◌≡◌, ◌∷◌, ◌++◌, map, if◌then◌else◌, IfOk, OnOk};
ghost use Rattle.bq_package_target.specs.Value.{outputs_in};
ghost use Rattle.bq_package_target.specs.Target.{names_of, generated, declares};
ghost use Rattle.bq_package_target.specs.Names.{are_new};

use crate::names::TargetNames;
use crate::shared_values::KeptValues;
use crate::state::{Declared, PackageState};
use crate::target::Target;
use bq_label::Label;
use sqlite_items::Items;
use std::alloc::{AllocError, Global};

/// Appends files that the rule makes.
fn add_generated(
    rule: &Target,
    labels: &[Label],
    made: &mut Items<Target>,
) -> Result<(), AllocError>
    ensures { OnOk result (made.new ≡ made.old ++ map (generated rule.now) labels.now) }
{
    for label in labels {
        made.push(Target::generated(rule, label)?)?;
    }
    Ok(())
}

/// Returns the files that the rule makes.
fn outputs(alloc: Global, rule: &Target) -> Result<Items<Target>, AllocError>
    ensures { IfOk result (λ ts. ts ≡ map (generated rule.now) (outputs_in rule.now.attributes)) }
{
    let mut made = Items::new(alloc);
    for given in rule.attributes.as_slice() {
        add_generated(rule, given.value.outputs(), &mut made)?;
    }
    Ok(made)
}

/// Takes the names of targets if all are new, and else none. Returns which.
fn take_names(names: &mut TargetNames, targets: &[Target]) -> Result<bool, AllocError>
    ensures new { IfOk result (λ new. new ≡ are_new names.old (names_of targets.now)) }
    ensures after { IfOk result (λ new. names.new ≡ (if new then names.old ++ names_of targets.now else names.old)) }
{
    let before = names.len();
    for target in targets {
        if !names.add(target.label.name())? {
            names.truncate(before);
            return Ok(false);
        }
    }
    Ok(true)
}

/// Takes the names of a target and of the files that it makes, if all are new, and else none. Returns which.
fn take_all_names(
    names: &mut TargetNames,
    target: &Target,
    made: &[Target],
) -> Result<bool, AllocError>
    ensures new { IfOk result (λ new. new ≡ are_new names.old (names_of (target.now ∷ made.now))) }
    ensures after { IfOk result (λ new. names.new ≡ (if new then names.old ++ names_of (target.now ∷ made.now) else names.old)) }
{
    let first = names.len();
    if !names.add(target.label.name())? {
        return Ok(false);
    }
    if !take_names(names, made)? {
        names.truncate(first);
        return Ok(false);
    }
    Ok(true)
}

/// Appends the targets that a call declares, if all their names are new: its own, whose long values are kept, and the files
/// that the rule makes. Returns whether they are.
#[tactic(auto, unfolding(crate::specs::Target::declares))]
fn add_target(
    alloc: Global,
    targets: &mut Items<Target>,
    names: &mut TargetNames,
    kept: &mut KeptValues,
    target: Target,
) -> Result<bool, AllocError>
    ensures new { IfOk result (λ new. new ≡ are_new names.old (names_of (declares target))) }
    ensures targets { IfOk result (λ new. targets.new ≡ (if new then targets.old ++ declares target else targets.old)) }
    ensures names { IfOk result (λ new. names.new ≡ (if new then names.old ++ names_of (declares target) else names.old)) }
{
    let mut target = target;
    kept.share_long(alloc, &mut target.attributes)?;
    let made = outputs(alloc, &target)?;
    if !take_all_names(names, &target, made.as_slice())? {
        return Ok(false);
    }
    targets.push(target)?;
    targets.append(made)?;
    Ok(true)
}

impl PackageState {
    ghost use Rattle.bq_label.specs.Label.{package_of};
    ghost use Rattle.bq_package_target.specs.Package.{IsOwnCall};
    ghost use Rattle.bq_package_target.specs.Calls.{declared};

    /// Declares the target of a call of a rule or of `package_group`, and the files that the rule makes. The call is
    /// refused, F74, if a target has one of the names, or two of them are equal.
    pub fn declare(self, alloc: Global, target: Target) -> Result<Declared, AllocError>
        requires { IsOwnCall (package_of self.build_file) target }
        ensures { IfOk result (λ d. d ≡ declared self target) }
    {
        let mut package = self;
        let is_new = add_target(
            alloc,
            &mut package.targets,
            &mut package.names,
            &mut package.kept,
            target,
        )?;
        if !is_new {
            return Ok(Declared::Refused(package));
        }
        Ok(Declared::Accepted(package))
    }
}
