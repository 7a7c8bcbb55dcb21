//! The labels that a target names.

ghost use Rattle.std.specs.Prelude.{◌≡◌, ◌++◌, IfOk, OnOk};
ghost use Rattle.std.specs.List.{All};
ghost use Rattle.bq_label.specs.Label.{IsLabel};
ghost use Rattle.bq_package_target.specs.Target.{dependencies};
ghost use Rattle.bq_package_target.specs.Value.{labels_in};
ghost use Rattle.bq_facts.specs.Names.{named_labels};

use bq_label::Label;
use bq_package_target::{GivenAttribute, Target, TargetKind};
use std::alloc::{AllocError, Global};
use std::slice::from_ref;

/// Appends shares of labels.
fn add_labels(labels: &[Label], all: &mut Vec<Label>) -> Result<(), AllocError>
    ensures { OnOk result (all.new.items ≡ all.old.items ++ labels.now) }
{
    for label in labels {
        all.push(label.share()?)?;
    }
    Ok(())
}

/// Appends the labels that attributes name, in their order.
fn add_given(given: &[GivenAttribute], all: &mut Vec<Label>) -> Result<(), AllocError>
    ensures { OnOk result (all.new.items ≡ all.old.items ++ labels_in given.now) }
{
    for attribute in given {
        add_labels(attribute.value.labels(), all)?;
    }
    Ok(())
}

/// Returns the labels of what a target depends on, in the order in which it names them.
#[tactic(auto, unfolding(bq_package_target::specs::Target::dependencies))]
fn dependencies(alloc: Global, target: &Target) -> Result<Vec<Label>, AllocError>
    ensures { IfOk result (λ labels. labels.items ≡ dependencies target.now) }
{
    let mut all = Vec::new(alloc);
    if let TargetKind::Generated(rule) = &target.kind {
        add_labels(from_ref(rule), &mut all)?;
        return Ok(all);
    }
    add_given(target.attributes.as_slice(), &mut all)?;
    Ok(all)
}

/// Looks at labels, each of which is valid.
fn look_at(labels: &[Label])
    ensures { All IsLabel labels.now }
{
    for label in labels {
        let _name = label.name(); // PROOF: each label is valid
    }
}

/// Returns the labels that a target names, whether a target has them or not, in the order of their full forms, each once. For a
/// generated file it is that of its rule.
pub fn named_labels(alloc: Global, target: &Target) -> Result<Vec<Label>, AllocError>
    ensures { IfOk result (λ labels. labels.items ≡ named_labels target.now) }
{
    let mut labels = dependencies(alloc, target)?;
    look_at(&labels);
    labels.sort_unstable();
    labels.dedup();
    Ok(labels)
}
