//! `labels(name, x)`: the targets that the attribute of rules of `x` names, if it is of type label, label_list, output
//! or output_list.

ghost use Rattle.std.specs.Prelude.{◌≡◌, length, IfOk};
ghost use Rattle.bq_value_datum.specs.AttributeValue.{all_labels_of};
ghost use Rattle.bq_query_graph.specs.Marks.{IsSet, Marked};
ghost use Rattle.bq_query_function.specs.Order.{AreInOrder};
ghost use Rattle.bq_query_function.specs.Words.{Adds};
ghost use Rattle.bq_query_function.specs.Labels.{Labels, labels_named, is_among, is_named_by};

use crate::pattern::add_label;
use crate::related::{Relation, related};
use crate::text::given;
use bq_label::Label;
use bq_package_target::{Target, TargetKind};
use bq_value_datum::AttributeValue;
use std::alloc::{AllocError, Global};

fn add_labels(targets: &[Target], labels: &[Label], marks: &mut Vec<bool>)
    requires order { AreInOrder targets.now }
    requires long { length marks.old.items ≡ length targets.now }
    ensures { Adds (is_among labels.now) targets.now marks.old.items marks.new.items }
{
    for label in labels {
        add_label(targets, label, marks);
    }
}

fn add_value(targets: &[Target], value: &AttributeValue, marks: &mut Vec<bool>)
    requires order { AreInOrder targets.now }
    requires long { length marks.old.items ≡ length targets.now }
    ensures { Adds (is_among (all_labels_of value.now)) targets.now marks.old.items marks.new.items }
{
    add_labels(targets, value.all_labels(), marks);
}

/// Adds the targets that the attribute of a rule names.
#[tactic(auto, unfolding(crate::specs::Labels::labels_named))]
fn add_named(targets: &[Target], name: &[u8], target: &Target, marks: &mut Vec<bool>)
    requires order { AreInOrder targets.now }
    requires long { length marks.old.items ≡ length targets.now }
    ensures { Adds (is_among (labels_named name.now target.now)) targets.now marks.old.items marks.new.items }
{
    match &target.kind {
        TargetKind::Rule(_, _) => match given(name, target) {
            Some(attribute) => add_value(targets, &attribute.value, marks),
            None => {}
        },
        _ => {}
    }
}

/// The targets that the attribute of this name of a rule names.
#[derive(Drop)]
struct NamedBy<'a> {
    name: &'a [u8],
}

impl<'a> Relation for NamedBy<'a> {
    ghost relates = { λ r. is_named_by r.name.now };

    fn add_related(
        &self,
        _alloc: Global,
        targets: &[Target],
        target: &Target,
        marks: &mut Vec<bool>,
    ) -> Result<(), AllocError> {
        add_named(targets, self.name, target, marks);
        Ok(())
    }
}

pub fn labels(
    alloc: Global,
    targets: &[Target],
    name: &[u8],
    x: &[bool],
) -> Result<Vec<bool>, AllocError>
    requires order { AreInOrder targets.now }
    requires long { length x.now ≡ length targets.now }
    ensures { IfOk result (λ r. IsSet (length targets.now) r.items (Labels name.now targets.now (Marked x.now))) }
{
    related(alloc, targets, &NamedBy { name }, x)
}
