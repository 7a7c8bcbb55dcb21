//! The modules in the order of their labels.

ghost use Rattle.std.specs.Prelude.{◌≡◌, [], IfOk, OnOk};
ghost use Rattle.std.specs.List.Sorted.{IsPermutation, IsSorted};
ghost use Rattle.bq_label_set.specs.Labels.{with_labels};
ghost use Rattle.bq_load_discover.specs.Module.{module_cmp, labels_of, AreValid};

use crate::modules::Module;
use bq_label_set::LabelSet;
use std::alloc::{AllocError, Global};

/// Returns the modules in the order of the bytes of their labels' full forms.
pub(crate) fn sorted(modules: Vec<Module>) -> Vec<Module>
    ensures moved { IsPermutation modules.items result.items }
    ensures ascending { IsSorted module_cmp result.items }
{
    let mut modules = modules;
    modules.sort_unstable_by(|a, b| a.label.cmp(&b.label));
    modules
}

/// Returns the set of the labels of modules, in their order.
#[tactic(auto, unfolding(bq_label_set::specs::Labels::with_labels))]
pub(crate) fn labels(alloc: Global, modules: &[Module]) -> Result<LabelSet, AllocError>
    ensures labels { IfOk result (λ ls. ls ≡ with_labels [] (labels_of modules.now)) }
    ensures valid { OnOk result (AreValid modules.now) }
{
    let mut labels = LabelSet::new(alloc);
    for each in modules {
        let _name = each.label.name(); // PROOF: its label is valid
        labels.add(&each.label)?;
    }
    Ok(labels)
}
