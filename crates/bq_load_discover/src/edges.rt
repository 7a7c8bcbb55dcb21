//! Which module loads which, by their numbers.

ghost use Rattle.std.specs.Prelude.{◌≡◌, ◌<◌, ◌++◌, length, option_to_list, IfOk, IfErr, OnOk};
ghost use Rattle.bq_base.specs.Limits.{AreBounded, number_bound};
ghost use Rattle.bq_board_plan.specs.Graph.{Fits, lists, IsGraph};
ghost use Rattle.std.specs.List.{filter_map};
ghost use Rattle.bq_load_discover.specs.Edges.{number_in, rows_of, RefusesEdges};

use crate::load_err::LoadErr;
use crate::modules::Module;
use bq_base::Limits;
use bq_board_plan::Graph;
use bq_label::Label;
use bq_label_set::LabelSet;
use std::alloc::{AllocError, Global};

/// Appends the number of a label.
fn add_number(numbers: &LabelSet, label: &Label, row: &mut Vec<u32>) -> Result<(), AllocError>
    requires { length numbers.now < number_bound }
    ensures { OnOk result (row.new.items ≡ row.old.items ++ option_to_list (number_in numbers.now label.now)) }
{
    match numbers.number(label)? {
        None => Ok(()),
        Some(number) => {
            row.push(number as u32)?;
            Ok(())
        }
    }
}

/// Returns the numbers of labels, in their order.
fn row(alloc: Global, numbers: &LabelSet, labels: &[Label]) -> Result<Vec<u32>, AllocError>
    requires { length numbers.now < number_bound }
    ensures { IfOk result (λ row. row.items ≡ filter_map (number_in numbers.now) labels.now) }
{
    let mut row = Vec::with_capacity(alloc, labels.len())?;
    for label in labels {
        add_number(numbers, label, &mut row)?;
    }
    Ok(row)
}

/// Returns the rows of modules.
fn rows(alloc: Global, numbers: &LabelSet, modules: &[Module]) -> Result<Vec<Vec<u32>>, AllocError>
    requires { length numbers.now < number_bound }
    ensures { IfOk result (λ rows. lists rows.items ≡ rows_of numbers.now modules.now) }
{
    let mut rows = Vec::new(alloc);
    for loader in modules {
        rows.push(row(alloc, numbers, loader.loads())?)?;
    }
    Ok(rows)
}

/// Returns the edges between modules, one for each of these labels, if they keep the limits.
pub(crate) fn edges(
    alloc: Global,
    limits: Limits,
    labels: &LabelSet,
    modules: &[Module],
) -> Result<Graph, LoadErr>
    requires bounded { AreBounded limits }
    requires few { length labels.now < number_bound }
    requires wide { length labels.now ≡ length modules.now }
    ensures edges { IfOk result (λ graph. graph ≡ rows_of labels.now modules.now) }
    ensures valid { OnOk result (IsGraph (rows_of labels.now modules.now)) }
    ensures fits { OnOk result (Fits limits (rows_of labels.now modules.now)) }
    ensures refused { IfErr result (RefusesEdges limits (rows_of labels.now modules.now)) }
{
    match Graph::of_known(limits, rows(alloc, labels, modules)?) {
        Some(graph) => Ok(graph),
        None => Err(LoadErr::TooManyModules),
    }
}
