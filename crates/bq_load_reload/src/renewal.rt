//! A load graph after a change: the modules whose files changed are read again, and the others are kept.

ghost use Rattle.std.specs.Prelude.{◌≡◌, Ok, true, is_some, IfOk};
ghost use Rattle.bq_label.specs.Packages.{packages_of};
ghost use Rattle.bq_load_order.specs.Again.{number_at};
ghost use Rattle.bq_load_discover.specs.LoadGraph.{IsReadGraph, inputs_of};
ghost use Rattle.bq_load_discover.specs.Module.{module_of};
ghost use Rattle.bq_load_discover.specs.Schema.{schema_in};
ghost use Rattle.bq_load_changes.specs.Graph.{IsGraphOf};
ghost use Rattle.bq_load_reload.specs.Renewal.{AreAsRead, all_loaded, have_same_labels, loaded_by_one, modules_in};
ghost use Rattle.bq_load_changes.specs.Same.{HasSameFrame, HaveStayed};

use crate::kept::KeptOutcome;
use bq_label::{BuildFile, Label, Packages, Workspace};
use bq_load::Sources;
use bq_load_changes::{Change, is_same_label};
use bq_load_discover::{LoadGraph, Module};
use bq_load_front::Inputs;
use std::alloc::{AllocError, Global};

/// A module that may have been read again, and whether it loads what it loaded.
#[derive(Drop)]
struct ReadAgain {
    read: Module,
    same: bool,
}

/// Modules that may have been read again, and whether all load what they loaded.
#[derive(Drop)]
struct AllReadAgain {
    modules: Vec<Module>,
    same: bool,
}

/// A load graph after a change, for each module the number that it had if its outcome may be what it was, and whether all modules load
/// what they loaded.
#[derive(Drop)]
pub(crate) struct Renewal {
    pub graph: LoadGraph,
    pub numbers: Vec<Option<u32>>,
    pub same: bool,
}

/// Returns whether labels are the same, in order.
#[tactic(auto, unfolding(crate::specs::Renewal::have_same_labels))]
fn have_same_labels(labels: &[Label], others: &[Label]) -> bool
    ensures { result ≡ true → have_same_labels labels.now others.now ≡ true }
{
    let mut left = others;
    for label in labels {
        let Some((other, rest)) = left.split_first() else {
            return false;
        };
        if !is_same_label(label, other) {
            return false;
        }
        left = rest;
    }
    left.is_empty()
}

/// Returns whether a module has a number here.
fn has_number(numbers: &[Option<u32>], m: usize) -> bool
    ensures { result ≡ is_some (number_at numbers.now m) }
{
    match numbers.get(m) {
        None => false,
        Some(number) => number.is_some(),
    }
}

/// Returns a module as its file reads by now, and reads it again unless it stays.
#[tactic(auto, using(crate::proofs::Renewed::loads_same))]
fn read_again(
    alloc: Global,
    inputs: &Inputs<'_>,
    stays: bool,
    known: Module,
) -> Result<ReadAgain, AllocError>
    requires { stays ≡ true → known ≡ module_of inputs.now known.label }
    ensures read { IfOk result (λ r. r.read ≡ module_of inputs.now known.label) }
    ensures same { IfOk result (λ r. r.same ≡ true → loaded_by_one r.read ≡ loaded_by_one known) }
{
    if stays {
        return Ok(ReadAgain {
            read: known,
            same: true,
        });
    }
    let read = Module::of(alloc, inputs, &known.label)?;
    let same = have_same_labels(read.loads(), known.loads());
    Ok(ReadAgain { read, same })
}

/// Returns the modules as their files read by now. Those that have no number here are read again.
fn all_read_again(
    alloc: Global,
    inputs: &Inputs<'_>,
    numbers: &[Option<u32>],
    modules: Vec<Module>,
) -> Result<AllReadAgain, AllocError>
    requires { AreAsRead inputs.now numbers.now 0 modules.items }
    ensures read { IfOk result (λ r. r.modules.items ≡ modules_in inputs.now modules.items) }
    ensures same { IfOk result (λ r. r.same ≡ true → all_loaded r.modules.items ≡ all_loaded modules.items) }
{
    let mut all = Vec::with_capacity(alloc, modules.len())?;
    let mut same = true;
    for each in modules {
        let stays = has_number(numbers, all.len());
        let again = read_again(alloc, inputs, stays, each)?;
        all.push(again.read)?;
        same = same && again.same;
    }
    Ok(AllReadAgain { modules: all, same })
}

/// Returns the modules as the files of a workspace with these packages read by now.
fn modules_again(
    alloc: Global,
    sources: &Sources<'_>,
    packages: &Packages,
    numbers: &[Option<u32>],
    modules: Vec<Module>,
) -> Result<AllReadAgain, AllocError>
    requires packages { packages.now ≡ packages_of sources.now.workspace.now }
    requires stay { AreAsRead (inputs_of sources.now.workspace.now sources.now.schema.now) numbers.now 0 modules.items }
    ensures read { IfOk result (λ r. r.modules.items ≡ modules_in (inputs_of sources.now.workspace.now sources.now.schema.now) modules.items) }
    ensures same { IfOk result (λ r. r.same ≡ true → all_loaded r.modules.items ≡ all_loaded modules.items) }
{
    let names = sources.schema.shared_names()?;
    let inputs = Inputs::new(sources.workspace, packages, &names)?;
    all_read_again(alloc, &inputs, numbers, modules)
}

/// Returns the load graph of a workspace, if all modules load what they loaded. Of its files texts have changed, and files of these packages
/// came or went that are no modules.
pub(crate) fn renewed(
    alloc: Global,
    before: &Workspace,
    touched: &[BuildFile],
    sources: &Sources<'_>,
    graph: LoadGraph,
) -> Result<Renewal, AllocError>
    requires frame { HasSameFrame before.now sources.now.workspace.now touched.now }
    requires schema { schema_in sources.now.workspace.now ≡ Ok sources.now.schema.now }
    requires graph { IsGraphOf before.now graph }
    ensures labels { IfOk result (λ r. r.graph.labels ≡ graph.labels) }
    ensures edges { IfOk result (λ r. r.graph.edges ≡ graph.edges) }
    ensures stayed { IfOk result (λ r. HaveStayed before.now sources.now.workspace.now touched.now graph.labels graph.labels r.numbers.items) }
    ensures read { IfOk result (λ r. r.same ≡ true → IsReadGraph (inputs_of sources.now.workspace.now sources.now.schema.now) r.graph) }
{
    let change = Change {
        before,
        after: sources.workspace,
    };
    let numbers = change.numbers_before(alloc, touched, graph.labels(), graph.labels())?;
    let (labels, modules, edges, packages) = graph.into_all();
    let again = modules_again(alloc, sources, &packages, &numbers, modules)?;
    Ok(Renewal {
        graph: LoadGraph::of(labels, again.modules, edges, packages, true),
        numbers,
        same: again.same,
    })
}

/// Returns a number for each module whose outcome is known.
fn numbers_of_known(
    alloc: Global,
    found: &[Option<KeptOutcome>],
) -> Result<Vec<Option<u32>>, AllocError> {
    let mut numbers = Vec::with_capacity(alloc, found.len())?;
    for outcome in found {
        if outcome.is_some() {
            numbers.push(Some(0))?;
        } else {
            numbers.push(None)?;
        }
    }
    Ok(numbers)
}

/// Returns the same load graph. The modules whose outcomes aren't known are read again, since their statements may have been dropped.
pub(crate) fn with_statements(
    alloc: Global,
    sources: &Sources<'_>,
    found: &[Option<KeptOutcome>],
    graph: LoadGraph,
) -> Result<LoadGraph, AllocError>
    requires { IsReadGraph (inputs_of sources.now.workspace.now sources.now.schema.now) graph }
    ensures { IfOk result (λ g. g ≡ graph) }
{
    let numbers = numbers_of_known(alloc, found)?;
    let (labels, modules, edges, packages) = graph.into_all();
    let again = modules_again(alloc, sources, &packages, &numbers, modules)?;
    Ok(LoadGraph::of(labels, again.modules, edges, packages, true))
}
