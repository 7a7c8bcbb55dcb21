//! What decides the outcomes of all modules.

ghost use Rattle.std.specs.Prelude.{◌≡◌, IfOk};
ghost use Rattle.std.specs.Option.{option_copied};
ghost use Rattle.bq_load_module.specs.Round.{lent_files};
ghost use Rattle.bq_load.specs.ResolvedFiles.{front_file, loaded_file, resolved_files};

use bq_base::{Fault, FaultKind};
use bq_label::{Packages, Workspace};
use bq_load_discover::{LoadGraph, Module};
use bq_load_front::{Front, kind_of};
use bq_package_schema::Schema;
use bq_package_values::BuiltIns;
use bq_parse_grammar::FileKind;
use bq_resolve_scope::ResolvedFile;
use bq_value_datum::Seed;
use std::alloc::{AllocError, Global};

/// The modules of a workspace before their evaluation, by their numbers. Threads may share it.
#[derive(Drop)]
pub struct Loading<'a> {
    pub workspace: &'a Workspace,
    pub packages: &'a Packages,
    pub schema: &'a Schema,
    pub built_ins: BuiltIns,
    pub modules: &'a [Module],
    /// The resolved file of each .bzl file that has no fault of its own, as evaluations borrow it.
    pub resolved: Vec<Option<&'a ResolvedFile>>,
    /// Whether the statements of a file may be dropped once they have run.
    pub once: bool,
    /// How many steps the evaluation of each module may take.
    pub limit: u64,
    /// What dicts hash their keys by.
    pub seed: Seed,
    ghost lent: { lent_files resolved.items ≡ resolved_files modules.now },
}

impl<'a> Loading<'a> {
    ghost use Rattle.std.specs.Prelude.{length};
    ghost use Rattle.bq_load_discover.specs.LoadGraph.{IsReadGraph, inputs_of};
    ghost use Rattle.bq_load.specs.Loading.{loading_of, loading_in};

    /// Takes what decides the outcomes of the modules from a load graph.
    #[tactic(auto, using(crate::proofs::Joined::decided, crate::proofs::Joined::as_wide))]
    pub fn of(
        alloc: Global,
        workspace: &'a Workspace,
        schema: &'a Schema,
        limit: u64,
        seed: Seed,
        graph: &'a LoadGraph,
    ) -> Result<Loading<'a>, AllocError>
        requires { IsReadGraph (inputs_of workspace.now schema.now) graph.now }
        ensures decides { IfOk result (λ l. loading_of l ≡ loading_in workspace.now schema.now limit graph.now) }
        ensures wide { IfOk result (λ l. length graph.now.edges ≡ length l.modules.now) }
    {
        let modules = graph.modules();
        Ok(Loading {
            workspace,
            packages: graph.packages(),
            schema,
            built_ins: BuiltIns::new(schema.shared_names()?),
            modules,
            resolved: resolved_files(alloc, modules)?,
            once: graph.is_evaluated_once(),
            limit,
            seed,
        })
    }
}

/// Returns the resolved file of a module, unless it has a fault of its own.
fn front_file(front: &Result<Front, Fault<FaultKind>>) -> Option<&ResolvedFile>
    ensures { option_copied result ≡ front_file front.now }
{
    match front {
        Ok(front) => Some(&front.file),
        Err(_) => None,
    }
}

/// Returns the resolved file of a module that others may load, unless it has a fault of its own.
fn loaded_file(module: &Module) -> Option<&ResolvedFile>
    ensures { option_copied result ≡ loaded_file «module».now }
{
    match kind_of(&module.label) {
        FileKind::Bzl => front_file(&module.front),
        FileKind::Build => None,
    }
}

/// Returns the resolved files of the .bzl files among modules, by the modules' numbers.
fn resolved_files(
    alloc: Global,
    modules: &[Module],
) -> Result<Vec<Option<&ResolvedFile>>, AllocError>
    ensures { IfOk result (λ resolved. lent_files resolved.items ≡ resolved_files modules.now) }
{
    let mut resolved = Vec::with_capacity(alloc, modules.len())?;
    for each in modules {
        resolved.push(loaded_file(each))?;
    }
    Ok(resolved)
}
