//! The load graph of a workspace.

ghost use Rattle.std.specs.Prelude.{◌≡◌, ◌<◌, ◌≤◌, length, IfOk};
ghost use Rattle.std.specs.List.{IsDistinct};
ghost use Rattle.bq_base.specs.Limits.{AreBounded};
ghost use Rattle.bq_label.specs.Packages.{packages_of};
ghost use Rattle.bq_load_front.specs.Inputs.{InputParts};
ghost use Rattle.bq_label_set.specs.Labels.{same_label};
ghost use Rattle.bq_load_discover.specs.Module.{labels_of};
ghost use Rattle.bq_load_discover.specs.Exploring.{AreFound, Finds};
ghost use Rattle.bq_load_discover.specs.LoadGraph.{inputs_of, Discovers, DiscoversWithin};

use crate::edges::edges;
use crate::exploration::explore;
use crate::load_err::LoadErr;
use crate::load_graph::LoadGraph;
use crate::modules::Module;
use crate::order::{labels, sorted};
use crate::waves::explore_by_workers;
use bq_base::Limits;
use bq_label::{Packages, Workspace};
use bq_load_front::Inputs;
use bq_package_schema::Schema;
use std::alloc::{AllocError, Global};
use std::thread::Threads;

/// Makes the load graph of modules that were found, in a workspace with these packages.
fn load_graph(
    alloc: Global,
    limits: Limits,
    packages: Packages,
    modules: Vec<Module>,
    once: bool,
) -> Result<LoadGraph, LoadErr>
    requires bounded { AreBounded limits }
    requires few { length modules.items ≤ limits.modules }
    requires distinct { IsDistinct same_label (labels_of modules.items) }
    ensures { (inputs : InputParts) → AreFound limits inputs modules.items → packages ≡ inputs.packages → DiscoversWithin limits inputs result }
{
    let modules = sorted(modules);
    let labels = labels(alloc, &modules)?;
    let edges = edges(alloc, limits, &labels, &modules)?;
    Ok(LoadGraph::of(labels, modules, edges, packages, once))
}

/// Makes the load graph of the modules that were found in a workspace, if they aren't too many.
fn load_graph_of(
    alloc: Global,
    limits: Limits,
    workspace: &Workspace,
    schema: &Schema,
    packages: Packages,
    found: Option<Vec<Module>>,
    once: bool,
) -> Result<LoadGraph, LoadErr>
    requires bounded { AreBounded limits }
    requires packages { packages ≡ packages_of workspace.now }
    requires found { Finds limits (inputs_of workspace.now schema.now) found }
    ensures { DiscoversWithin limits (inputs_of workspace.now schema.now) result }
{
    let _ = workspace; // contracts alone speak of what is read
    let _ = schema;
    match found {
        None => Err(LoadErr::TooManyModules),
        Some(modules) => load_graph(alloc, limits, packages, modules, once),
    }
}

/// A workspace with its schema and its packages, in which modules are to be found.
#[derive(Clone, Copy)]
struct Discovery<'a> {
    workspace: &'a Workspace,
    schema: &'a Schema,
    packages: &'a Packages,
}

impl<'a> Discovery<'a> {
    /// Finds the modules; `None` if there are too many.
    fn modules(&self, alloc: Global, limits: Limits) -> Result<Option<Vec<Module>>, AllocError>
        requires bounded { AreBounded limits }
        requires packages { self.now.packages.now ≡ packages_of self.now.workspace.now }
        ensures { IfOk result (Finds limits (inputs_of self.now.workspace.now self.now.schema.now)) }
    {
        let names = self.schema.shared_names()?;
        let inputs = Inputs::new(self.workspace, self.packages, &names)?;
        explore(alloc, limits, &inputs)
    }

    /// Finds the modules, as [`Discovery::modules`] does, in at most `workers` threads.
    fn modules_by<R: Threads + Sync>(
        &self,
        rt: &R,
        alloc: Global,
        limits: Limits,
        workers: usize,
    ) -> Result<Option<Vec<Module>>, AllocError>
        requires bounded { AreBounded limits }
        requires workers { 0 < workers }
        requires packages { self.now.packages.now ≡ packages_of self.now.workspace.now }
        ensures { IfOk result (Finds limits (inputs_of self.now.workspace.now self.now.schema.now)) }
    {
        let names = self.schema.shared_names()?;
        let inputs = Inputs::new(self.workspace, self.packages, &names)?;
        explore_by_workers(rt, alloc, limits, &inputs, workers)
    }
}

/// Finds the load graph of a workspace with the rules of the schema, by the standard limits. It takes time linear in the
/// files and loads of its modules, but for the order of the labels, which takes n log n. It may be evaluated many times.
pub fn discover(alloc: Global, workspace: &Workspace, schema: &Schema) -> Result<LoadGraph, LoadErr>
    ensures { Discovers (inputs_of workspace.now schema.now) result }
{
    discover_for(alloc, workspace, schema, Limits::standard(), false)
}

/// Finds the load graph of a workspace, as [`discover`] does, by these limits, to be evaluated once.
pub fn discover_within(
    alloc: Global,
    workspace: &Workspace,
    schema: &Schema,
    limits: Limits,
) -> Result<LoadGraph, LoadErr>
    requires { AreBounded limits }
    ensures { DiscoversWithin limits (inputs_of workspace.now schema.now) result }
{
    discover_for(alloc, workspace, schema, limits, true)
}

/// Finds the load graph of a workspace, to be evaluated once or many times.
fn discover_for(
    alloc: Global,
    workspace: &Workspace,
    schema: &Schema,
    limits: Limits,
    once: bool,
) -> Result<LoadGraph, LoadErr>
    requires { AreBounded limits }
    ensures { DiscoversWithin limits (inputs_of workspace.now schema.now) result }
{
    let packages = Packages::of(alloc, workspace)?;
    let found = Discovery {
        workspace,
        schema,
        packages: &packages,
    }
    .modules(alloc, limits)?;
    load_graph_of(alloc, limits, workspace, schema, packages, found, once)
}

/// Finds the load graph of a workspace, as [`discover_within`] does. Its files are read in at most `workers` threads.
pub fn discover_by_workers<R: Threads + Sync>(
    rt: &R,
    alloc: Global,
    workspace: &Workspace,
    schema: &Schema,
    limits: Limits,
    workers: usize,
) -> Result<LoadGraph, LoadErr>
    requires bounded { AreBounded limits }
    requires workers { 0 < workers }
    ensures { DiscoversWithin limits (inputs_of workspace.now schema.now) result }
{
    let packages = Packages::of(alloc, workspace)?;
    let found = Discovery {
        workspace,
        schema,
        packages: &packages,
    }
    .modules_by(rt, alloc, limits, workers)?;
    load_graph_of(alloc, limits, workspace, schema, packages, found, true)
}
