//! The graph of the targets of a workspace.

ghost use Rattle.std.specs.Prelude.{◌≡◌, List, length, map, IfOk};
ghost use Rattle.std.specs.List.Sorted.{IsStrictlySortedBy};
ghost use Rattle.bq_label.specs.Label.{package_of};
ghost use Rattle.bq_label.specs.Packages.{id_cmp};
ghost use Rattle.bq_base_texts.specs.FaultLine.{sorted_lines};
ghost use Rattle.bq_package_target.specs.Package.{PackageTargets};
ghost use Rattle.bq_query_graph.specs.Edges.{HasPairsOf};
ghost use Rattle.bq_query_target_graph.specs.Dangling.{dangling_from, dangling_lines};
ghost use Rattle.bq_query_target_graph.specs.Edges.{edges_from, rows_of, IsGraphOf};
ghost use Rattle.bq_query_target_graph.specs.Nodes.{AreNodesOf};
ghost use Rattle.bq_query_target_graph.specs.Order.{target_labels, target_cmp};

use crate::build_files::BuildFiles;
use crate::edges::{Found, edges, edges_by};
use crate::order::{in_order, in_order_by};
use bq_base_texts::FaultLines;
use bq_label::PackageId;
use bq_package_target::{PackageList, Target};
use bq_query_graph::DependencyGraph;
use sqlite_items::Items;
use std::alloc::{AllocError, Global};
use std::marker::Model;
use std::thread::Threads;

/// The targets of a workspace with their dependencies. Contracts see the targets in the order of their labels, the packages in theirs,
/// and for each target the numbers of those that it depends on.
pub struct TargetGraph {
    targets: Vec<Target>,
    packages: Items<PackageId>,
    graph: DependencyGraph,
}

impl Drop for TargetGraph {
    // PROOF: a drop that is written out is proved here alone, and a derived one in each crate that drops a graph
    fn drop(self) {
        let TargetGraph {
            targets: _,
            packages: _,
            graph: _,
        } = self;
    }
}

impl Model for TargetGraph {
    ghost use Rattle.bq_query_target_graph.specs.Graph.{GraphParts, IsGraph};

    ghost Value = { GraphParts };

    ghost view = { λ g. record { targets = g.targets.items; packages = g.packages; edges = g.graph } };

    ghost invariant = { λ g. IsGraph (record { targets = g.targets.items; packages = g.packages; edges = g.graph }) };
}

impl TargetGraph {
    ghost use Rattle.bq_query_target_graph.specs.Graph.{IsGraph};

    /// Returns the targets in the order of the bytes of their labels' full forms. A target's number is its place here.
    pub fn targets(&self) -> &[Target]
        ensures value { result.now ≡ self.now.targets }
        ensures valid { IsGraph self.now }
    {
        let _graph = &self.graph; // PROOF: the invariant
        self.targets.as_slice()
    }

    /// Returns the packages in the order of their repositories and paths, also those whose BUILD file has a fault.
    pub fn packages(&self) -> &[PackageId]
        ensures value { result.now ≡ self.now.packages }
        ensures valid { IsGraph self.now }
    {
        let _graph = &self.graph; // PROOF: the invariant
        self.packages.as_slice()
    }

    /// Returns the dependencies by the targets' numbers.
    pub fn graph(&self) -> &DependencyGraph
        ensures value { result.now ≡ self.now.edges }
        ensures valid { IsGraph self.now }
    {
        let _targets = &self.targets; // PROOF: the invariant
        &self.graph
    }
}

/// The targets of packages in order, and the BUILD files of these packages.
#[derive(Drop)]
pub(crate) struct Nodes {
    targets: Vec<Target>,
    files: BuildFiles,
}

/// Takes the targets out of packages.
fn nodes_of(alloc: Global, packages: PackageList) -> Result<Nodes, AllocError>
    ensures { IfOk result (AreNodesOf packages) }
{
    let Ok(files) = BuildFiles::of(alloc, packages.as_slice()) else {
        drop(packages); // PROOF: one call lets the packages go
        return Err(AllocError);
    };
    let Ok(targets) = in_order(alloc, packages.into_vec()) else {
        drop(files); // PROOF: and the files
        return Err(AllocError);
    };
    Ok(Nodes { targets, files })
}

/// Takes the targets out of packages, by at most `threads` threads.
fn nodes_by<R: Threads + Sync>(
    rt: &R,
    alloc: Global,
    packages: PackageList,
    threads: usize,
) -> Result<Nodes, AllocError>
    ensures { IfOk result (AreNodesOf packages) }
{
    let Ok(files) = BuildFiles::of(alloc, packages.as_slice()) else {
        drop(packages); // PROOF: one call lets the packages go
        return Err(AllocError);
    };
    let Ok(targets) = in_order_by(rt, alloc, packages.into_vec(), threads) else {
        drop(files); // PROOF: and the files
        return Err(AllocError);
    };
    Ok(Nodes { targets, files })
}

/// What there is beside the targets of packages.
#[derive(Drop)]
struct Linked {
    packages: Items<PackageId>,
    graph: DependencyGraph,
    dangling: FaultLines,
}

/// Links the targets of packages that have these BUILD files by what was found along them.
fn link(
    alloc: Global,
    files: &BuildFiles,
    targets: &[Target],
    found: Result<Found, AllocError>,
) -> Result<Linked, AllocError>
    requires ascending { IsStrictlySortedBy target_cmp targets.now }
    requires rows { IfOk found (λ f. f.rows ≡ rows_of (target_labels targets.now) targets.now) }
    requires lines { IfOk found (λ f. f.dangling ≡ sorted_lines (dangling_from (target_labels targets.now) files.now targets.now)) }
    ensures packages { IfOk result (λ l. l.packages ≡ map package_of files.now) }
    ensures ascending { IfOk result (λ l. IsStrictlySortedBy id_cmp l.packages) }
    ensures graph { IfOk result (λ l. HasPairsOf (length targets.now) (edges_from (target_labels targets.now) 0 targets.now) l.graph) }
    ensures dangling { IfOk result (λ l. l.dangling ≡ sorted_lines (dangling_from (target_labels targets.now) files.now targets.now)) }
{
    let found = found?;
    Ok(Linked {
        packages: files.packages(alloc)?,
        graph: DependencyGraph::of_rows(alloc, found.rows)?,
        dangling: found.dangling,
    })
}

/// Makes the graph of the targets of packages, and the lines of the labels that name none, by what was found along the targets.
fn graph_by(
    alloc: Global,
    nodes: Nodes,
    found: Result<Found, AllocError>,
) -> Result<(TargetGraph, FaultLines), AllocError>
    requires ascending { IsStrictlySortedBy target_cmp nodes.targets.items }
    requires rows { IfOk found (λ f. f.rows ≡ rows_of (target_labels nodes.targets.items) nodes.targets.items) }
    requires lines { IfOk found (λ f. f.dangling ≡ sorted_lines (dangling_from (target_labels nodes.targets.items) nodes.files nodes.targets.items)) }
    ensures graph { (ps : List PackageTargets) → AreNodesOf ps nodes → IfOk result (λ made. IsGraphOf ps made.0) }
    ensures lines { (ps : List PackageTargets) → AreNodesOf ps nodes → IfOk result (λ made. made.1 ≡ dangling_lines ps) }
{
    let Nodes { targets, files } = nodes;
    let linked = link(alloc, &files, &targets, found);
    drop(files);
    let Ok(linked) = linked else {
        drop(targets); // PROOF: one call lets the targets go
        return Err(AllocError);
    };
    let graph = TargetGraph {
        targets,
        packages: linked.packages,
        graph: linked.graph,
    };
    Ok((graph, linked.dangling))
}

/// Makes the graph of the targets of packages, and a line for each label of another package that names no target (F79).
/// The graph takes the targets over if nobody else owns the packages, else it has shares of them.
pub fn build_graph(
    alloc: Global,
    packages: PackageList,
) -> Result<(TargetGraph, FaultLines), AllocError>
    ensures graph { IfOk result (λ made. IsGraphOf packages made.0) }
    ensures lines { IfOk result (λ made. made.1 ≡ dangling_lines packages) }
{
    let nodes = nodes_of(alloc, packages)?;
    let found = edges(alloc, &nodes.files, &nodes.targets);
    graph_by(alloc, nodes, found)
}

/// Makes what [`build_graph`] does. At most `threads` threads take the targets out of the packages, and then look for edges.
pub fn build_graph_by<R: Threads + Sync>(
    rt: &R,
    alloc: Global,
    packages: PackageList,
    threads: usize,
) -> Result<(TargetGraph, FaultLines), AllocError>
    ensures graph { IfOk result (λ made. IsGraphOf packages made.0) }
    ensures lines { IfOk result (λ made. made.1 ≡ dangling_lines packages) }
{
    let nodes = nodes_by(rt, alloc, packages, threads)?;
    let found = edges_by(rt, alloc, &nodes.files, &nodes.targets, threads);
    graph_by(alloc, nodes, found)
}
