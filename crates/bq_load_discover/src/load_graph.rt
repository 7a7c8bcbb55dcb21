//! Load graphs.

ghost use Rattle.std.specs.Prelude.{◌≡◌, ◌<◌};

use crate::modules::Module;
use bq_board_plan::Graph;
use bq_label::{Label, Packages};
use bq_label_set::LabelSet;
use std::marker::Model;
use std::thread;
use std::thread::Threads;

/// The modules of a workspace, and which loads which, with its packages. Contracts see the labels in order, the modules in the same
/// order, for each module the numbers of those that it loads, and the packages.
pub struct LoadGraph {
    labels: LabelSet,
    modules: Vec<Module>,
    edges: Graph,
    packages: Packages,
    /// Whether what a file holds may be dropped once it is evaluated.
    is_evaluated_once: bool,
}

impl Drop for LoadGraph {
    // PROOF: a drop that is written out is proved here alone, and a derived one in each crate that drops a load graph
    fn drop(self) {
        let LoadGraph {
            labels: _,
            modules: _,
            edges: _,
            packages: _,
            is_evaluated_once: _,
        } = self;
    }
}

impl Model for LoadGraph {
    ghost use Rattle.bq_load_discover.specs.LoadGraph.{GraphParts, IsNumbered};
    ghost use Rattle.bq_parse_grammar.specs.contracts.tree.Expr as expr;
    ghost use Rattle.bq_parse_grammar.specs.contracts.tree.Stmt as stmt;
    ghost use Rattle.bq_parse_grammar.specs.contracts.tree.TargetExpr as target;
    ghost use Rattle.std.specs.Coded.{codes};

    ghost Value = { GraphParts };

    ghost coded = { Prim.hlevel (codes, expr.the_row.coded, stmt.the_row.coded, target.the_row.coded) };

    ghost view = { λ g. record { labels = g.labels; modules = g.modules.items; edges = g.edges; packages = g.packages } };

    ghost invariant = { λ g. IsNumbered (record { labels = g.labels; modules = g.modules.items; edges = g.edges; packages = g.packages }) };
}

impl LoadGraph {
    ghost use Rattle.bq_load_discover.specs.LoadGraph.{GraphParts, IsNumbered};

    /// Makes the load graph of these parts, which is evaluated once or many times.
    pub fn of(
        labels: LabelSet,
        modules: Vec<Module>,
        edges: Graph,
        packages: Packages,
        is_evaluated_once: bool,
    ) -> LoadGraph
        requires { IsNumbered (record { labels = labels; modules = modules.items; edges = edges; packages = packages }) }
        ensures { result ≡ record { labels = labels; modules = modules.items; edges = edges; packages = packages } }
    {
        LoadGraph {
            labels,
            modules,
            edges,
            packages,
            is_evaluated_once,
        }
    }

    /// Returns whether what a file holds may be dropped once it is evaluated.
    pub fn is_evaluated_once(&self) -> bool {
        self.is_evaluated_once
    }

    /// Returns the labels of the modules, each once, in the order of the bytes of their full forms. A module's number
    /// is its place here.
    pub fn labels(&self) -> &[Label]
        ensures value { result.now ≡ self.now.labels }
        ensures valid { IsNumbered self.now }
    {
        let _edges = &self.edges; // PROOF: the invariant
        self.labels.as_slice()
    }

    /// Returns the modules by their numbers.
    pub fn modules(&self) -> &[Module]
        ensures value { result.now ≡ self.now.modules }
        ensures valid { IsNumbered self.now }
    {
        let _edges = &self.edges; // PROOF: the invariant
        self.modules.as_slice()
    }

    /// Returns for each module the numbers of those that it loads, each once, in the order in which it first loads
    /// them.
    pub fn edges(&self) -> &Graph
        ensures value { result.now ≡ self.now.edges }
        ensures valid { IsNumbered self.now }
    {
        let _labels = &self.labels; // PROOF: the invariant
        &self.edges
    }

    /// Returns the packages of the workspace.
    pub fn packages(&self) -> &Packages
        ensures { result.now ≡ self.now.packages }
    {
        &self.packages
    }

    /// Returns the labels of the modules as a set, in which each has its number.
    pub fn label_set(&self) -> &LabelSet
        ensures { result.now ≡ self.now.labels }
    {
        &self.labels
    }

    /// Returns the labels of the modules, the modules, for each the numbers of those that it loads, and the packages.
    pub fn into_all(self) -> (LabelSet, Vec<Module>, Graph, Packages)
        ensures labels { result.0 ≡ self.labels }
        ensures modules { result.1.items ≡ self.modules }
        ensures edges { result.2 ≡ self.edges }
        ensures packages { result.3 ≡ self.packages }
        ensures valid { IsNumbered self }
    {
        let LoadGraph {
            labels,
            modules,
            edges,
            packages,
            is_evaluated_once: _,
        } = self;
        (labels, modules, edges, packages)
    }

    /// Returns the labels of the modules and the packages of the workspace, once nobody needs the modules. Drops them
    /// with their files, to lower the peak of memory.
    pub fn into_parts(self) -> (LabelSet, Packages)
        ensures labels { result.0 ≡ self.labels }
        ensures packages { result.1 ≡ self.packages }
    {
        let LoadGraph {
            labels,
            modules: _,
            edges: _,
            packages,
            is_evaluated_once: _,
        } = self;
        (labels, packages)
    }

    /// Returns the labels and the packages, as [`LoadGraph::into_parts`] does. The modules are dropped by at most
    /// `threads` threads.
    pub fn into_parts_by<R: Threads + Sync>(self, rt: &R, threads: usize) -> (LabelSet, Packages)
        requires { 0 < threads }
        ensures labels { result.0 ≡ self.labels }
        ensures packages { result.1 ≡ self.packages }
    {
        let LoadGraph {
            labels,
            mut modules,
            edges: _,
            packages,
            is_evaluated_once: _,
        } = self;
        let each = |_: usize, module: &mut Module| module.forget();
        thread::for_each_mut(rt, modules.as_mut_slice(), threads, &each);
        (labels, packages)
    }
}
