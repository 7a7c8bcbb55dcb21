//! What the definitions of queries say together. The functions do nothing: their contracts are the laws.

ghost use Rattle.std.specs.Prelude.{ℕ, ◌<◌, List, length};
ghost use Rattle.std.specs.List.{All};
ghost use Rattle.std.specs.List.Sorted.{IsStrictlyIncreasing};
ghost use Rattle.bq_query_check.specs.Formula.{Formula};
ghost use Rattle.bq_package_target.specs.declared.target.Target.{Target};
ghost use Rattle.bq_query_function.specs.Order.{AreInOrder};
ghost use Rattle.bq_query_target_graph.specs.Graph.{GraphParts};
ghost use Rattle.bq_query.specs.Stands.{Bound};
ghost use Rattle.bq_query.specs.Laws.{AreOfSets, LieWithin, Keep, IsItself, LabelsAscend};

/// Union, intersection and difference are those of sets.
pub fn operators_are_of_sets()
    ensures { (w : GraphParts) (a b : Formula) (bound : Bound) (y : ℕ) → AreOfSets w a b bound y }
{}

/// `deps(x)` has `x`; `rdeps(u, x)` and `allpaths(u, x)` are within `deps(u)`; with a number of edges there are no
/// more.
pub fn dependents_lie_within_dependencies()
    ensures { (w : GraphParts) (a b : Formula) (n : ℕ) (bound : Bound) (y : ℕ) → LieWithin w a b n bound y }
{}

/// `kind`, `filter` and `attr` keep members of their argument.
pub fn patterns_keep_members()
    ensures { (w : GraphParts) (a : Formula) (name pattern : List ℕ) (bound : Bound) (y : ℕ) → Keep w a name pattern bound y }
{}

/// `let v = x in $v` is `x`.
pub fn a_name_is_its_value()
    ensures { (w : GraphParts) (a : Formula) (bound : Bound) → IsItself w a bound }
{}

/// The labels of an answer ascend, none of them twice.
pub fn labels_ascend()
    ensures { (targets : List Target) (answer : List ℕ) → AreInOrder targets → IsStrictlyIncreasing answer → All (λ at. at < length targets) answer → LabelsAscend targets answer }
{}
