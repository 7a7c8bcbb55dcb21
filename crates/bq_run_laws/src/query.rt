//! What holds of the targets that queries stand for. The functions do nothing: their contracts are the laws.

ghost use Rattle.std.specs.Prelude.{◌≡◌, ◌∷◌, ◌++◌, [], ℕ, List};
ghost use Rattle.bq_label.specs.Label.{LabelParts};
ghost use Rattle.bq_query_check.specs.Formula.{Formula, Step, chained, combined};
ghost use Rattle.bq_query.specs.Stands.{Bound};
ghost use Rattle.bq_query_target_graph.specs.Graph.{GraphParts};
ghost use Rattle.bq_run_laws.specs.Queries.Edges.{FunctionsByEdges};
ghost use Rattle.bq_run_laws.specs.Queries.Chosen.{Choose};
ghost use Rattle.bq_run_laws.specs.Queries.Missing.{FailsForFirstMissing, MissingPackageFirst};
ghost use Rattle.bq_run_laws.specs.Queries.Numbers.{NumbersAreDecimal};
ghost use Rattle.bq_run_laws.specs.Queries.InText.{WordsInTextOrder};

/// An edge leads from a target to each whose label it has. `deps(x)` is what edges lead to from `x`, and `deps(x, n)`
/// what at most `n` of them do; `rdeps(u, x)` and `allpaths(u, x)` are the targets of `deps(u)` from which edges lead
/// to `x`, and `rdeps(u, x, n)` those from which at most `n` do.
pub fn functions_go_along_edges()
    ensures { FunctionsByEdges }
{}

/// `kind` looks at how a target's kind is written, `filter` at its label in full, and `attr` and `labels` at an attribute of rules alone:
/// `attr` at how its value is written, or what the type that the target's own rule declares for it has by default.
pub fn functions_look_at_targets()
    ensures { (w : GraphParts) (a : Formula) (pattern name : List ℕ) (bound : Bound) (y : ℕ) → Choose w a pattern name bound y }
{}

/// A query fails for the first of its words that names what isn't there (Q5, Q6), and is answered if there is none.
pub fn queries_fail_for_the_first_missing_word()
    ensures { (w : GraphParts) (x : Formula) → FailsForFirstMissing w x }
{}

/// A label is Q6 where its package isn't there, whatever targets there are; Q5 where its package is there, and no target has the label; and
/// no fault where both are there.
pub fn a_missing_package_is_named_before_a_missing_target()
    ensures { (w : GraphParts) (l : LabelParts) → MissingPackageFirst w l }
{}

/// The target patterns of a query are read from words of its text, in the text's order.
pub fn words_are_in_the_order_of_the_text()
    ensures { WordsInTextOrder }
{}

/// A number of edges is read in decimal digits. From 2 ^ 32 on, which is more than any number of targets, numbers
/// aren't distinguished.
pub fn numbers_are_decimal()
    ensures { NumbersAreDecimal }
{}

/// Operators in a row are applied from left to right: the last one is between all that is before it and its right side.
pub fn chains_go_from_left_to_right()
    ensures { (x : Formula) (steps : List Step) (last : Step) → chained x (steps ++ last ∷ []) ≡ combined last.operator (chained x steps) last.formula }
{}
