//! What holds of the depth of files. The functions do nothing: their contracts are the laws.

ghost use Rattle.bq_eval_spec.specs.Primitives.{Primitives};
ghost use Rattle.bq_eval_spec.specs.Environment.{Scoping};
ghost use Rattle.bq_eval_laws.specs.FileDepth.{NoResolvedFileIsTooDeep, ExpressionsAreWithin, StatementsAreWithin, TargetsAreWithin, ExpressionsNeedNoMore, StatementsNeedNoMore, BindingsNeedNoMore, PlacesNeedNoMore};

/// Where a file is parsed and resolved, each expression, target and statement in it, and in its functions, is no deeper than the
/// layers that its meaning looks at.
pub fn no_resolved_file_is_too_deep()
    ensures { NoResolvedFileIsTooDeep }
{}

/// What fits in some number of layers is no deeper, as the laws of the meaning say it.
pub fn what_fits_is_within()
    ensures expressions { ExpressionsAreWithin }
    ensures statements { StatementsAreWithin }
    ensures targets { TargetsAreWithin }
{}

/// What fits in the layers that are looked at means the same with more of them: an expression, a statement, and a
/// target.
pub fn what_fits_needs_no_more_layers<S, R, V>()
    ensures expressions { (m : Primitives S) (scoping : Scoping R V) → ExpressionsNeedNoMore m scoping }
    ensures statements { (m : Primitives S) (scoping : Scoping R V) → StatementsNeedNoMore m scoping }
    ensures bindings { (m : Primitives S) (scoping : Scoping R V) → BindingsNeedNoMore m scoping }
    ensures places { (m : Primitives S) (scoping : Scoping R V) → PlacesNeedNoMore m scoping }
{}
