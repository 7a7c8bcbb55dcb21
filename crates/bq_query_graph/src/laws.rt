//! What the definitions of the operators say together, in terms of sets.
ghost use Rattle.std.specs.Prelude.{ℕ, List, Bool};
ghost use Rattle.bq_query_graph.specs.Laws.{DepsIsLeast, DepsGrows, RdepsIsMeet, PathsAreMeet};

/// `deps(x)` is the least set that holds `x` and is closed under edges.
pub fn deps_is_least()
    ensures { (g : List (List ℕ)) (x : List Bool) → DepsIsLeast g x }
{}

/// `deps(x, 0)` is `x`, `deps(x, n)` grows with `n`, and it is `deps(x)` where `n` is the number of targets.
pub fn deps_grows()
    ensures { (g : List (List ℕ)) (x : List Bool) → DepsGrows g x }
{}

/// `rdeps(u, x)` is `deps(u)` intersected with what reaches `x`.
pub fn rdeps_is_a_meet()
    ensures { (g : List (List ℕ)) (u x : List Bool) → RdepsIsMeet g u x }
{}

/// `allpaths(a, b)` is `deps(a)` intersected with what reaches `b`.
pub fn allpaths_is_a_meet()
    ensures { (g : List (List ℕ)) (a b : List Bool) → PathsAreMeet g a b }
{}
