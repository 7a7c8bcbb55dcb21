//! What is assigned to: the target that an expression is.

ghost use Rattle.std.specs.Prelude.{◌≡◌, ◌≢◌, suc, [], ◌∷◌, reverse, Err, IfOk, MatchResult};
ghost use Rattle.bq_parse_grammar.specs.declared.refusal.SyntaxErr.TheVariants.{Syntax};
ghost use Rattle.bq_parse_grammar.specs.Grammar as grammar;
ghost use Rattle.bq_parse_grammar.specs.Targets as spec;
ghost use Rattle.bq_parse_grammar.specs.declared.tree.Expr.{out-Expr};
ghost use Rattle.bq_parse_grammar.specs.declared.tree.Suffix.{out-Suffix};
ghost use Rattle.bq_parse.specs.Makes.{Makes, MakesTarget};

use bq_parse_grammar::{Boxed, Expr, Items, Suffix, SyntaxErr, TargetExpr};
use std::alloc::{AllocError, Global};

/// Returns the items from the last to the first.
#[tactic(auto, using(crate::proofs::Reversed::reverse_last))]
fn reversed(alloc: Global, mut items: Items<Expr>) -> Result<Items<Expr>, AllocError>
    ensures { IfOk result (λ xs. xs ≡ reverse items) }
{
    let mut found = Items::new(alloc);
    'items: while let Some(item) = items.pop() {
        found.push(item)?;
    }
    Ok(found)
}

/// Returns an operand and what is done to it; the operand alone where nothing is.
fn primary_of(
    alloc: Global,
    operand: Boxed<Expr>,
    suffixes: Items<Suffix>,
) -> Result<Boxed<Expr>, AllocError>
    ensures { IfOk result (λ x. x ≡ grammar.primary_of operand suffixes) }
{
    if suffixes.is_empty() {
        return Ok(operand);
    }
    Boxed::new(alloc, Expr::Primary(operand, suffixes))
}

/// Returns an operand with these suffixes and the last one, which must be an index.
fn indexed_by(
    alloc: Global,
    operand: Boxed<Expr>,
    suffixes: Items<Suffix>,
    last: Suffix,
) -> Result<TargetExpr, SyntaxErr>
    ensures { Makes (spec.index_of (grammar.primary_of operand suffixes) (out-Suffix last)) result }
{
    match last {
        Suffix::Index(index) => Ok(TargetExpr::Index(primary_of(alloc, operand, suffixes)?, index)),
        other => refused((operand, suffixes, other)),
    }
}

/// Returns an operand whose last suffix is an index.
#[tactic(auto, using(crate::proofs::Reversed::indexed_popped))]
fn indexed(
    alloc: Global,
    operand: Boxed<Expr>,
    mut suffixes: Items<Suffix>,
) -> Result<TargetExpr, SyntaxErr>
    ensures { Makes (spec.indexed_from operand [] suffixes) result }
{
    match suffixes.pop() {
        // PROOF: each way out on its own.
        Some(last) => Ok(indexed_by(alloc, operand, suffixes, last)?),
        None => Err(SyntaxErr::Syntax),
    }
}

/// Drops what is refused, as an expression that can't be assigned to. It is generic, since dropping a `T` is a single step for the proof.
pub fn refused<T: Drop, A>(_value: T) -> Result<A, SyntaxErr>
    ensures { result ≡ Err Syntax }
{
    Err(SyntaxErr::Syntax)
}

/// Returns the items, at least one.
fn some<T: Drop>(items: Items<T>) -> Result<Items<T>, SyntaxErr>
    ensures { MatchResult result (λ xs. (items ≢ []) × (xs ≡ items)) (λ why. (items ≡ []) × (why ≡ Syntax)) }
{
    if items.is_empty() {
        return Err(SyntaxErr::Syntax);
    }
    Ok(items)
}

/// The rules of targets take the maker of those in lists and tuples as a parameter, so that each is proved by itself.
#[derive(Drop)]
pub struct Targets<F> {
    alloc: Global,
    /// One more than how many lists and tuples may be in one another inside.
    depth: usize,
    target: F,
}

impl<F: Fn(Global, usize, Expr) -> Result<TargetExpr, SyntaxErr>> Targets<F> {
    fn nested(&self, expr: Expr) -> Result<TargetExpr, SyntaxErr>
        requires { MakesTarget self.now.depth (F.pre self.now.target) (F.post self.now.target) }
        ensures { Makes (spec.target_to self.now.depth expr) result }
    {
        (self.target)(self.alloc, self.depth, expr)
    }

    /// Returns the targets that the expressions are.
    #[tactic(auto, using(crate::proofs::Reversed::reverse_last, crate::proofs::Reversed::reverse_reversed))]
    fn all(&self, exprs: Items<Expr>) -> Result<Items<TargetExpr>, SyntaxErr>
        requires { MakesTarget self.now.depth (F.pre self.now.target) (F.post self.now.target) }
        ensures { Makes (spec.targets_from (spec.target_to self.now.depth) [] exprs) result }
    {
        let mut left = reversed(self.alloc, exprs)?;
        let mut found = Items::new(self.alloc);
        'exprs: while let Some(expr) = left.pop() {
            found.push(self.nested(expr)?)?;
        }
        Ok(found)
    }

    fn target(&self, expr: Expr) -> Result<TargetExpr, SyntaxErr>
        requires { MakesTarget self.now.depth (F.pre self.now.target) (F.post self.now.target) }
        ensures { Makes (spec.target_by (spec.target_to self.now.depth) (out-Expr expr)) result }
    {
        match expr {
            Expr::Name(name) => Ok(TargetExpr::Name(name)),
            Expr::Primary(operand, suffixes) => indexed(self.alloc, operand, suffixes),
            Expr::Tuple(exprs) => some(self.all(exprs)?).map(TargetExpr::Tuple),
            Expr::List(exprs) => some(self.all(exprs)?).map(TargetExpr::List),
            other => refused(other),
        }
    }
}

/// Returns the target that an expression is, in which lists and tuples nest less than `depth` deep.
fn target_to(alloc: Global, depth: usize, expr: Expr) -> Result<TargetExpr, SyntaxErr>
    ensures { Makes (spec.target_to depth expr) result }
{
    if depth == 0 {
        return refused(expr);
    }
    Targets {
        alloc,
        depth: depth - 1,
        target: target_to,
    }
    .target(expr)
}

/// Returns the target that an expression is, in which lists and tuples nest at most `depth` deep.
#[tactic(auto, unfolding(bq_parse_grammar::specs::Targets::target_to))]
pub fn target(alloc: Global, depth: usize, expr: Expr) -> Result<TargetExpr, SyntaxErr>
    ensures { Makes (spec.target_to (suc depth) expr) result }
{
    Targets {
        alloc,
        depth,
        target: target_to,
    }
    .target(expr)
}

/// Returns what an augmented assignment may assign to.
#[tactic(auto, unfolding(bq_parse_grammar::specs::Targets::augmented_target))]
pub fn augmented_target(alloc: Global, expr: Expr) -> Result<TargetExpr, SyntaxErr>
    ensures { Makes (spec.augmented_target expr) result }
{
    match expr {
        Expr::Name(name) => Ok(TargetExpr::Name(name)),
        Expr::Primary(operand, suffixes) => indexed(alloc, operand, suffixes),
        other => refused(other),
    }
}
