//! What targets, clauses, statements, functions and files bind.

ghost use Rattle.std.specs.Prelude.{◌≡◌, [], IfOk, OnOk};
ghost use Rattle.bq_resolve_scope.specs.Names as spec;

use crate::names::Names;
use bq_parse_grammar::{
    Branch, Clause, Parameter, SmallKind, SmallStmt, Stmt, TargetExpr, TopLevel,
};
use std::alloc::{AllocError, Global};

/// How many layers of a tree are looked at; a tree that is parsed has fewer.
pub const MAX_LAYERS: usize = 1024;

/// Adds the names of targets that are at most `depth` layers deep.
#[cycle(targets)]
fn add_targets_to(names: &mut Names, depth: usize, targets: &[TargetExpr]) -> Result<(), AllocError>
    ensures { OnOk result (names.new ≡ spec.with_each (spec.with_target_to depth) names.old targets.now) }
{
    for target in targets {
        add_target_to(names, depth, target)?;
    }
    Ok(())
}

/// Adds the names of a target that is at most `depth` layers deep.
#[cycle(targets)]
#[tactic(auto, using(crate::proofs::Layers::target_layer), unfolding(crate::specs::Names::with_target_to))]
fn add_target_to(names: &mut Names, depth: usize, target: &TargetExpr) -> Result<(), AllocError>
    ensures { OnOk result (names.new ≡ spec.with_target_to depth names.old target.now) }
{
    if depth == 0 {
        return Ok(());
    }
    match target {
        TargetExpr::Name(name) => names.add(&name.name),
        TargetExpr::Index(_, _) => Ok(()),
        TargetExpr::Tuple(targets) => add_targets_to(names, depth - 1, targets.as_slice()),
        TargetExpr::List(targets) => add_targets_to(names, depth - 1, targets.as_slice()),
    }
}

/// Adds the names of a target.
#[tactic(auto, unfolding(crate::specs::Names::with_target, crate::specs::Names::max_layers))]
fn add_target(names: &mut Names, target: &TargetExpr) -> Result<(), AllocError>
    ensures { OnOk result (names.new ≡ spec.with_target names.old target.now) }
{
    add_target_to(names, MAX_LAYERS, target)
}

/// Adds what clauses bind.
#[tactic(auto, unfolding(crate::specs::Names::with_clause))]
fn add_clauses(names: &mut Names, clauses: &[Clause]) -> Result<(), AllocError>
    ensures { OnOk result (names.new ≡ spec.with_each spec.with_clause names.old clauses.now) }
{
    for clause in clauses {
        match clause {
            Clause::For(target, _) => add_target(names, target)?,
            Clause::If(_) => {}
        }
    }
    Ok(())
}

/// Returns what a comprehension with these clauses binds.
#[tactic(auto, unfolding(crate::specs::Names::comprehension_names))]
pub fn comprehension_names(alloc: Global, clauses: &[Clause]) -> Result<Names, AllocError>
    ensures { IfOk result (λ names. names ≡ spec.comprehension_names clauses.now) }
{
    let mut names = Names::new(alloc);
    add_clauses(&mut names, clauses)?;
    Ok(names)
}

/// Adds what the small statements of a line bind.
#[tactic(auto, unfolding(crate::specs::Names::with_small))]
fn add_line(names: &mut Names, line: &[SmallStmt]) -> Result<(), AllocError>
    ensures { OnOk result (names.new ≡ spec.with_each spec.with_small names.old line.now) }
{
    for small in line {
        match &small.kind {
            SmallKind::Assign(target, _) => add_target(names, target.get())?,
            SmallKind::Augment(target, _, _) => add_target(names, target.get())?,
            _ => {}
        }
    }
    Ok(())
}

#[cycle(statements)]
fn add_block_to(names: &mut Names, depth: usize, block: &[Stmt]) -> Result<(), AllocError>
    ensures { OnOk result (names.new ≡ spec.with_each (spec.with_stmt_to depth) names.old block.now) }
{
    for statement in block {
        add_stmt_to(names, depth, statement)?;
    }
    Ok(())
}

#[cycle(statements)]
fn add_branches_to(names: &mut Names, depth: usize, branches: &[Branch]) -> Result<(), AllocError>
    ensures { OnOk result (names.new ≡ spec.with_each (spec.with_branch (spec.with_stmt_to depth)) names.old branches.now) }
{
    for branch in branches {
        add_block_to(names, depth, branch.block.as_slice())?;
    }
    Ok(())
}

/// Adds what the branches of an `if` and its `else` bind.
#[cycle(statements)]
fn add_if_to(
    names: &mut Names,
    depth: usize,
    branches: &[Branch],
    otherwise: &[Stmt],
) -> Result<(), AllocError>
    ensures { OnOk result (names.new ≡ spec.with_each (spec.with_stmt_to depth) (spec.with_each (spec.with_branch (spec.with_stmt_to depth)) names.old branches.now) otherwise.now) }
{
    add_branches_to(names, depth, branches)?;
    add_block_to(names, depth, otherwise)
}

/// Adds what a statement that is at most `depth` layers deep binds in its block.
#[cycle(statements)]
#[tactic(auto, using(crate::proofs::Layers::stmt_layer), unfolding(crate::specs::Names::with_stmt_to))]
fn add_stmt_to(names: &mut Names, depth: usize, statement: &Stmt) -> Result<(), AllocError>
    ensures { OnOk result (names.new ≡ spec.with_stmt_to depth names.old statement.now) }
{
    if depth == 0 {
        return Ok(());
    }
    match statement {
        Stmt::Simple(line) => add_line(names, line.as_slice()),
        Stmt::If(branches, otherwise) => {
            add_if_to(names, depth - 1, branches.as_slice(), otherwise.as_slice())
        }
        Stmt::For(target, _, block) => {
            add_target(names, target)?;
            add_block_to(names, depth - 1, block.as_slice())
        }
        Stmt::Def(name, _, _) => names.add(&name.name),
    }
}

/// Adds the names of parameters.
fn add_parameters(names: &mut Names, parameters: &[Parameter]) -> Result<(), AllocError>
    ensures { OnOk result (names.new ≡ spec.with_each spec.with_parameter names.old parameters.now) }
{
    for parameter in parameters {
        match parameter {
            Parameter::Plain(name) => names.add(&name.name)?,
            Parameter::Default(name, _) => names.add(&name.name)?,
            Parameter::BareStar => {}
            Parameter::Star(name) => names.add(&name.name)?,
            Parameter::StarStar(name) => names.add(&name.name)?,
        }
    }
    Ok(())
}

/// Adds what the statements of a function bind.
#[tactic(auto, unfolding(crate::specs::Names::with_stmt, crate::specs::Names::max_layers))]
fn add_body(names: &mut Names, body: &[Stmt]) -> Result<(), AllocError>
    ensures { OnOk result (names.new ≡ spec.with_each spec.with_stmt names.old body.now) }
{
    for statement in body {
        add_stmt_to(names, MAX_LAYERS, statement)?;
    }
    Ok(())
}

/// Returns what a function with these parameters and statements binds.
#[tactic(auto, unfolding(crate::specs::Names::function_names))]
pub fn function_names(
    alloc: Global,
    parameters: &[Parameter],
    body: &[Stmt],
) -> Result<Names, AllocError>
    ensures { IfOk result (λ names. names ≡ spec.function_names parameters.now body.now) }
{
    let mut names = Names::new(alloc);
    add_parameters(&mut names, parameters)?;
    add_body(&mut names, body)?;
    Ok(names)
}

/// Adds what the top-level statements of a file bind.
#[tactic(auto, unfolding(crate::specs::Names::with_stmt, crate::specs::Names::max_layers))]
fn add_file(names: &mut Names, file: &[TopLevel]) -> Result<(), AllocError>
    ensures { OnOk result (names.new ≡ spec.with_each (λ found t. spec.with_stmt found t.statement) names.old file.now) }
{
    for statement in file {
        add_stmt_to(names, MAX_LAYERS, &statement.statement)?;
    }
    Ok(())
}

/// Returns what a file binds, but for its loads.
#[tactic(auto, unfolding(crate::specs::Names::global_names))]
pub fn global_names(alloc: Global, file: &[TopLevel]) -> Result<Names, AllocError>
    ensures { IfOk result (λ names. names ≡ spec.global_names file.now) }
{
    let mut names = Names::new(alloc);
    add_file(&mut names, file)?;
    Ok(names)
}

/// Adds what the loads of a line bind.
#[tactic(auto, unfolding(crate::specs::Names::with_load))]
fn add_loads(names: &mut Names, line: &[SmallStmt]) -> Result<(), AllocError>
    ensures { OnOk result (names.new ≡ spec.with_each spec.with_load names.old line.now) }
{
    for statement in line {
        let SmallKind::Load(load) = &statement.kind else {
            continue;
        };
        for clause in load.clauses.as_slice() {
            names.add(&clause.local.name)?;
        }
    }
    Ok(())
}

/// Adds what the loads of a file bind.
#[tactic(auto, unfolding(crate::specs::Names::with_loads))]
fn add_loads_of_file(names: &mut Names, file: &[TopLevel]) -> Result<(), AllocError>
    ensures { OnOk result (names.new ≡ spec.with_each spec.with_loads names.old file.now) }
{
    for top_level in file {
        match &top_level.statement {
            Stmt::Simple(line) => add_loads(names, line.as_slice())?,
            _ => {}
        }
    }
    Ok(())
}

/// Returns what a file's loads bind.
#[tactic(auto, unfolding(crate::specs::Names::loaded_names))]
pub fn loaded_names(alloc: Global, file: &[TopLevel]) -> Result<Names, AllocError>
    ensures { IfOk result (λ names. names ≡ spec.loaded_names file.now) }
{
    let mut names = Names::new(alloc);
    add_loads_of_file(&mut names, file)?;
    Ok(names)
}
