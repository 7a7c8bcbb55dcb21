//! What stands outside functions.

ghost use Rattle.std.specs.Prelude.{[]};
ghost use Rattle.bq_resolve_scope.specs.Visit as visit;
ghost use Rattle.bq_resolve_scope.specs.Files as files;
ghost use Rattle.bq_resolve.specs.Walks.{Walks};

use crate::functions::def_stmt;
use crate::scope::Scope;
use crate::small::{line, misplaced};
use crate::walk::Walk;
use bq_base::{NameFault, SourceErr};
use bq_parse_grammar::{Boxed, Items as Trees, Stmt, TopLevel};
use bq_resolve_scope::{FileLine, FileNames, Outside};
use sqlite_items::Items;
use std::alloc::Global;

/// Resolves a top-level statement: `if` and `for` are not allowed.
#[tactic(auto, unfolding(bq_resolve_scope::specs::Files::top_level))]
fn top_level(
    alloc: Global,
    file: &FileNames,
    walk: &mut Walk,
    top_level: TopLevel,
) -> Result<FileLine, SourceErr<NameFault>>
    ensures { Walks (files.top_level file.now top_level walk.old) result walk.new }
{
    let TopLevel {
        line: first_line,
        statement,
    } = top_level;
    let statement = match statement {
        Stmt::Simple(small) => {
            let mut small = small;
            line(&Scope::outside(alloc, file), false, walk, &mut small)?;
            Outside::Simple(small)
        }
        Stmt::If(_, _) => return misplaced(first_line),
        Stmt::For(_, _, _) => return misplaced(first_line),
        Stmt::Def(name, parameters, body) => {
            let def = def_stmt(alloc, file, walk, name, parameters, body)?;
            Outside::Def(Boxed::new(alloc, def)?)
        }
    };
    Ok(FileLine {
        line: first_line,
        statement,
    })
}

/// Resolves the top-level statements of a file.
#[tactic(auto, unfolding(bq_resolve_scope::specs::Visit::each))]
pub fn top_levels(
    alloc: Global,
    file: &FileNames,
    walk: &mut Walk,
    statements: Trees<TopLevel>,
) -> Result<Items<FileLine>, SourceErr<NameFault>>
    ensures { Walks (visit.each (files.top_level file.now) [] statements walk.old) result walk.new }
{
    let mut done = Items::from_vec(Vec::with_capacity(alloc, statements.len())?);
    for statement in statements.into_vec() {
        done.push(top_level(alloc, file, walk, statement)?)?;
    }
    Ok(done)
}
