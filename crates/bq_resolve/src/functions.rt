//! Functions, and the `def`s that make them.

ghost use Rattle.bq_base.specs.Gives.{Gives};
ghost use Rattle.bq_base.specs.declared.fault.SourceErr.TheVariants.{Bad};
ghost use Rattle.bq_resolve_scope.specs.declared.file.Outside.TheVariants as line;
ghost use Rattle.bq_resolve_scope.specs.Files as files;
ghost use Rattle.bq_resolve_scope.specs.Statements as spec;
ghost use Rattle.bq_resolve.specs.Walks.{Walks};

use crate::blocks::BlockResolver;
use crate::identifier::bound_at;
use crate::parameters::{ParameterList, parameters};
use crate::scope::Scope;
use crate::statements::stmt_to;
use crate::walk::Walk;
use bq_base::{Bytes, NameFault, SourceErr};
use bq_parse_grammar::{Identifier, Items as Trees, Parameter, Stmt};
use bq_resolve_scope::{
    Block, Def, FileNames, Formal, Function, MAX_LAYERS, Names, function_names, inside,
};
use sqlite_items::Items;
use std::alloc::Global;

/// Resolves the statements of a function that binds these names, in a frame of its own: its number.
#[tactic(auto, unfolding(bq_resolve_scope::specs::Statements::function, bq_resolve_scope::specs::Names::max_layers))]
fn function(
    outside: &Scope<'_>,
    walk: &mut Walk,
    name: Bytes,
    parameters: Items<Formal>,
    names: Names,
    body: Trees<Stmt>,
) -> Result<usize, SourceErr<NameFault>>
    ensures { Walks (spec.function outside.now.file.now name parameters names body walk.old) result walk.new }
{
    let mut body = body;
    let slots_outside = walk.frame(names.len());
    let block = Block::new(outside.alloc, 0, names)?;
    let blocks = inside(outside.alloc, block, &[])?;
    let statements = BlockResolver {
        scope: outside.among(blocks.as_slice()),
        layers: MAX_LAYERS,
        inner: stmt_to,
    };
    statements.block(false, walk, &mut body)?;
    let slots = walk.frame(slots_outside);
    Ok(walk.add_function(Function {
        name,
        parameters,
        slots,
        body,
    })?)
}

/// Resolves a `def`: its name is bound before its parameters are looked at. Its function has a frame of its own.
#[tactic(auto, unfolding(bq_resolve_scope::specs::Files::def_stmt))]
pub fn def_stmt(
    alloc: Global,
    file: &FileNames,
    walk: &mut Walk,
    name: Identifier,
    listed: Trees<Parameter>,
    body: Trees<Stmt>,
) -> Result<Def, SourceErr<NameFault>>
    ensures { Gives (λ d. (line.Def d, walk.new)) Bad result (files.def_stmt file.now name listed body walk.old) }
{
    let mut name = name;
    let outside = Scope::outside(alloc, file);
    bound_at(&outside, walk, &mut name)?;
    let names = function_names(alloc, listed.as_slice(), body.as_slice())?;
    let ParameterList {
        names: _,
        parameters,
        defaults,
    } = parameters(alloc, file, walk, listed)?;
    let function = function(&outside, walk, name.name.share()?, parameters, names, body)?;
    Ok(Def {
        name,
        function,
        defaults,
    })
}
