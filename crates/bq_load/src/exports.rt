//! What a module exports to the files that load it.

ghost use Rattle.std.specs.Prelude.{◌≡◌, option_and_then, option_map, slice_get};
ghost use Rattle.std.specs.Option.{option_copied, ForSome};
ghost use Rattle.bq_base.specs.Gives.{Gives};
ghost use Rattle.bq_base.specs.declared.fault.SourceErr.TheVariants.{Bad};
ghost use Rattle.bq_load.specs.declared.exports.ExportErr.TheVariants.{Bad as BadKind, Memory};
ghost use Rattle.bq_load_module.specs.Round.{lent_files};
ghost use Rattle.bq_load.specs.Views.{module_view};
ghost use Rattle.bq_load.specs.Places.{HasPlaces};
ghost use Rattle.bq_load.specs.Imports.{value_named, globals_by, names_by, global_of, global_by, is_private, exported, at_symbol, clause_values};

use crate::places::{NamePlaces, place_of};
use bq_base::{Bytes, Fault, LoadFault, SourceErr};
use bq_load_module::LoadedModule;
use bq_resolve_scope::{LoadedSymbol, ResolvedFile};
use bq_value::Value;
use std::alloc::AllocError;

/// Returns the value at the place of its name.
#[tactic(auto, unfolding(crate::specs::Imports::value_named))]
fn value_named<'a>(name: &Bytes, names: &[Bytes], values: &'a [Value]) -> Option<&'a Value>
    ensures { option_copied result ≡ value_named name.now names.now values.now }
{
    let mut left = values;
    for other in names {
        let Some((value, rest)) = left.split_first() else {
            return None;
        };
        if name == other {
            return Some(value);
        }
        left = rest;
    }
    None
}

/// Returns the value at a place.
fn value_at(place: Option<usize>, values: &[Value]) -> Option<&Value>
    ensures { option_copied result ≡ option_and_then (slice_get values.now) place }
{
    match place {
        None => None,
        Some(place) => values.get(place),
    }
}

/// Returns the value at the place of its name, by the places of the names if they are known.
fn value_by<'v>(
    places: Option<&NamePlaces<'_>>,
    name: &Bytes,
    names: &[Bytes],
    values: &'v [Value],
) -> Option<&'v Value>
    requires { ForSome places (λ p. HasPlaces 0 names.now p.now) }
    ensures { option_copied result ≡ value_named name.now names.now values.now }
{
    let Some(places) = places else {
        return value_named(name, names, values);
    };
    value_at(place_of(places, name), values)
}

/// Returns the names of the globals that the file of a module binds.
pub(crate) fn globals_of<'a>(resolved: &'a [Option<&'a ResolvedFile>], number: u32) -> &'a [Bytes]
    ensures { result.now ≡ globals_by (slice_get (lent_files resolved.now) number) }
{
    match resolved.get(number as usize) {
        None => &[],
        Some(None) => &[],
        Some(Some(file)) => file.globals.as_slice(),
    }
}

/// Why a module has no value for a symbol.
#[derive(Drop)]
pub enum ExportErr {
    Bad(LoadFault),
    Memory,
}

impl From<AllocError> for ExportErr {
    ghost from_gives = { λ _ e. e ≡ Memory };

    fn from(_: AllocError) -> Self {
        ExportErr::Memory
    }
}

/// A module that a load names, and the resolved files of all modules.
#[derive(Clone, Copy)]
pub(crate) struct Exports<'t, 'a> {
    pub resolved: &'a [Option<&'a ResolvedFile>],
    /// `None` if no such file is loaded.
    pub module: Option<&'a LoadedModule>,
    /// The places of its globals' names, if many clauses look for them.
    pub places: Option<&'t NamePlaces<'a>>,
    ghost placed: { ForSome places (λ p. HasPlaces 0 (names_by (lent_files resolved.now) (option_map module_view (option_copied «module»))) p.now) },
}

impl<'t, 'a> Exports<'t, 'a> {
    /// Returns what the module exports by this name: F34, F33.
    #[tactic(auto, unfolding(crate::specs::Imports::exported))]
    fn exported(&self, name: &Bytes) -> Result<Value, ExportErr>
        ensures { Gives (λ v. v) BadKind result (exported (lent_files self.now.resolved.now) (option_map module_view (option_copied self.now.module)) name.now) }
    {
        if name.as_slice().starts_with(b"_") {
            return Err(ExportErr::Bad(LoadFault::PrivateSymbol));
        }
        let Some(module) = self.module else {
            return Err(ExportErr::Bad(LoadFault::NoSymbol));
        };
        let names = globals_of(self.resolved, module.frozen.module());
        match value_by(self.places, name, names, module.frozen.globals()) {
            None => Err(ExportErr::Bad(LoadFault::NoSymbol)),
            Some(value) => Ok(value.share()?),
        }
    }

    /// Returns the value of a clause of a load in this line, or its fault.
    fn clause_value(&self, line: u32, symbol: &Bytes) -> Result<Value, SourceErr<LoadFault>>
        ensures { Gives (λ v. v) Bad result (at_symbol line symbol.now (exported (lent_files self.now.resolved.now) (option_map module_view (option_copied self.now.module)) symbol.now)) }
    {
        match self.exported(symbol) {
            Ok(value) => Ok(value),
            Err(ExportErr::Bad(kind)) => Err(SourceErr::Bad(Fault {
                kind,
                line,
                detail: symbol.share()?,
            })),
            Err(ExportErr::Memory) => Err(SourceErr::Memory),
        }
    }

    /// Appends a value for each clause of a load in this line.
    #[tactic(auto, unfolding(crate::specs::Imports::clause_values))]
    pub(crate) fn clause_values(
        &self,
        line: u32,
        values: &mut Vec<Value>,
        clauses: &[LoadedSymbol],
    ) -> Result<(), SourceErr<LoadFault>>
        ensures { Gives (λ _. values.new.items) Bad result (clause_values (lent_files self.now.resolved.now) (option_map module_view (option_copied self.now.module)) line values.old.items clauses.now) }
    {
        for clause in clauses {
            values.push(self.clause_value(line, &clause.symbol)?)?;
        }
        Ok(())
    }
}
