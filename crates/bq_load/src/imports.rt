//! What a file gets of the modules that it loads.

ghost use Rattle.std.specs.Prelude.{◌≡◌, [], IfOk, IfSome, option_map, slice_get};
ghost use Rattle.std.specs.Option.{option_copied};
ghost use Rattle.bq_base.specs.Gives.{Gives};
ghost use Rattle.bq_base.specs.declared.fault.SourceErr.TheVariants.{Bad};
ghost use Rattle.bq_load_front.specs.Resolved.{items};
ghost use Rattle.bq_load_module.specs.Round.{lent_files};
ghost use Rattle.bq_load.specs.Views.{module_view, module_views};
ghost use Rattle.bq_load.specs.Places.{HasPlaces, AllPlaced};
ghost use Rattle.bq_load.specs.Imports.{loaded_of, names_in, names_of, clause_values, imports};

use crate::exports::{Exports, globals_of};
use crate::places::{NamePlaces, places_at, places_by_name};
use bq_base::{LoadFault, SourceErr};
use bq_load_front::NamedFiles;
use bq_load_module::LoadedModule;
use bq_resolve_scope::{LoadStmt, ResolvedFile};
use bq_value::Value;
use std::alloc::{AllocError, Global};
use std::sync::Arc;

/// Up to this many clauses, or names, the names are searched one by one: a map of the names takes as long as about a
/// hundred searches.
const FEW: usize = 100;

/// The files that the loads of a file name, with a module for each, and the resolved files of all modules.
#[derive(Clone, Copy)]
pub struct LoadedFiles<'a> {
    pub named: &'a NamedFiles,
    pub modules: &'a [Arc<LoadedModule, Global>],
    pub resolved: &'a [Option<&'a ResolvedFile>],
}

impl<'a> LoadedFiles<'a> {
    /// Returns the places of the names of a module's globals, if enough clauses look for them to pay for a map.
    fn places_of(
        &self,
        alloc: Global,
        module: &LoadedModule,
        clauses: usize,
    ) -> Result<Option<NamePlaces<'a>>, AllocError>
        ensures { IfOk result (λ places. IfSome places (HasPlaces 0 (names_in (lent_files self.now.resolved.now) (module_view «module».now)))) }
    {
        let names = globals_of(self.resolved, module.frozen.module());
        if clauses.min(names.len()) <= FEW {
            return Ok(None);
        }
        Ok(Some(places_by_name(alloc, names)?))
    }

    /// Returns the places of names for each of the modules, by how many clauses look into each.
    #[tactic(auto, using(crate::proofs::Placed::next_placed))]
    fn all_places(
        &self,
        alloc: Global,
        clauses: &[usize],
    ) -> Result<Vec<Option<NamePlaces<'a>>>, AllocError>
        ensures { IfOk result (λ all. AllPlaced (names_of (lent_files self.now.resolved.now) self.now.modules.now) all.items) }
    {
        let mut all = Vec::new(alloc);
        for (number, module) in self.modules.iter().enumerate() {
            let asked = match clauses.get(number) {
                None => 0,
                Some(count) => *count,
            };
            all.push(self.places_of(alloc, &**module, asked)?)?;
        }
        Ok(all)
    }

    /// Returns the module at this place.
    fn module_in(&self, number: usize) -> Option<&'a LoadedModule>
        ensures { option_map module_view (option_copied result) ≡ slice_get (module_views self.now.modules.now) number }
    {
        match self.modules.get(number) {
            None => None,
            Some(module) => Some(&**module),
        }
    }

    /// Appends the values of the clauses of a load, which names the file at this place.
    fn add_load(
        &self,
        places: &[Option<NamePlaces<'a>>],
        load: &LoadStmt,
        place: usize,
        values: &mut Vec<Value>,
    ) -> Result<(), SourceErr<LoadFault>>
        requires { AllPlaced (names_of (lent_files self.now.resolved.now) self.now.modules.now) places.now }
        ensures { Gives (λ _. values.new.items) Bad result (clause_values (lent_files self.now.resolved.now) (slice_get (module_views self.now.modules.now) place) load.now.line values.old.items load.now.clauses) }
    {
        let exports = Exports {
            resolved: self.resolved,
            module: self.module_in(place),
            places: places_at(places, place),
        };
        exports.clause_values(load.line, values, load.clauses.as_slice())
    }

    /// Returns the values of the clauses of loads, by the places of the modules' names.
    #[tactic(auto, using(crate::proofs::Imported::next_load, crate::proofs::Imported::bad_load, crate::proofs::Imported::no_file, crate::proofs::Imported::no_load))]
    fn imports_by(
        &self,
        alloc: Global,
        places: &[Option<NamePlaces<'a>>],
        loads: &[LoadStmt],
    ) -> Result<Vec<Value>, SourceErr<LoadFault>>
        requires { AllPlaced (names_of (lent_files self.now.resolved.now) self.now.modules.now) places.now }
        ensures { Gives items Bad result (imports (loaded_of self.now) [] loads.now self.now.named.now) }
    {
        let mut values = Vec::new(alloc);
        for (number, load) in loads.iter().enumerate() {
            let Some(place) = self.named.place(number) else {
                return Ok(values);
            };
            self.add_load(places, load, place, &mut values)?;
        }
        Ok(values)
    }

    /// Returns the values of the clauses of loads; or the fault of the first bad clause (F33, F34).
    pub(crate) fn imports(
        &self,
        alloc: Global,
        loads: &[LoadStmt],
    ) -> Result<Vec<Value>, SourceErr<LoadFault>>
        ensures { Gives items Bad result (imports (loaded_of self.now) [] loads.now self.now.named.now) }
    {
        // How many clauses look into each module decides how they look, and not what they find.
        let mut clauses = vec![in alloc; 0usize; self.modules.len()]?;
        for (number, load) in loads.iter().enumerate() {
            let Some(place) = self.named.place(number) else {
                break;
            };
            if place < clauses.len() {
                clauses[place] = clauses[place].saturating_add(load.clauses.len());
            }
        }
        let places = self.all_places(alloc, &clauses)?;
        self.imports_by(alloc, &places, loads)
    }
}
