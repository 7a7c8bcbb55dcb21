//! What holds of modules that are loaded. The functions do nothing: their contracts are the laws.

ghost use Rattle.std.specs.Prelude.{◌≡◌, ℕ, List, Option, Result};
ghost use Rattle.bq_base.specs.declared.fault.FaultKind.{FaultKind};
ghost use Rattle.bq_base.specs.declared.fault.Fault.{Fault};
ghost use Rattle.bq_board.specs.Graph.{Loads};
ghost use Rattle.bq_load_order.specs.Outcome.{outcome};
ghost use Rattle.bq_resolve_scope.specs.Names.{Name};
ghost use Rattle.bq_resolve_scope.specs.declared.file.ResolvedFile.{ResolvedFile};
ghost use Rattle.bq_load_front.specs.declared.front.Front.{Front};
ghost use Rattle.bq_load.specs.Evaluation.{means};
ghost use Rattle.bq_load.specs.Imports.{exported};
ghost use Rattle.bq_load.specs.Results.{result_of};
ghost use Rattle.bq_load.specs.Loading.{LoadingParts};
ghost use Rattle.bq_load.specs.Views.{ModuleView};
ghost use Rattle.bq_builtin_machine.specs.Refusals.{first_fault, FailsForFirst};
ghost use Rattle.bq_load_laws.specs.Outcomes.Exports.{ModulesExportTheirOwn};
ghost use Rattle.bq_load_laws.specs.Outcomes.FirstLoad.{FaultsAreAtFirstLoads, ModulesNameTheirLoads};
ghost use Rattle.bq_load_laws.specs.Outcomes.Orders.{exporting, failure, loading};
ghost use Rattle.bq_load_laws.specs.Outcomes.Prints.{PrintsAreKept};

/// A private symbol is F34 whether the module has it or not; another one that it doesn't have is F33.
pub fn symbols_are_refused_in_order()
    ensures { (resolved : List (Option ResolvedFile)) (m : Option ModuleView) (name : Name) → FailsForFirst (exported resolved m name) (exporting resolved m name) }
{}

/// A module fails for the first of the reasons that are listed, and for nothing else: F35, F38, F36, and then its own
/// fault.
pub fn modules_fail_in_order()
    ensures { (x : LoadingParts) (p : Loads) (m : ℕ) (front : Result Front (Fault FaultKind)) → failure (result_of x front (outcome (means x) p m)) ≡ first_fault (loading x p m) }
{}

/// F35, F36 and F38 name the line of the file's first load of the module, even if later ones load it too, and the
/// module's label. In a load graph there is such a load.
pub fn faults_of_loads_name_the_first_load()
    ensures first { FaultsAreAtFirstLoads }
    ensures loaded { ModulesNameTheirLoads }
{}

/// A module exports what its own file binds outside all functions, with its value there, and nothing else: no name that it loads.
pub fn modules_export_their_own()
    ensures { ModulesExportTheirOwn }
{}

/// What a module printed stays, one line for each call, whether it ran to its end or failed afterwards.
pub fn prints_are_kept()
    ensures { PrintsAreKept }
{}
