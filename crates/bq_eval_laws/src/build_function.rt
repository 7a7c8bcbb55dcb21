//! What holds of calls of build functions. The functions do nothing: their contracts are the laws.

ghost use Rattle.std.specs.Prelude.{◌≡◌, ℕ, List, Err, true, false};
ghost use Rattle.bq_base.specs.declared.fault.EvalFault.{EvalFault};
ghost use Rattle.bq_base.specs.declared.fault.EvalFault.TheVariants.{GlobEmpty};
ghost use Rattle.bq_value_datum.specs.Class.{Class};
ghost use Rattle.bq_value.specs.Cells.{StoreView};
ghost use Rattle.bq_builtin_machine.specs.Args.{Passed};
ghost use Rattle.bq_builtin_machine.specs.State.{State};
ghost use Rattle.bq_package_target.specs.Calls.{exported};
ghost use Rattle.bq_predeclared.specs.declared.host_function.HostFunction.TheVariants as f;
ghost use Rattle.bq_package.specs.declared.glob.GlobRequest.{GlobRequest};
ghost use Rattle.bq_package.specs.Calls.{Declaring, declaring, call_in, rule_by};
ghost use Rattle.bq_package.specs.Files.{files_named};
ghost use Rattle.bq_package.specs.Glob.{found, globbed};
ghost use Rattle.bq_package.specs.Groups.{group_named};
ghost use Rattle.bq_package.specs.Place.{PlaceView};
ghost use Rattle.bq_package.specs.Rules.{rule_target};
ghost use Rattle.bq_builtin_machine.specs.Refusals.{IsRefusedForFirst, FailsForFirst};
ghost use Rattle.bq_eval_laws.specs.BuildFunctions.Defaults.{DefaultsAreTakenAsValues};
ghost use Rattle.bq_eval_laws.specs.BuildFunctions.Nothing.{GivesNothing};
ghost use Rattle.bq_eval_laws.specs.BuildFunctions.Orders.{then_taken, adding, bzl_target, globbing, naming_files};

/// `glob` and `exports_files` are refused for the first of the reasons that are listed, and for nothing else.
pub fn build_functions_are_refused_in_order()
    ensures glob { (p : PlaceView) (store : StoreView) (passed : Passed) → FailsForFirst (globbed p store passed) (globbing p store passed) }
    ensures exports_files { (p : PlaceView) (store : StoreView) (passed : Passed) → FailsForFirst (files_named p store passed) (naming_files p store passed) }
{}

/// A call that declares targets is refused for its arguments before a name that is taken (F74), also of a rule that a .bzl file
/// declares.
pub fn declarations_are_refused_in_order()
    ensures rule { (d : Declaring) (s : State) (rule : ℕ) (passed : Passed) → IsRefusedForFirst (call_in d s (f.Rule rule) passed) (adding d (rule_target d.place s.store s.line rule passed)) }
    ensures declared_rule { (d : Declaring) (s : State) (rule : List ℕ) (class : Class) (passed : Passed) → IsRefusedForFirst (rule_by s (declaring d) rule class passed) (adding d (bzl_target d s rule class passed)) }
    ensures package_group { (d : Declaring) (s : State) (passed : Passed) → IsRefusedForFirst (call_in d s f.PackageGroup passed) (adding d (group_named d.place s.store s.line passed)) }
    ensures exports_files { (d : Declaring) (s : State) (passed : Passed) → IsRefusedForFirst (call_in d s f.ExportsFiles passed) (then_taken (files_named d.place s.store passed) (λ ls. exported d.package ls s.line)) }
{}

/// If its result may not be empty, a call of `glob` is F76 exactly if one of its patterns alone matches no file of the
/// package, or no name is left of all. If it may be empty, no call is F76.
pub fn globs_that_give_nothing_are_refused()
    ensures refused { (p : PlaceView) (r : GlobRequest) → r.allows_empty ≡ false → GivesNothing p r → found p r ≡ Err GlobEmpty }
    ensures only { (p : PlaceView) (r : GlobRequest) (why : EvalFault) → found p r ≡ Err why → (why ≡ GlobEmpty) × (r.allows_empty ≡ false) × GivesNothing p r }
{}

/// What `attr.NAME(default = v)` keeps is what the call of a rule in a file of that package keeps of `v`; and one is
/// refused if the other is.
pub fn defaults_are_taken_as_values()
    ensures { DefaultsAreTakenAsValues }
{}
