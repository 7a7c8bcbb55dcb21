//! What holds of lists of checks. The functions do nothing: their contracts are the laws.

ghost use Rattle.std.specs.Prelude.{◌≡◌, ◌++◌, ◌∷◌, List, None, Some};
ghost use Rattle.std.specs.List.{AllByRecursion};
ghost use Rattle.bq_base.specs.declared.fault.EvalFault.{EvalFault};
ghost use Rattle.bq_builtin_machine.specs.Refusals.{Check, first_fault};

/// Checks find the fault of the first of them that finds one, whatever the later ones find, and no fault if none finds
/// one.
#[tactic(auto, using(crate::proofs::FirstFault::found, crate::proofs::FirstFault::none))]
pub fn the_first_fault_is_found()
    ensures found { (before after : List Check) (kind : EvalFault) → AllByRecursion (λ c. c ≡ None) before → first_fault (before ++ Some kind ∷ after) ≡ Some kind }
    ensures none { (checks : List Check) → AllByRecursion (λ c. c ≡ None) checks → first_fault checks ≡ None }
{}
