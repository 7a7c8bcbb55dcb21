//! What holds of names and slots. The function does nothing: its contract is the law.

ghost use Rattle.bq_resolve_scope.specs.Scope.{FileParts};
ghost use Rattle.bq_eval_spec.specs.Primitives.{Primitives};
ghost use Rattle.bq_eval_by_name.specs.ExpressionAgreement.{Context, LayersAgree, ExpressionsAgree, OutsideAgree};

/// Where calls mean the same, and the context of an expression says the same by names and by slots, a resolved
/// expression means by slots what the tree that it comes from means by names: for any number of layers that suffices,
/// for the number that is looked at, and outside all blocks.
pub fn names_and_slots_agree<S>()
    ensures layers { (m : Primitives S) (file : FileParts) (x : Context S file) → LayersAgree m file x.round x.surroundings x.call x.other }
    ensures expressions { (m : Primitives S) (file : FileParts) (x : Context S file) → ExpressionsAgree m file x.round x.surroundings x.call x.other }
    ensures outside { (m : Primitives S) (file : FileParts) (x : Context S file) → OutsideAgree m file x.round x.surroundings x.call x.other }
{}
