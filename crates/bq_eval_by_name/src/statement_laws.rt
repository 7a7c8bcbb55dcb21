//! What holds of names and slots in statements. The functions do nothing: their contracts are the laws.

ghost use Rattle.std.specs.Prelude.{[]};
ghost use Rattle.bq_resolve_scope.specs.Scope.{FileParts};
ghost use Rattle.bq_eval_spec.specs.Frame.{Frame};
ghost use Rattle.bq_eval_spec.specs.Primitives.{Primitives};
ghost use Rattle.bq_eval_spec.specs.Trees.{Eval};
ghost use Rattle.bq_eval_spec.specs.Names.{Env};
ghost use Rattle.bq_eval_by_name.specs.ExpressionAgreement.{Context};
ghost use Rattle.bq_eval_by_name.specs.StatementAgreement.{InFunction, EvalsAgree, StatementsAgree, BodiesAgree, GlobalsShow, LinesAgree};

/// Where expressions mean the same, a resolved statement of a function does by slots what the tree that it comes from does by names.
pub fn statements_agree<S>()
    ensures { (m : Primitives S) (file : FileParts) (x : InFunction S file) → StatementsAgree m file x.block x.rest x.eval x.other }
{}

/// The body of a function does the same by slots as by names, where calls mean the same and the context of the function
/// says the same.
pub fn bodies_agree<S>()
    ensures { (m : Primitives S) (file : FileParts) (x : Context S file) → BodiesAgree m file x.round x.surroundings x.call x.other }
{}

/// The small statements of a line outside functions do the same by slots as by names, where expressions mean the same there.
pub fn lines_agree<S>()
    ensures { (m : Primitives S) (file : FileParts) (eval : Eval S Env) (other : Eval S Frame) → EvalsAgree file [] (GlobalsShow file) eval other → LinesAgree m file eval other }
{}
