//! What holds of formats. The functions do nothing: their contracts are the laws.

ghost use Rattle.std.specs.Prelude.{◌≡◌, ◌≤◌, ◌++◌, ◌∷◌, [], ℕ, List, length, Ok, Err};
ghost use Rattle.bq_base.specs.declared.fault.EvalFault.TheVariants.{Format};
ghost use Rattle.bq_value.specs.Cells.{StoreView};
ghost use Rattle.bq_value.specs.Datum.{Datum};
ghost use Rattle.bq_value_text.specs.Page.{max_text};
ghost use Rattle.bq_builtin_format.specs.Method.{formatted};
ghost use Rattle.bq_builtin_format.specs.Percent.{text_filled};
ghost use Rattle.bq_builtin_laws.specs.Formats.Doubled.{doubled};
ghost use Rattle.bq_builtin_laws.specs.Formats.Words.{Fills, MixesFields};

/// A format that `%` fills with some values is F59 with more of them. So no other number of values fills it.
#[tactic(auto, using(crate::proofs::Formats::Values::too_many))]
pub fn values_are_just_enough()
    ensures { (s : StoreView) (n : ℕ) (format : List ℕ) (values more : List Datum) (v : Datum) (text : List ℕ × ℕ) → Fills s n format values text → text_filled s n format (values ++ v ∷ more) ≡ Err Format }
{}

/// `%%` takes no value: a text with each percent sign written twice is a format that is filled without any value, and
/// makes the text.
#[tactic(auto, using(crate::proofs::Formats::Doubled::doubled_gives))]
pub fn doubled_percent_signs_give_the_text()
    ensures { (s : StoreView) (n : ℕ) (text : List ℕ) → length text ≤ max_text → text_filled s n (doubled text) [] ≡ Ok (text, n) }
{}

/// A format with a field without text and a field with a number is filled by no values.
pub fn fields_are_not_mixed()
    ensures { (s : StoreView) (n : ℕ) (format : List ℕ) (all : List Datum) (named : List (List ℕ × Datum)) (text : List ℕ × ℕ) → MixesFields format → ¬ (formatted s n format all named ≡ Ok text) }
{}
