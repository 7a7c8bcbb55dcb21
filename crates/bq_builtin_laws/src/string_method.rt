//! What holds of the methods of strings. The functions do nothing: their contracts are the laws.

ghost use Rattle.std.specs.Prelude.{◌≡◌, ◌∷◌, ◌++◌, [], ℕ, ℤ, pos, negsuc, List, Option, Ok, Err, true, false, Any, All, slice_get};
ghost use Rattle.std.specs.List.{AllByRecursion};
ghost use Rattle.bq_base.specs.declared.fault.EvalFault.TheVariants.{BadValue};
ghost use Rattle.bq_builtin_string_methods.specs.Affixes.{texts_of};
ghost use Rattle.bq_builtin_string_methods.specs.Argument.{bytes_in};
ghost use Rattle.bq_builtin_string_methods.specs.Cuts.{partition, words_of};
ghost use Rattle.bq_builtin_string_methods.specs.Searches.{search};
ghost use Rattle.bq_builtin_string_methods.specs.Strips.{strip};
ghost use Rattle.bq_builtin_string_methods.specs.declared.affixes.EndMethod.{EndMethod};
ghost use Rattle.bq_builtin_string_methods.specs.declared.cuts.Side.{Side};
ghost use Rattle.bq_builtin_string_methods.specs.declared.cuts.Side.TheVariants.{Left};
ghost use Rattle.bq_builtin_string_methods.specs.declared.searches.SearchMethod.TheVariants.{Find, Rfind, Index, Rindex};
ghost use Rattle.bq_builtin_string_methods.specs.declared.strips.StripMethod.TheVariants.{Strip, Lstrip, Rstrip, Removeprefix, Removesuffix};
ghost use Rattle.bq_value.specs.Datum.{Datum, int, string, tuple, data_of};
ghost use Rattle.bq_builtin_laws.specs.StringMethods.Affixes.{IsAnswered};
ghost use Rattle.bq_builtin_laws.specs.StringMethods.Parts.{AreThreeParts, BeginsWithoutSpace};
ghost use Rattle.bq_builtin_laws.specs.StringMethods.Regions.{Asks, IsFirstInRegion, IsLastInRegion, IsNotInRegion};
ghost use Rattle.bq_builtin_laws.specs.StringMethods.Stripped.{IsCutAtBothEnds, IsCutAtStart, IsCutAtEnd};

/// `startswith` and `endswith` of a tuple are true if they are for one of its strings, and false if they are for none.
#[tactic(auto, using(crate::proofs::StringMethods::Affixes::one_ends, crate::proofs::StringMethods::Affixes::none_ends))]
pub fn tuples_of_affixes_are_any()
    ensures one { (m : EndMethod) (text : List ℕ) (vs : List Datum) (texts : List (List ℕ)) → texts_of vs ≡ Ok texts → Any (λ t. IsAnswered m text (string t) true) texts → IsAnswered m text (tuple (data_of vs)) true }
    ensures none { (m : EndMethod) (text : List ℕ) (vs : List Datum) (texts : List (List ℕ)) → texts_of vs ≡ Ok texts → All (λ t. IsAnswered m text (string t) false) texts → IsAnswered m text (tuple (data_of vs)) false }
{}

/// The three parts of `partition` and `rpartition` are the text, with the separator in the middle. A text without the
/// separator is the first part of the one and the last part of the other.
#[tactic(auto, using(crate::proofs::StringMethods::Partitions::three_parts_are))]
pub fn three_parts_are_the_text()
    ensures { (side : Side) (separator text : List ℕ) (v : Datum) → partition side text (string separator ∷ []) ≡ Ok v → AreThreeParts separator text v side }
{}

/// Each part that `split` cuts at space begins with a byte that isn't space, and so does what is left when no cut is
/// left.
#[tactic(auto, using(crate::proofs::StringMethods::Words::parts_begin))]
pub fn parts_begin_without_space()
    ensures { (most : ℕ) (text : List ℕ) → AllByRecursion BeginsWithoutSpace (words_of Left most text) }
{}

/// `removeprefix` and `removesuffix` remove the affix once: what is left is the text beside it, also where that has the
/// affix again.
pub fn affixes_are_removed_once()
    ensures prefix { (affix text : List ℕ) → strip Removeprefix (affix ++ text) (string affix ∷ []) ≡ Ok text }
    ensures suffix { (text affix : List ℕ) → strip Removesuffix (text ++ affix) (string affix ∷ []) ≡ Ok text }
{}

/// `strip` leaves a part of the string as it is: what it cuts off at the two ends are bytes of the set, and what is
/// left neither begins nor ends with one. `lstrip` cuts at the start alone, and `rstrip` at the end.
#[tactic(auto, using(crate::proofs::StringMethods::Stripping::both_ends, crate::proofs::StringMethods::Stripping::the_start, crate::proofs::StringMethods::Stripping::the_end))]
pub fn stripped_strings_are_parts()
    ensures strip { (text set left : List ℕ) (vs : List Datum) → bytes_in (slice_get vs 0) ≡ Ok set → strip Strip text vs ≡ Ok left → IsCutAtBothEnds set text left }
    ensures lstrip { (text set left : List ℕ) (vs : List Datum) → bytes_in (slice_get vs 0) ≡ Ok set → strip Lstrip text vs ≡ Ok left → IsCutAtStart set text left }
    ensures rstrip { (text set left : List ℕ) (vs : List Datum) → bytes_in (slice_get vs 0) ≡ Ok set → strip Rstrip text vs ≡ Ok left → IsCutAtEnd set text left }
{}

/// The place that a search of a region returns is one of the whole string: what is looked for is there, inside the
/// region, and `find` and `index` return the first such place, `rfind` and `rindex` the last.
pub fn places_are_of_the_whole_string()
    ensures find { (sub text : List ℕ) (vs : List Datum) (start end : Option ℤ) (at : ℕ) → Asks vs sub start end → search Find text vs ≡ Ok (int (pos at)) → IsFirstInRegion sub text start end at }
    ensures rfind { (sub text : List ℕ) (vs : List Datum) (start end : Option ℤ) (at : ℕ) → Asks vs sub start end → search Rfind text vs ≡ Ok (int (pos at)) → IsLastInRegion sub text start end at }
    ensures index { (sub text : List ℕ) (vs : List Datum) (start end : Option ℤ) (at : ℕ) → Asks vs sub start end → search Index text vs ≡ Ok (int (pos at)) → IsFirstInRegion sub text start end at }
    ensures rindex { (sub text : List ℕ) (vs : List Datum) (start end : Option ℤ) (at : ℕ) → Asks vs sub start end → search Rindex text vs ≡ Ok (int (pos at)) → IsLastInRegion sub text start end at }
{}

/// Where a search returns -1, or is F57, what is looked for is nowhere in the region.
pub fn what_is_not_found_is_not_there()
    ensures find { (sub text : List ℕ) (vs : List Datum) (start end : Option ℤ) (k : ℕ) → Asks vs sub start end → search Find text vs ≡ Ok (int (negsuc k)) → IsNotInRegion sub text start end }
    ensures rfind { (sub text : List ℕ) (vs : List Datum) (start end : Option ℤ) (k : ℕ) → Asks vs sub start end → search Rfind text vs ≡ Ok (int (negsuc k)) → IsNotInRegion sub text start end }
    ensures index { (sub text : List ℕ) (vs : List Datum) (start end : Option ℤ) → Asks vs sub start end → search Index text vs ≡ Err BadValue → IsNotInRegion sub text start end }
    ensures rindex { (sub text : List ℕ) (vs : List Datum) (start end : Option ℤ) → Asks vs sub start end → search Rindex text vs ≡ Err BadValue → IsNotInRegion sub text start end }
{}
