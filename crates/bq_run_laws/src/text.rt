//! How kinds of targets and values of attributes are written. The functions do nothing: their contracts are the laws.

ghost use Rattle.std.specs.Prelude.{List};
ghost use Rattle.bq_label.specs.Label.{LabelParts};
ghost use Rattle.bq_value_datum.specs.Class.{Class};
ghost use Rattle.bq_run_laws.specs.Texts.{DefaultsAreEmptyValues, KindsInWords, LabelsAsStrings, ListValues, ListsGoOn, SingleValues};

/// The kind of a target of `cc_library` is written `cc_library rule`; that of a file `source file` or `generated file`.
pub fn kinds_are_written_in_words()
    ensures { (class : Class) (rule : LabelParts) → KindsInWords class rule }
{}

/// A string is written as it is, an integer in decimal, a boolean as 1 or 0, a label with `//`, and a list as `[-O2, -g]`: with an element more
/// it goes on with a comma, a space and the element. Labels are written as strings of their full forms are, and outputs as labels. An attribute
/// without a value is written as the empty value of its type, and a label or an output without one not at all.
pub fn values_are_written_without_quotes()
    ensures single { SingleValues }
    ensures lists { ListValues }
    ensures longer { ListsGoOn }
    ensures labels { (l : LabelParts) (ls : List LabelParts) → LabelsAsStrings l ls }
    ensures blank { DefaultsAreEmptyValues }
{}
