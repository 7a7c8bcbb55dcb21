//! Laws of the definition. The gate proves what a contract names, so each law is the contract of a function that does nothing.

ghost use Rattle.bq_load_front.specs.LabelLaws.{LoadsNameFiles};

use bq_label::laws::forms_of_a_label;

/// A load has a label exactly if its text names a .bzl file of the workspace by that label: the text begins with `//`,
/// `@` or `:` and reads as the label, the file is at the label's path in the label's own repository, and is in the
/// label's package and in none beneath.
pub fn loads_name_files()
    ensures { LoadsNameFiles }
{
    // PROOF: which texts read as which labels.
    forms_of_a_label();
}
