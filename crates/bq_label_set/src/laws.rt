//! What holds of every set of labels. The functions do nothing: their contracts are the laws.

ghost use Rattle.bq_label_set.specs.Laws.{EachLabelOnce, TheLabelsAdded, NumbersStay, LabelsWithNumbers, ThoseThatDiffer};

/// No label is there twice.
pub fn each_label_once()
    ensures { EachLabelOnce }
{}

/// The labels of a set are those that were added to it.
pub fn the_labels_added()
    ensures { TheLabelsAdded }
{}

/// A label keeps its number when others are added.
pub fn numbers_stay()
    ensures { NumbersStay }
{}

/// A label of a set has as its number the place at which it is there, and no other label has a number.
pub fn labels_with_numbers()
    ensures { LabelsWithNumbers }
{}

/// Labels none of which comes twice are numbered in their order.
pub fn those_that_differ()
    ensures { ThoseThatDiffer }
{}
