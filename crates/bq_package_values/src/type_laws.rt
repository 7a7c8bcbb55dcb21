//! Laws of the definitions: each is the contract of a function that does nothing.

ghost use Rattle.bq_package_values.specs.TypeLaws.{EachTypeTakesItsValues, EachTypeRefusesOtherValues};

/// An attribute of each type takes exactly the values of its type: a boolean also 0 and 1, a list also a tuple, and of
/// labels and outputs those that stand for a target or file and stay inside their package.
pub fn each_type_takes_its_values()
    ensures { EachTypeTakesItsValues }
{}

/// It refuses each other value: F73 if it is of another type, then F78 or F75 if a text stands for nothing, then F37 if
/// a label crosses into another package.
pub fn each_type_refuses_other_values()
    ensures { EachTypeRefusesOtherValues }
{}
