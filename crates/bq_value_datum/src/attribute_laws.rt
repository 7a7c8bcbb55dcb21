//! What holds of the definitions. The functions do nothing: their contracts are the laws.

ghost use Rattle.bq_value_datum.specs.AttributeLaws.{SameAttributesAreEqual};

/// Two attributes are the same exactly where they are equal.
pub fn same_attributes_are_equal()
    ensures { SameAttributesAreEqual }
{}
