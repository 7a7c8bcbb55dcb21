//! What holds of the names of types. The functions do nothing: their contracts are the laws.

ghost use Rattle.bq_predeclared.specs.AttributeTypeLaws.{EachTypeIsNamed, NoOtherTypeIsNamed};

/// Each type is the one that its name means.
pub fn each_type_is_named()
    ensures { EachTypeIsNamed }
{}

/// No other name means it.
pub fn no_other_type_is_named()
    ensures { NoOtherTypeIsNamed }
{}
