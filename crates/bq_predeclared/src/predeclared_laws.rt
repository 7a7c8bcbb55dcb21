//! What holds of the tables. The functions do nothing: their contracts are the laws.

ghost use Rattle.bq_predeclared.specs.PredeclaredLaws.{EachAttrFunctionIsFound, EachNameIsFound, NoOtherAttrFunctionIsFound, NothingElseIsFound};

/// Each name is found as what has that name.
pub fn each_name_is_found()
    ensures { EachNameIsFound }
{}

/// What is found has that name.
pub fn nothing_else_is_found()
    ensures { NothingElseIsFound }
{}

/// Each function that makes attributes is found by the name of their type as `attr.NAME`.
pub fn each_attr_function_is_found()
    ensures { EachAttrFunctionIsFound }
{}

/// What is found so makes attributes of the type of that name: it isn't `rule`, and no function for the files that a rule makes.
pub fn no_other_attr_function_is_found()
    ensures { NoOtherAttrFunctionIsFound }
{}
