//! What holds of schemas. The functions do nothing: their contracts are the laws.

ghost use Rattle.bq_package_schema.specs.Laws.{FaultsNameTheFirstBadLine, EachLineHasAForm, NamesDiffer, AttributesAreOfARule};

/// A text that is no schema has lines that are one, and then a bad line, which its fault names.
pub fn faults_name_the_first_bad_line()
    ensures { FaultsNameTheFirstBadLine }
{}

/// Each line of a schema is of one of the forms.
pub fn each_line_has_a_form()
    ensures { EachLineHasAForm }
{}

/// No two rules of a schema have one name, nor have two attributes of a rule.
pub fn names_differ()
    ensures { NamesDiffer }
{}

/// Before any rule there is no attribute.
pub fn attributes_are_of_a_rule()
    ensures { AttributesAreOfARule }
{}
