//! What holds of built-in functions. The functions do nothing: their contracts are the laws.

ghost use Rattle.bq_package_values.specs.BuiltInLaws.{EachIsWhatItIsCalled};

/// The value of a predeclared name calls what the name stands for, and prints that name.
pub fn each_is_what_it_is_called()
    ensures { EachIsWhatItIsCalled }
{
    bq_predeclared::each_name_is_found();
}
