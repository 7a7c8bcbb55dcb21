//! What holds of operators. The functions do nothing: their contracts are the laws.

ghost use Rattle.std.specs.Prelude.{◌≡◌, List, pos};
ghost use Rattle.bq_value.specs.Datum.{Datum, none, int};
ghost use Rattle.bq_builtin_operators.specs.Slicing.{sliced};
ghost use Rattle.bq_builtin_laws.specs.Operators.Comparisons.{OppositesDiffer};
ghost use Rattle.bq_builtin_laws.specs.Operators.Members.{KeysHaveValues, MembersAreEqualToAnElement};

/// Of `==` and `!=`, of `in` and `not in`, of `<` and `>=`, and of `<=` and `>` one is true where the other is false.
/// They fail with the same faults, and take the same steps.
pub fn opposite_comparisons_differ()
    ensures { OppositesDiffer }
{}

/// A value is in a list or tuple if it is equal to one of the elements, and isn't if it is equal to none.
pub fn members_are_equal_to_an_element()
    ensures { MembersAreEqualToAnElement }
{}

/// A value is in a dict if the dict has a value for it; if it isn't, an index of it is F44.
pub fn keys_in_a_dict_have_values()
    ensures { KeysHaveValues }
{}

/// A slice whose step is left out has the step 1: every element between its bounds, in their order.
pub fn steps_that_are_left_out_are_one()
    ensures { (xs : List Datum) (start stop : Datum) → sliced xs start stop none ≡ sliced xs start stop (int (pos 1)) }
{}
