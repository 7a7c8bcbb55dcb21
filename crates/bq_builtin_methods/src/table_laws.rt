//! Laws of the definitions: each is the contract of a function that does nothing.

ghost use Rattle.std.specs.Prelude.{◌≡◌, ℕ, List, Some, None, false};
ghost use Rattle.bq_value.specs.Datum.{Datum, string, cell};
ghost use Rattle.bq_value_datum.specs.Class.{Class};
ghost use Rattle.bq_value.specs.Cells.{HoldsRule};
ghost use Rattle.bq_builtin_methods.specs.Calling.{Calling};
ghost use Rattle.bq_builtin_machine.specs.State.{State};
ghost use Rattle.bq_builtin_methods.specs.declared.row.Parameters.TheVariants.{Positional};
ghost use Rattle.bq_builtin_methods.specs.Method.{Method};
ghost use Rattle.bq_builtin_methods.specs.Methods.{string_methods, list_methods, dict_methods};
ghost use Rattle.bq_builtin_methods.specs.TableLaws.{NamesItsMethods, string_method, list_method, dict_method, has_methods, OfEveryList, OfEveryDict, LacksMethod, TakesNoKeywords, TakesBetween};

/// No table has a name twice, and each method is found by its name.
pub fn tables_name_their_methods()
    ensures strings { NamesItsMethods string_methods }
    ensures lists { NamesItsMethods list_methods }
    ensures dicts { NamesItsMethods dict_methods }
{}

/// A method that the receiver's type lacks is F58, whatever the arguments are. Rules have none.
pub fn a_method_that_a_type_lacks()
    ensures strings { (name text : List ℕ) (s : State) → string_method name ≡ None → LacksMethod name s (string text) }
    ensures lists { (name : List ℕ) → list_method name ≡ None → OfEveryList (LacksMethod name) }
    ensures dicts { (name : List ℕ) → dict_method name ≡ None → OfEveryDict (LacksMethod name) }
    ensures rules { (name : List ℕ) (home number : ℕ) (class : Class) (s : State) → HoldsRule s.store home number class → LacksMethod name s (cell home number) }
    ensures others { (name : List ℕ) (receiver : Datum) (s : State) → has_methods receiver ≡ false → LacksMethod name s receiver }
{}

/// No method of lists takes an argument by name, and of dicts none but `update` (F52).
pub fn arguments_by_name()
    ensures lists { (name : List ℕ) (method : Method (ℕ × ℕ)) → list_method name ≡ Some method → OfEveryList (TakesNoKeywords name) }
    ensures dicts { (name : List ℕ) (fewest most : ℕ) (calling : ℕ × ℕ → Calling) → dict_method name ≡ Some (Positional fewest most, calling) → OfEveryDict (TakesNoKeywords name) }
{}

/// A method that takes between two numbers of arguments refuses fewer and more (F52), whatever they are, and whatever the
/// list or dict is.
pub fn other_numbers_of_arguments()
    ensures strings { (name text : List ℕ) (fewest most : ℕ) (calling : List ℕ → Calling) (s : State) → string_method name ≡ Some (Positional fewest most, calling) → TakesBetween fewest most name s (string text) }
    ensures lists { (name : List ℕ) (fewest most : ℕ) (calling : ℕ × ℕ → Calling) → list_method name ≡ Some (Positional fewest most, calling) → OfEveryList (TakesBetween fewest most name) }
    ensures dicts { (name : List ℕ) (fewest most : ℕ) (calling : ℕ × ℕ → Calling) → dict_method name ≡ Some (Positional fewest most, calling) → OfEveryDict (TakesBetween fewest most name) }
{}
