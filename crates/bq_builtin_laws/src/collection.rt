//! What holds of lists and dicts that are changed. The functions do nothing: their contracts are the laws.

ghost use Rattle.std.specs.Prelude.{◌≡◌, ◌∷◌, [], ℕ, ℤ, List, map, Option, None, Some, Ok, Err};
ghost use Rattle.bq_base.specs.declared.fault.EvalFault.{EvalFault};
ghost use Rattle.bq_base.specs.declared.fault.EvalFault.TheVariants.{WrongType};
ghost use Rattle.bq_parse_grammar.specs.declared.tree.Operator.TheVariants as op;
ghost use Rattle.bq_value_datum.specs.Class.{Class};
ghost use Rattle.bq_value.specs.Datum.{Datum, cell};
ghost use Rattle.bq_value.specs.Pairs.{found};
ghost use Rattle.bq_builtin_machine.specs.Action.{stopped};
ghost use Rattle.bq_builtin_machine.specs.Args.{Passed};
ghost use Rattle.bq_builtin_machine.specs.State.{State, stop_at};
ghost use Rattle.bq_builtin_operators.specs.InPlace.{augment, set_index};
ghost use Rattle.bq_builtin_methods.specs.Arguments.{no_argument, one_argument, two_arguments, optional_argument, one_or_two};
ghost use Rattle.bq_builtin_laws.specs.Collections.DictCalls as dict;
ghost use Rattle.bq_builtin_methods.specs.Dict.{first_out, pair_tuple, with_default};
ghost use Rattle.bq_builtin_laws.specs.Collections.ListCalls as list;
ghost use Rattle.bq_builtin_machine.specs.Refusals.{IsRefusedForFirst};
ghost use Rattle.bq_builtin_laws.specs.Collections.Laws.{IsList, IsDict, IsRule, IsAddedInPlace, StaysTheSameList};
ghost use Rattle.bq_builtin_laws.specs.Collections.Looks.{Gets, OnlyLooks, FindsIndex, IsFirstIndex};
ghost use Rattle.bq_builtin_laws.specs.Collections.Orders.{appending, clearing, extending, inserting, popping, removing, setting_element, taking_out, taking_first, SetsDefaultInOrder, updating, setting_pair};

/// A wrong number of arguments (F52) comes before all that is wrong with the list or dict, or with the arguments.
#[tactic(auto, using(crate::proofs::Collections::Lists::no_append, crate::proofs::Collections::Lists::no_extend, crate::proofs::Collections::Lists::no_insert, crate::proofs::Collections::Lists::no_remove, crate::proofs::Collections::Lists::no_pop, crate::proofs::Collections::Lists::no_clear, crate::proofs::Collections::Dicts::no_pop, crate::proofs::Collections::Dicts::no_popitem, crate::proofs::Collections::Dicts::no_setdefault, crate::proofs::Collections::Dicts::no_clear))]
pub fn wrong_numbers_of_arguments_come_first()
    ensures append { (home number : ℕ) (args : List Datum) (why : EvalFault) (s : State) → one_argument args ≡ Err why → IsRefusedForFirst (list.append home number args s) (Some why ∷ []) }
    ensures extend { (home number : ℕ) (args : List Datum) (why : EvalFault) (s : State) → one_argument args ≡ Err why → IsRefusedForFirst (list.extend home number args s) (Some why ∷ []) }
    ensures insert { (home number : ℕ) (args : List Datum) (why : EvalFault) (s : State) → two_arguments args ≡ Err why → IsRefusedForFirst (list.insert_at home number args s) (Some why ∷ []) }
    ensures remove { (home number : ℕ) (args : List Datum) (why : EvalFault) (s : State) → one_argument args ≡ Err why → IsRefusedForFirst (list.remove_value home number args s) (Some why ∷ []) }
    ensures pop { (home number : ℕ) (args : List Datum) (why : EvalFault) (s : State) → optional_argument args ≡ Err why → IsRefusedForFirst (list.pop home number args s) (Some why ∷ []) }
    ensures clear { (home number : ℕ) (args : List Datum) (why : EvalFault) (s : State) → no_argument args ≡ Err why → IsRefusedForFirst (list.clear home number args s) (Some why ∷ []) }
    ensures dict_pop { (home number : ℕ) (args : List Datum) (why : EvalFault) (s : State) → one_or_two args ≡ Err why → IsRefusedForFirst (dict.pop home number args s) (Some why ∷ []) }
    ensures popitem { (home number : ℕ) (args : List Datum) (why : EvalFault) (s : State) → no_argument args ≡ Err why → IsRefusedForFirst (dict.popitem home number args s) (Some why ∷ []) }
    ensures setdefault { (home number : ℕ) (args : List Datum) (why : EvalFault) (s : State) → one_or_two args ≡ Err why → IsRefusedForFirst (dict.setdefault home number args s) (Some why ∷ []) }
    ensures dict_clear { (home number : ℕ) (args : List Datum) (why : EvalFault) (s : State) → no_argument args ≡ Err why → IsRefusedForFirst (dict.clear home number args s) (Some why ∷ []) }
{}

/// A method, or an assignment, refuses a list for the first of the reasons that are listed, and for nothing else.
#[tactic(auto, using(crate::proofs::Collections::Lists::append_refused, crate::proofs::Collections::Lists::clear_refused, crate::proofs::Collections::Lists::extend_refused, crate::proofs::Collections::Lists::insert_refused, crate::proofs::Collections::Lists::pop_refused, crate::proofs::Collections::Lists::remove_refused, crate::proofs::Collections::Lists::set_refused))]
pub fn lists_are_refused_in_order()
    ensures append { (home number : ℕ) (xs : List Datum) (v : Datum) (s : State) → IsList s home number xs → IsRefusedForFirst (list.append home number (v ∷ []) s) (appending s home number xs) }
    ensures clear { (home number : ℕ) (xs : List Datum) (s : State) → IsList s home number xs → IsRefusedForFirst (list.clear home number [] s) (clearing s home number) }
    ensures extend { (home number : ℕ) (xs : List Datum) (x : Datum) (s : State) → IsList s home number xs → IsRefusedForFirst (list.extend home number (x ∷ []) s) (extending s home number xs x) }
    ensures insert { (home number : ℕ) (xs : List Datum) (at v : Datum) (s : State) → IsList s home number xs → IsRefusedForFirst (list.insert_at home number (at ∷ v ∷ []) s) (inserting s home number xs at) }
    ensures pop { (home number : ℕ) (xs : List Datum) (at : Datum) (s : State) → IsList s home number xs → IsRefusedForFirst (list.pop home number (at ∷ []) s) (popping s home number xs at) }
    ensures remove { (home number : ℕ) (xs : List Datum) (v : Datum) (s : State) → IsList s home number xs → IsRefusedForFirst (list.remove_value home number (v ∷ []) s) (removing s home number v) }
    ensures set { (home number : ℕ) (xs : List Datum) (at v : Datum) (s : State) → IsList s home number xs → IsRefusedForFirst (set_index (cell home number) at v s) (setting_element s home number xs at v) }
{}

/// A method, or an assignment, refuses a dict for the first of the reasons that are listed, and for nothing else.
#[tactic(auto, using(crate::proofs::Collections::Dicts::clear_refused, crate::proofs::Collections::Dicts::pop_refused, crate::proofs::Collections::Dicts::pop_or_refused, crate::proofs::Collections::Dicts::popitem_refused, crate::proofs::Collections::Dicts::update_refused, crate::proofs::Collections::Dicts::set_refused))]
pub fn dicts_are_refused_in_order()
    ensures clear { (home number : ℕ) (ps : List (Datum × Datum)) (s : State) → IsDict s home number ps → IsRefusedForFirst (dict.clear home number [] s) (clearing s home number) }
    ensures pop { (home number : ℕ) (ps : List (Datum × Datum)) (k : Datum) (s : State) → IsDict s home number ps → IsRefusedForFirst (dict.pop home number (k ∷ []) s) (taking_out s home number ps k None) }
    ensures pop_or { (home number : ℕ) (ps : List (Datum × Datum)) (k d : Datum) (s : State) → IsDict s home number ps → IsRefusedForFirst (dict.pop home number (k ∷ d ∷ []) s) (taking_out s home number ps k (Some d)) }
    ensures popitem { (home number : ℕ) (ps : List (Datum × Datum)) (s : State) → IsDict s home number ps → IsRefusedForFirst (dict.popitem home number [] s) (taking_first s home number ps) }
    ensures setdefault { (home number : ℕ) (ps : List (Datum × Datum)) (args : List Datum) (s : State) → IsDict s home number ps → SetsDefaultInOrder home number ps args s }
    ensures update { (home number : ℕ) (args : Passed) (s : State) → IsRefusedForFirst (dict.update home number args s) (updating s home number args) }
    ensures set { (home number : ℕ) (ps : List (Datum × Datum)) (k v : Datum) (s : State) → IsDict s home number ps → IsRefusedForFirst (set_index (cell home number) k v s) (setting_pair s home number ps k v) }
{}

/// A rule is neither a list nor a dict: an assignment to an index or key of it, `+=` and `|=` fail because of its type
/// (F40), whether it is frozen or not.
pub fn rules_are_no_lists_and_no_dicts()
    ensures set { (home number : ℕ) (class : Class) (at v : Datum) (s : State) → IsRule s home number class → set_index (cell home number) at v s ≡ stopped (stop_at WrongType s) }
    ensures sum { (home number : ℕ) (class : Class) (b : Datum) (s : State) → IsRule s home number class → augment op.Add (cell home number) b s ≡ stopped (stop_at WrongType s) }
    ensures union { (home number : ℕ) (class : Class) (b : Datum) (s : State) → IsRule s home number class → augment op.BitOr (cell home number) b s ≡ stopped (stop_at WrongType s) }
{}

/// `a += b` keeps the list `a` the same list: it has the elements of `b` after its own, and no new list is made.
pub fn lists_stay_the_same_lists()
    ensures { (home number : ℕ) (xs more : List Datum) (answer : Datum) (s t : State) → IsAddedInPlace home number xs more answer s t → StaysTheSameList home number xs more answer s t }
{}

/// `popitem` returns the first of the dict's `items()`; the others stay, in their order.
#[tactic(auto, using(crate::proofs::Collections::Items::first_item))]
pub fn the_first_item_is_popped()
    ensures { (ps left : List (Datum × Datum)) (answer : Datum) → first_out ps ≡ Ok (answer, left) → map pair_tuple ps ≡ answer ∷ map pair_tuple left }
{}

/// `setdefault` of a key that is there changes nothing, and returns the key's value.
#[tactic(auto, using(crate::proofs::Collections::Items::value_stays))]
pub fn a_value_that_is_there_stays()
    ensures { (k d v : Datum) (ps : List (Datum × Datum)) → found k ps ≡ Some v → with_default k d ps ≡ Ok (v, ps) }
{}

/// `get` changes no list and no dict: it returns a value of the dict, or for a key that isn't there the value that was
/// given.
pub fn getting_changes_nothing()
    ensures { (ps : List (Datum × Datum)) (default : Option Datum) (answer : Datum) (s t : State) → Gets ps default answer s t → OnlyLooks ps default answer s t }
{}

/// `list.index(v, start, end)` returns a place of the whole list, from `start` on and before `end`: the element there
/// is equal to `v`, and none between `start` and it is.
pub fn indices_are_of_the_whole_list()
    ensures { (xs : List Datum) (v answer : Datum) (start end : Option ℤ) (s : State) → FindsIndex xs v start end answer s → IsFirstIndex xs v start end answer s }
{}
