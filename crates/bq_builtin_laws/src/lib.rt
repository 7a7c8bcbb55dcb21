//! Laws of built-in functions, operators, formats, and the methods of lists, dicts and strings.
//!
//! In: nothing; the functions do nothing, and their contracts are the laws. The promise: what each gives is said in
//! terms of elements, places, texts and arithmetic, and so is the order in which changes of lists and dicts are refused;
//! and no operator, method or built-in function depends on the steps that are left.
//!
//! By subject:
//!
//! - `function`, by the definition of `bq_builtin`: `reversed`, `sorted`, `list`, `tuple`, `any`, `all`, `range` and
//!   `print` have the results that the elements of their arguments decide, said by places and by arithmetic;
//! - `operator`, by the definition of `bq_builtin_operators`: of two opposite comparisons one is true where the other is
//!   false; what is in a list or tuple is equal to one of its elements; what is in a dict is what the dict has a value
//!   for; and a slice goes by 1 if its step is left out;
//! - `collection`, by the definitions of `bq_builtin_methods` and `bq_builtin_operators`: each method that changes a
//!   list or dict, and each assignment to an index or key, fails for the first of the reasons that are listed for it
//!   (`specs/Collections/Orders.antt`, as docs/LANGUAGE.md has a table of them); `+=` keeps a list the same list;
//!   `popitem` takes the first of a dict's items; what changes lists and dicts refuses a rule because of its type; `get`
//!   changes nothing; and `index` returns a place of the whole list;
//! - `format`, by the definition of `bq_builtin_format`: `%` takes exactly as many values as it is given, `%%` takes
//!   none, and a format for the method `format` doesn't have both fields without text and fields with a number;
//! - `string_method`, by the definitions of `bq_builtin_string_methods` and `bq_builtin_strings`: a tuple of
//!   affixes stands for one of them; the three parts of a partition are the text, wherever its separator is; no part of
//!   a text that is split at space begins with space, however few cuts are made; an affix is removed once; what strips
//!   a string leaves a part of it; and a search of a region returns a place in the whole string;
//! - `step`: each operator, method and built-in function takes its own number of steps, keeps what was printed, and changes no other module.
//!   `Takes` (`specs/Steps/Steps.antt`) says so of an action in a state. The proofs go from parts to wholes: it holds of one action after
//!   another (`proofs/Steps/Owning.antt`), of what a machine does (`Machine`), and of walks over values and texts (`Texts`, `Walks`), which
//!   are known to take steps of their own (`bq_value`); so it holds of each definition that consists of these, in the order of the
//!   crates that have them.
#![tactic(auto)]

mod collection;
mod format;
mod function;
mod operator;
mod step;
mod string_method;

pub use collection::{
    a_value_that_is_there_stays, dicts_are_refused_in_order, getting_changes_nothing,
    indices_are_of_the_whole_list, lists_are_refused_in_order, lists_stay_the_same_lists,
    rules_are_no_lists_and_no_dicts, the_first_item_is_popped,
    wrong_numbers_of_arguments_come_first,
};
pub use format::{
    doubled_percent_signs_give_the_text, fields_are_not_mixed, values_are_just_enough,
};
pub use function::{
    all_asks_for_every_element, any_asks_for_one_element, lists_and_tuples_have_the_elements,
    prints_have_the_separator_between, ranges_are_counted, reverse_turns_what_is_sorted,
    reversed_lists_go_backwards,
};
pub use operator::{
    keys_in_a_dict_have_values, members_are_equal_to_an_element, opposite_comparisons_differ,
    steps_that_are_left_out_are_one,
};
pub use step::{functions_take_their_steps, methods_take_their_steps, operators_take_their_steps};
pub use string_method::{
    affixes_are_removed_once, parts_begin_without_space, places_are_of_the_whole_string,
    stripped_strings_are_parts, three_parts_are_the_text, tuples_of_affixes_are_any,
    what_is_not_found_is_not_there,
};
