//! Laws of the meaning of programs, by the definition of `bq_eval_spec`; of the evaluation of files, by those of
//! `bq_eval`; of calls, by those of `bq_builtin_machine` and `bq_eval_spec`; and of packages: the calls of build
//! functions and of rules, by those of `bq_package` and `bq_package_attributes`, and BUILD files.
//!
//! In: nothing; the functions do nothing, and their contracts are the laws. The promise, by subject:
//!
//! - `meaning`: whatever names mean, no number of layers is part of what a program means; a call leaves the environment
//!   of the caller as it was; the parts of an expression, and the arguments of a call, are evaluated from left to
//!   right, and what decides is evaluated before what it chooses; a comprehension takes its elements, and the parts of
//!   a target their values, in order; each node takes its steps before all that; `break` and `continue` end a turn of
//!   the innermost loop and `return` the function, and what is after them isn't evaluated. By slots a function begins
//!   with a frame that holds its parameters alone, and a name that a file loads and binds too begins with the loaded
//!   value;
//! - `file_depth`: no tree of a file that is parsed and resolved is deeper than the layers that the meaning looks
//!   at (`specs/Fits.antt`, `specs/FileDepth.antt`);
//! - `soundness`: no such tree has what the language leaves out or what is where it may not be, whose meaning is
//!   `stuck`, nor a name that refers to nothing (`specs/Sound.antt`), and whatever the operations mean, no evaluation
//!   of such a file gets stuck (`specs/Stuck.antt`);
//! - `evaluation`: a file has a number of steps and an outcome of its own, which no limit changes, and a fault of it
//!   names the line of one of its statements; a cell of another module holds at a file's end what it held at its start;
//!   a rule holds the same attributes after each call; a module that loads another can call the functions that this one
//!   could. The laws hold beside each host whose calls don't depend on the steps that are left. The proofs: `Takes`
//!   (bq_builtin_laws) says of an action that it has a number of steps and an outcome of its own; so it is a relation
//!   that respects the rules of the language, and holds of files (`proofs/Evaluations/Files.antt`). `TakesInLine` says
//!   of all but the beginning of a top-level statement that it leaves the line, which a fault names
//!   (`proofs/Evaluations/Lines.antt`);
//! - `call`: arguments are F52 exactly where they don't fit, said of the call alone (`specs/Calls/Misfits.antt`); a
//!   parameter begins with its argument, else with its default (`specs/Calls/Parameters.antt`); F52 comes before F50,
//!   and F50 before F51; a function is active by its module and its place there, and at most 100 are;
//! - `unpacking`: as many targets take as many values;
//! - `build_function`: `glob` and `exports_files` are refused for the first of the reasons that are listed for them
//!   (`specs/BuildFunctions/Orders.antt`, as docs/BUILD_RULES.md has a table of them), a call that declares targets for
//!   its arguments before its names; a `glob` whose result may not be empty is refused exactly if one of its patterns
//!   matches no file, or no file is left; and a default of an attribute is kept as the call of a rule keeps such a
//!   value;
//! - `rule_call`: a call of a rule is refused for the form of its arguments, then for what is wrong with one of them,
//!   for its name before its value, and then for what is missing (`specs/RuleCalls/Orders.antt`); what has to be given
//!   is given by an argument that is not `None`;
//! - `build_file`: what `evaluation` says, of BUILD files: the calls of build functions and of rules are shown to be
//!   such that don't depend on the steps that are left (`proofs/BuildFiles/Calls.antt`).
//!
//! The proofs of the first three. `Respects` (`proofs/Respects.antt`) says that a relation between actions holds of
//! what the rules ask for, and of actions made of others if it holds of these; such a relation holds of each rule, and
//! so of expressions, statements, calls and files (`proofs/*Rules.antt`). A law is one such relation: the law of depth
//! is that two actions run alike. What a file resolves to has the form of the file as it is parsed: whatever is
//! measured of a tree node by node, apart from what its names refer to and which frames its comprehensions have, is the
//! same of the tree that it resolves to (`proofs/Measures.antt`, `proofs/Kept*.antt`), for each rule of the resolver is
//! a walk that keeps it (`proofs/Gives.antt`). The depth is such a measure (`proofs/Fitting.antt`; no parsed statement
//! is deeper than 913, bq_parse_laws), and so are the counts of what is left out and of what is misplaced
//! (`proofs/LeftOut.antt`, `proofs/Misplaced.antt`). In a parsed tree both are none (bq_parse_laws,
//! `proofs/Parsed*.antt`), and a tree in which nothing is counted and that is not too deep is sound
//! (`proofs/SoundTrees.antt`). A measure may count a name of a resolved tree that refers to nothing, since the resolver
//! writes none (`specs/Referents.antt`).
#![tactic(auto)]

mod build_file;
mod build_function;
mod call;
mod evaluation;
mod file_depth;
mod meaning;
mod rule_call;
mod soundness;
mod unpacking;

pub use build_file::{
    build_calls_look_at_no_steps, build_files_keep_rules, build_files_leave_other_modules,
    build_files_take_their_steps,
};
pub use build_function::{
    build_functions_are_refused_in_order, declarations_are_refused_in_order,
    defaults_are_taken_as_values, globs_that_give_nothing_are_refused,
};
pub use call::{
    a_bare_star_ends_the_positional_parameters, a_hundred_functions_are_active,
    arguments_come_before_activity, functions_are_active_by_module_and_place,
    functions_are_entered_in_order, misfits_are_refused, parameters_begin_with_their_arguments,
};
pub use evaluation::{
    calls_keep_rules, files_fail_at_their_statements, files_take_their_steps,
    functions_stay_callable, other_modules_stay,
};
pub use file_depth::{
    no_resolved_file_is_too_deep, what_fits_is_within, what_fits_needs_no_more_layers,
};
pub use meaning::{
    arguments_are_evaluated_from_left_to_right, break_and_continue_are_of_the_innermost_loop,
    comprehensions_take_elements_in_order, depth_changes_nothing, evaluation_is_from_left_to_right,
    expressions_bind_nothing, functions_begin_with_parameters, functions_give_what_they_return,
    names_and_literals_take_one_step, names_that_are_loaded_and_bound_begin_loaded,
    parts_of_targets_take_values_in_order, statements_run_until_one_ends_the_block,
    steps_come_first, targets_are_read_before_they_are_augmented, what_decides_is_evaluated_first,
};
pub use rule_call::{
    arguments_are_refused_in_order, calls_of_rules_are_refused_in_order,
    mandatory_attributes_are_given_by_the_call,
};
pub use soundness::{each_resolved_file_is_sound, resolved_files_do_not_get_stuck};
pub use unpacking::as_many_values_as_targets;
