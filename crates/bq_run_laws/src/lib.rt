//! Laws of answers and of runs, by the definitions of `bq_query`, `bq_query_target_graph`, `bq_run_report` and `bq_run`.
//!
//! In: nothing; the functions do nothing, and their contracts are the laws. The promise, by subject:
//!
//! - `query`: what the functions over edges stand for is said of targets and the labels that they have; `kind`, `filter`,
//!   `attr` and `labels` look at the kinds, the labels and the attributes of targets; a query fails for the first word of
//!   its text that names what isn't there, and for a package before a target in it; numbers are read in decimal digits;
//!   operators in a row are applied from left to right;
//! - `text`: kinds and values are written as in Bazel;
//! - `dangling_label`: the line of a label that names no target says where it is written: at the BUILD file of its
//!   package, in the line of the call that declares the target, with the label in its full form;
//! - `run`: a wrong bundle ends a run before anything else is read, then a wrong query, and then a wrong schema; what
//!   modules printed comes before the faults, none of which is in line 0; and with Q5 or Q6 the faults are written and no
//!   answer, with every other error nothing. A bundle has at most 2^30 bytes, and of its files no path is a directory of
//!   another. Facts are written of targets first, then of modules, then of faults.
#![tactic(auto)]

mod dangling_label;
mod query;
mod run;
mod text;

pub use dangling_label::dangling_labels_are_told_where_they_are_written;
pub use query::{
    a_missing_package_is_named_before_a_missing_target, chains_go_from_left_to_right,
    functions_go_along_edges, functions_look_at_targets, numbers_are_decimal,
    queries_fail_for_the_first_missing_word, words_are_in_the_order_of_the_text,
};
pub use run::{
    bundles_come_first, bundles_have_a_gibibyte_at_most, errors_write_no_answer,
    fault_lines_stand_on_lines, paths_are_apart, prints_come_first, queries_come_before_the_schema,
    targets_come_before_modules_and_faults, the_schema_comes_before_the_modules,
};
pub use text::{kinds_are_written_in_words, values_are_written_without_quotes};
