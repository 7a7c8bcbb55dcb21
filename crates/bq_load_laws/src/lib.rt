//! Laws of loading, by the definitions of `bq_load`, `bq_load_discover` and `bq_load_front`, and of lines, which are
//! counted from 1.
//!
//! In: nothing; the functions do nothing, and their contracts are the laws. The promise, by subject:
//!
//! - `line`: each token, statement, load and fault of a text has a line of at least 1, whether the fault is of its
//!   tokens, of its statements or of its names (`specs/Lines.antt`). All lines that the lexer keeps are at least 1 from
//!   its first state on (`proofs/Tokens.antt`); no piece of a file is empty, so its first line is a token's
//!   (`proofs/Pieces.antt`); a tree writes its tokens (bq_parse_laws), so by induction on what is written each name in
//!   it has the line of a token (`proofs/Names/Parts.antt`, `proofs/Names/Written.antt`);
//! - `graph`: a load is refused for the first of the reasons that are listed (`specs/Graphs/Orders.antt`); and in the
//!   load graph a file with a fault of its own, or with a bad load, loads nothing;
//! - `outcome`: a module fails for the first of the reasons that are listed (`specs/Outcomes/Orders.antt`), and so does
//!   a symbol that it loads; a fault of a load names the line of the first load of that file, and there is one; a
//!   module exports what its own file binds; and what it printed stays;
//! - `package`: a module that was evaluated has a package exactly if it is a BUILD file, and then that of its own
//!   label. The file's statements declare its targets in turn, each in the line of its statement, and the others are
//!   source files: no operator, method or built-in function changes what a host keeps, nor the line of the statement
//!   that is running, and each call of a build function or of a rule adds targets in that line
//!   (`proofs/Packages/Lines.antt`, `proofs/Packages/Calls.antt`); so does whatever a statement means
//!   (`proofs/Packages/Keeping.antt`). What a BUILD file's module keeps of its globals and cells is seen by nobody,
//!   since nobody loads one (`proofs/Packages/Kept.antt`);
//! - `fault`: a module whose outcome is a fault fails in its tokens (F1 to F8), its statements (F10 to F13), its names
//!   (F20 to F24), its loads (F30 to F38, at the line of one of them), or its evaluation (F37, F40 to F60, F70 to F78),
//!   and never in line 0, as no target that a call declares is (`proofs/Faults/Texts.antt`,
//!   `proofs/Faults/Outcomes.antt`, `proofs/Faults/Numbered.antt`);
//! - `call`: a module whose loads all have values can call the functions of each module that loads lead to from it.
//!   What is loaded is a .bzl file, which stays as it was frozen (`proofs/Calls/Files.antt`); its value is what its
//!   file evaluates to (`proofs/Calls/Values.antt`); and a module that loads it can call what it could
//!   (`functions_stay_callable` of bq_eval_laws), and so on along the path (`proofs/Calls/Paths.antt`);
//! - `changed_reading`, `changed_evaluation`, `changed_outcome`: of a workspace that changed, what a file reads as depends
//!   on its own text, on which .bzl files there are, on the packages and on the names of the schema's rules; of all files an
//!   evaluation sees those of the modules that its loads reach; a module's value reaches the modules that loads lead to,
//!   and no other; of the paths of all files a BUILD file's evaluation sees what `glob` gives, which the names of the
//!   package's own files decide (`proofs/Globbed.antt`); and so a module comes to what it came to before, where these are
//!   what they were, with the names of the rules, the limit of steps and the packages. `bq_load_order` asks for just that.
#![tactic(auto)]

mod call;
mod changed_evaluation;
mod changed_outcome;
mod changed_reading;
mod fault;
mod graph;
mod line;
mod outcome;
mod package;

pub use call::functions_of_loads_are_callable;
pub use changed_evaluation::{evaluations_see_what_is_reached, values_reach_what_is_loaded};
pub use changed_outcome::{
    unchanged_modules_evaluate_alike, unchanged_modules_keep_their_outcomes,
};
pub use changed_reading::{files_are_there_by_paths, fronts_are_by_text};
pub use fault::{fault_lines_are_of_modules, faults_stand_on_lines, outcomes_fail_in_their_parts};
pub use graph::{faulty_files_load_nothing, loads_are_refused_in_order};
pub use line::{names_stand_on_lines, statements_stand_on_lines, tokens_stand_on_lines};
pub use outcome::{
    faults_of_loads_name_the_first_load, modules_export_their_own, modules_fail_in_order,
    prints_are_kept, symbols_are_refused_in_order,
};
pub use package::{
    files_make_their_packages, outcomes_have_their_packages, packages_declare_their_targets,
    what_build_files_keep_is_not_seen,
};
