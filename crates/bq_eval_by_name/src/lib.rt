//! Laws of names: what an expression, a statement, a call and a file mean by names, the resolved ones mean by slots; and
//! what the evaluation of a file ends in by names, it ends in by slots on the machine of a program, beside any host.
//!
//! In: nothing; the functions do nothing, and their contracts are the laws. The promise: what the evaluator follows,
//! the meaning over frames of slots, is the one that the Starlark specification describes, over the tree as parsed,
//! where each use of a name belongs to the innermost block around it that binds the name: the same steps, faults,
//! prints and changes, in the same order, and the names of the block are then bound alike. Both are one definition
//! (bq_eval_spec) with two kinds of environments.
//!
//! By subject:
//!
//! - `expression_laws`: all forms of expressions; what calls mean is a parameter. `specs/Shows.antt` says
//!   when an environment and a frame say the same of the names in scope. A form means the same in two kinds of
//!   environments if the trees in it do (`proofs/Parts.antt`, `proofs/Turns.antt`, `proofs/Clauses.antt`), and each
//!   rule of the resolver is a walk that makes a tree of such parts (`proofs/Walks.antt`, `proofs/Resolved*.antt`). No
//!   two names of nested blocks share a slot (`proofs/Slots.antt`), so binding a name and filling its slot keep what
//!   both say (`proofs/Envs.antt`);
//! - `statement_laws`: assignments, unpacking, augmented assignments, branches, loops and what ends them,
//!   in the body of a function and in the lines of a file; what expressions mean is a parameter, or that of the law
//!   before. The proofs go the same way (`proofs/Targets.antt`, `proofs/Statements.antt`), for any relation between
//!   environments and frames that binding keeps: in a function the frame shows the environment (`Shows`), outside
//!   functions the file's globals do;
//! - `module_laws`: calls and files. `specs/Units.antt` says when modules by names and by slots are the
//!   same. No name loses its place as more names are bound (`proofs/Places.antt`), so the parameters have the first
//!   slots (`proofs/Parameters.antt`, `proofs/Entry.antt`). Calls agree by induction on how many functions may still
//!   become active (`proofs/Called.antt`). No two load clauses bind one name (`proofs/Fresh.antt`), so what loads bind
//!   is found by place (`proofs/Loads.antt`). A file is a walk that adds a function at each `def`
//!   (`proofs/Files.antt`). Each statement of a file runs once and binds its names, so all are bound where it ends
//!   (`specs/Ends.antt`, `proofs/GlobalsBound.antt`);
//! - `evaluation_laws`: how the evaluation of a file ends. `specs/Evaluation.antt` says it by names, as bq_eval says it by
//!   slots. A file binds each global once, so its values by names are those by slots, in their order
//!   (`proofs/Once.antt`, `proofs/Values.antt`). A frozen module is read by names as it is by slots
//!   (`proofs/Units.antt`), so the premises of `module_laws` hold of the program's primitives
//!   (`proofs/Evaluations.antt`, `proofs/Bound.antt`).
#![tactic(auto)]

mod evaluation_laws;
mod expression_laws;
mod module_laws;
mod statement_laws;

pub use evaluation_laws::{
    ended_globals_are_bound, evaluations_agree, frozen_modules_keep_their_globals,
    frozen_units_agree,
};
pub use expression_laws::names_and_slots_agree;
pub use module_laws::{calls_agree, entries_agree, globals_are_bound, modules_agree};
pub use statement_laws::{bodies_agree, lines_agree, statements_agree};
