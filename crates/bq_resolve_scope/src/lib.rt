//! Scopes: which binding each use of a name in a file stands for.
//!
//! The trees of `bq_parse_grammar` come in; what their blocks bind, and what a name among these blocks stands for, go out. Resolved files
//! (`file`) and the whole definition of what a file resolves to are here too; `bq_resolve` and the crates above it compute it.
//!
//! A resolved file holds the trees that were parsed: what each name refers to is written into them.
//!
//! The idea. A *block* is what binds names: a function, a comprehension, the file. Which names a block binds is known before any
//! use is looked at, since a name that is bound anywhere in a function or file is bound in all of it (`specs/Names.antt`). A use
//! belongs to the innermost enclosing block whose set holds the name, then to the file, then to what every file of its kind has
//! (`specs/Scope.antt`, `specs/Universe.antt`). A function and the comprehensions in it share one *frame*: each block's names take
//! the next slots when it opens, so a slot is one name of one block. A comprehension outside functions, in a default too, has a
//! frame of its own.
//!
//! `specs/Expressions.antt`, `Statements.antt` and `Files.antt` go along the tree in the order of the text, a case for each form
//! (`specs/Visit.antt` says what is carried along), so the first fault that they meet is the first in the text, and nothing but
//! the lines of the tree is needed to name it. `specs/Laws.antt` has the words of the laws.
//!
//! In reading order:
//!
//! - `file`, `loads`: resolved files, and their loads;
//! - `names`: sets of names;
//! - `binding`: what targets, clauses, statements, functions and files bind;
//! - `universe`: what every file of a kind has, and the namespaces `native` and `attr` of .bzl files;
//! - `scope`: what a name stands for;
//! - `laws`: what holds of scopes.
#![tactic(auto)]

mod binding;
mod file;
mod laws;
mod loads;
mod names;
mod scope;
mod universe;

pub use binding::{MAX_LAYERS, comprehension_names, function_names, global_names, loaded_names};
pub use file::{Def, FileLine, Formal, Function, Outside, ResolvedFile};
pub use laws::{
    blocks_have_slots_of_their_own, each_use_stands_for_one, files_resolve_by_hand,
    held_names_are_local, names_have_slots_of_their_own,
};
pub use loads::{LoadStmt, LoadedSymbol};
pub use names::Names;
pub use scope::{Block, FileNames, inside};
pub use universe::{Namespace, Universe};
