//! Laws of what a file resolves to, by the definition of `bq_resolve_scope`, and words for its names without slots:
//! which rules of names and flow a file breaks, and what it loads.
//!
//! In: nothing; the functions do nothing, and their contracts are the laws. The promise: the fault of a file is the
//! first of the rules of names and flow that it breaks, and a file that resolves is the file that was written, form by
//! form. The sets of names in which uses are looked up hold just what is bound in a block, and every slot is below its
//! frame's count; in each function two uses share a slot exactly where they share name and block. No file that is
//! parsed is too deep to be resolved: what it fails with is never F11, and so, by its type, F20 to F24.
//!
//! By subject:
//!
//! - `names`: the rules of names and of flow. `specs/Binds.antt` says in words what binds a name; each step of the
//!   definition adds just that to the names (`Adds`, `proofs/Binds.antt`). `specs/Violations.antt` lists all that a
//!   file breaks, without slots and without an end at the first; `Finds` (`proofs/Finds.antt`) says of a walk that its
//!   fault is the first of a list. `specs/Resolution.antt` relates a tree to what it resolves to, a case for each form;
//!   `Makes` and `Gains` (`proofs/Makes.antt`) say of a walk that what it makes is so related, and which functions and
//!   loads it adds. `specs/Files.antt` says what a parsed file resolves to, `specs/Loads.antt` what a file loads.
//!   `specs/FrameSizes.antt` says, by a fold over resolved trees, how many slots a frame must have for the trees that
//!   run in it, and `Needs` (`proofs/Needs.antt`) of a walk that what it makes needs no more slots than the frame has
//!   after it; each rule has one such fact, made of those of its parts;
//! - `slot`: a use belongs to the innermost enclosing block whose set holds its name; the blocks of a function are its
//!   own and those of its comprehensions, each of which counts as another, also where two bind the same names.
//!   `specs/Slots/Uses.antt` lists the uses of a function in the order of its text, from the tree as it is parsed, by
//!   block and name alone, `specs/Slots/Slots.antt` the slots of the resolved function in the same order, and
//!   `specs/Slots/Sharing.antt` says what the two lists have to do with each other. The blocks of a function that were
//!   opened so far have their slots one after another (`Stacked`, `proofs/Slots/Opened.antt`), each walk of the
//!   resolver lists the slots of what it makes beside the uses of what it walks over (`Lists`,
//!   `proofs/Slots/Lists.antt`), and slots in stacked blocks are one only for one name of one block;
//! - `depth`: `proofs/Depths/Layers.antt` says how deep a tree is by its outermost layer, and `Calm`
//!   (`proofs/Depths/Calm.antt`) of a walk that its faults are of names.
#![tactic(auto)]

mod depth;
mod names;
mod slot;

pub use depth::no_file_is_too_deep;
pub use names::{
    blocks_hold_what_is_bound, every_slot_is_below, faults_are_first_violations,
    files_resolve_to_themselves, loads_and_globals_are_kept, rules_are_declared_in_bzl_files,
    what_is_bound_is_found,
};
pub use slot::slots_are_shared_by_name_and_block;
