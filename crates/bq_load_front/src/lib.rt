//! A module of a workspace comes in, by its label; what its file is on its own goes out: what it resolves to and the
//! files that it loads, or the first fault of its text (F1 to F24) or of its loads (F30, F32, F37, F31).
//!
//! The promise: [`front_of`] returns exactly what its definition says of the file: its tokens, the trees of its
//! statements, what their names stand for, and then its loads in the order in which they are written.
//! `specs/Parsed.antt` says by the grammar, and by names, what the file of a module is; `specs/Reading.antt` has the
//! functions that read it ([`fronts_of_labels`]), `specs/Front.antt` what the resolver makes of it, by slots; they
//! agree ([`fronts_agree`]).
//!
//! The text of a load's label is read in the package of the file that has the load: [`load_label`] returns exactly the
//! label or the fault of its definition (`specs/NamedFile.antt`; Bazel, "Extension overview" on load statements, and
//! "Labels" on packages' boundaries), and a label that it returns is that of a file of its own repository, in a package
//! that owns it.
//!
//! In reading order:
//!
//! - `crossing`: labels whose path another package owns;
//! - `named_file`: the file that a load names;
//! - `label_laws`: what the definition of it says of labels and files;
//! - `inputs`: what files are read with: the files, the packages, and the names of the schema's rules;
//! - `resolved`: the text of a file to its resolved trees;
//! - `named_files`: the files that the loads of a file name;
//! - `front`: what the file of a label is on its own;
//! - `file_laws`: what that is, said of texts, statements and labels.
#![tactic(auto)]

mod crossing;
mod file_laws;
mod front;
mod inputs;
pub mod label_laws;
mod named_file;
mod named_files;
mod resolved;

pub use crossing::crosses;
pub use file_laws::{
    faults_of_files, files_of_texts, fronts_agree, fronts_of_labels, loaded_files, loads_of_files,
    resolved_files_of_texts,
};
pub use front::{Front, front_of, kind_of};
pub use inputs::Inputs;
pub use named_file::load_label;
pub use named_files::NamedFiles;
pub use resolved::resolved_file;
