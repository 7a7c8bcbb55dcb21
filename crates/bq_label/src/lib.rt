//! The files of a workspace come in; labels, packages and the owners of paths go out.
//!
//! The promise: a text reads as a label exactly where one of the forms of a label says so (`ReadsAs`, `specs/Label.antt`),
//! and a path's owner is the nearest package above it in its repository (`OwnerIs`, `specs/Packages.antt`).
//!
//! In reading order:
//!
//! - `path`: which texts are paths, target names and repository names;
//! - `package_id`, `label`: what a package and a label are;
//! - `split`, `read`: which label a text reads as in a package, and which package a text names;
//! - `print`, `order`: a label's full form, and the order of labels by it;
//! - `workspace`: the files, and which lists of files are valid;
//! - `repository`: the repository that a path lies in, and the path and the file that a label names;
//! - `packages`: the packages of a workspace, and the owner of a path;
//! - `laws`: what the definitions say together.
#![tactic(auto)]

mod label;
pub mod laws;
mod order;
mod package_id;
mod packages;
mod path;
mod print;
mod read;
mod repository;
mod split;
mod workspace;

pub use bq_base::Bytes;
pub use label::Label;
pub use package_id::PackageId;
pub use packages::{BuildFile, Packages};
pub use path::{is_path, is_repository, is_segment};
pub use print::{print_label, write_label};
pub use read::{read_label, read_package, read_shared_label};
pub use repository::{label_file, label_path};
pub use workspace::{File, PathErr, Workspace};
