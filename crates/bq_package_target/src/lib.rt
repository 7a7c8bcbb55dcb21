//! What the accepted calls of a BUILD file declare comes in; a package and its targets go out. The packages of a
//! workspace, in the order of their repositories and paths, go into a list that knows this order.
//!
//! The promise: a refused call leaves the package as it was ([`PackageState::declare`], [`PackageState::export`]), and
//! [`PackageState::finish`] returns the targets that the accepted calls declare, in their order, and after them the
//! BUILD file and each file of the package that one of them names and none declares (`specs/Package.antt`). Whoever has
//! a [`PackageList`] knows that its packages ascend, none of them twice (`specs/PackageOrder.antt`), so that no call
//! which takes one has a condition.
//!
//! Every call takes time linear in what it declares, and the end a sort of the names; only texts of up to 22 bytes are
//! copied, and a long list that targets of the package have in common is there once.
//!
//! In reading order:
//!
//! - `value`: attributes with their values, and the types of the attributes of a rule;
//! - `attribute_list`: the attributes of a target, with many owners;
//! - `target`: what a target is, and which targets it names;
//! - `names`: the names that are taken;
//! - `shared_values`: long values that stand once, however many targets or defaults have them;
//! - `by_name`: the targets of a package in the order of their names;
//! - `package`: a package and its targets;
//! - `state`: the package of a BUILD file that is being evaluated;
//! - `declare`: the calls of rules and of `package_group`;
//! - `files`: the files that labels name and nothing declares;
//! - `finish`: exported files, and the package once its BUILD file is evaluated;
//! - `share`: shares of targets;
//! - `laws`, `target_laws`: what holds of every package, and of its targets: what they depend on, which source files they
//!   are, and which files may be exported;
//! - `package_list`: the packages of a workspace.
#![tactic(auto)]

mod attribute_list;
mod by_name;
mod declare;
mod files;
mod finish;
mod laws;
mod names;
mod package;
mod package_list;
mod share;
mod shared_values;
mod state;
mod target;
mod target_laws;
mod value;

pub use attribute_list::AttributeList;
pub use files::is_of;
pub use laws::{
    calls_come_first, calls_keep_their_order, distinct_names_are_accepted,
    each_generated_file_is_made,
};
pub use package::Package;
pub use package_list::PackageList;
pub use shared_values::KeptValues;
pub use state::{Declared, PackageState};
pub use target::{Target, TargetKind};
pub use target_laws::{
    build_files_come_first, exports_are_refused_for_taken_names, files_without_a_call_are_wanted,
    targets_depend_on_what_they_write,
};
pub use value::{GivenAttribute, attribute_type};
