//! A package in its workspace, with the rules that its BUILD file may call.

use bq_label::Workspace;
use bq_package_schema::Schema;
use bq_package_values::PackageScope;

/// Where a BUILD file is evaluated.
#[derive(Clone, Copy)]
pub struct Place<'a> {
    pub workspace: &'a Workspace,
    /// The package among the others.
    pub scope: PackageScope<'a>,
    pub schema: &'a Schema,
}
