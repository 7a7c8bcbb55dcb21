//! What is loaded.

use bq_label::Workspace;
use bq_package_schema::Schema;
use bq_value_datum::Seed;

/// A workspace with the schema of its rules, and what the dicts of its modules hash their keys by, on which no answer
/// depends.
#[derive(Clone, Copy)]
pub struct Sources<'a> {
    pub workspace: &'a Workspace,
    pub schema: &'a Schema,
    pub seed: Seed,
}
