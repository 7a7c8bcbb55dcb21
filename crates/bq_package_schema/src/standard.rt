//! The schema of a workspace without a file of its own.

ghost use Rattle.std.specs.Prelude.{◌≡◌, IfOk, IfErr};
ghost use Rattle.bq_base.specs.declared.fault.SourceErr.TheVariants.{Memory};
ghost use Rattle.bq_package_schema.specs.Standard.{standard_rules};

use crate::read::read_lines;
use crate::schema::Schema;
use bq_base::{FaultKind, SourceErr};
use std::alloc::Global;

/// Its lines: a part of Bazel's rules.
const STANDARD: [&[u8]; 20] = [
    b"rule filegroup",
    b"attr srcs label_list",
    b"attr data label_list",
    b"attr output_group string",
    b"rule genrule",
    b"attr srcs label_list",
    b"attr outs output_list mandatory",
    b"attr cmd string",
    b"attr cmd_bash string",
    b"attr cmd_bat string",
    b"attr cmd_ps string",
    b"attr output_to_bindir bool",
    b"attr executable bool",
    b"attr local bool",
    b"attr message string",
    b"attr tools label_list",
    b"rule alias",
    b"attr actual label mandatory",
    b"rule test_suite",
    b"attr tests label_list",
];

impl Schema {
    /// Returns the schema of a workspace without a file of its own. It can only fail by running out of memory.
    pub fn standard(alloc: Global) -> Result<Schema, SourceErr<FaultKind>>
        ensures rules { IfOk result (λ s. s ≡ standard_rules) }
        ensures refused { IfErr result (λ e. e ≡ Memory) }
    {
        read_lines(alloc, &STANDARD)
    }
}
