//! The first line of facts.

ghost use Rattle.std.specs.Prelude.{◌≡◌, ◌++◌, ◌∷◌, OnOk};
ghost use Rattle.std.specs.List.{join_by};
ghost use Rattle.bq_package_values.specs.JsonParts.{comma, member_text};
ghost use Rattle.bq_facts.specs.Members.{further_members};
ghost use Rattle.bq_facts.specs.Header.{workspace_limits, further_limits, json_limits, origin_members, count_members, header_line};

use crate::json_text::next_key;
use crate::members::{next_number, next_string, open_with_number};
use crate::shared_text::SharedText;
use bq_base::{Bytes, Limits};
use std::alloc::{AllocError, Global};

/// The version of the format. It goes up when a reader of facts has to change.
const FORMAT: u64 = 2;

/// By which program facts are made.
#[derive(Drop)]
pub struct Origin {
    /// The version of the program.
    pub version: Bytes,
    /// The limits of the run.
    pub limits: Limits,
}

/// How many lines of each kind come after the first.
#[derive(Clone, Copy)]
pub struct Counts {
    pub targets: usize,
    pub modules: usize,
    pub faults: usize,
}

/// Begins the object of limits, with those of what a workspace has.
fn push_workspace_limits(text: &mut SharedText, limits: Limits) -> Result<(), AllocError>
    ensures { OnOk result (text.new ≡ text.old ++ (123 ∷ join_by member_text comma (workspace_limits limits))) }
{
    open_with_number(text, b"files", limits.files as u64)?;
    next_number(text, b"directories", limits.directories as u64)?;
    next_number(text, b"modules", limits.modules as u64)
}

/// Appends the other limits.
fn push_further_limits(text: &mut SharedText, limits: Limits) -> Result<(), AllocError>
    ensures { OnOk result (text.new ≡ text.old ++ further_members (further_limits limits)) }
{
    next_number(text, b"loads", limits.edges as u64)?;
    next_number(text, b"bytes", limits.bundle_bytes as u64)?;
    next_number(text, b"steps", limits.steps)
}

/// Appends limits as an object.
fn push_limits(text: &mut SharedText, limits: Limits) -> Result<(), AllocError>
    ensures { OnOk result (text.new ≡ text.old ++ json_limits limits) }
{
    push_workspace_limits(text, limits)?;
    push_further_limits(text, limits)?;
    text.push(b'}')?;
    Ok(())
}

/// Begins the object of the first line: the version of the format, and by which program the facts are made.
fn push_origin(alloc: Global, text: &mut SharedText, origin: &Origin) -> Result<(), AllocError>
    ensures { OnOk result (text.new ≡ text.old ++ (123 ∷ join_by member_text comma (origin_members origin.now))) }
{
    open_with_number(text, b"facts", FORMAT)?;
    next_string(alloc, text, b"version", origin.version.as_slice())?;
    next_key(text, b"limits")?;
    push_limits(text, origin.limits)
}

/// Appends how many lines of each kind there are.
fn push_counts(text: &mut SharedText, counts: Counts) -> Result<(), AllocError>
    ensures { OnOk result (text.new ≡ text.old ++ further_members (count_members counts)) }
{
    next_number(text, b"targets", counts.targets as u64)?;
    next_number(text, b"modules", counts.modules as u64)?;
    next_number(text, b"faults", counts.faults as u64)
}

/// Appends the first line: an object with the version of the format, that of the program, its limits, and how many lines of each kind
/// come after it.
pub fn push_header(
    alloc: Global,
    text: &mut SharedText,
    origin: &Origin,
    counts: Counts,
) -> Result<(), AllocError>
    ensures { OnOk result (text.new ≡ text.old ++ header_line origin.now counts) }
{
    push_origin(alloc, text, origin)?;
    push_counts(text, counts)?;
    text.push(b'}')?;
    text.end_line(alloc)?;
    Ok(())
}
