//! The lines of a whole text.

ghost use Rattle.std.specs.Prelude.{◌≡◌, ◌==◌, map, drop, IfOk, IfErr};
ghost use Rattle.std.specs.List.{slice_split};
ghost use Rattle.bq_base.specs.Gives.{Gives};
ghost use Rattle.bq_base.specs.declared.fault.SourceErr.TheVariants.{Bad, Memory};
ghost use Rattle.bq_package_schema.specs.Schema.{no_rules};
ghost use Rattle.bq_package_schema.specs.Reading.{lines, line_number, declared_by, schema_of};

use crate::draft::SchemaDraft;
use crate::line::line_of;
use crate::schema::Schema;
use bq_base::{Fault, FaultKind, SourceErr};
use std::alloc::{AllocError, Global};

/// Returns the lines of a text.
fn lines(alloc: Global, text: &[u8]) -> Result<Vec<&[u8]>, AllocError>
    ensures { IfOk result (λ v. map (λ l. l.now) v.items ≡ lines text.now) }
{
    text.split(|byte| *byte == b'\n').collect(alloc)
}

/// Returns the number of the line after `before` others.
fn line_number(before: usize) -> u32
    ensures { result ≡ line_number before }
{
    if before < u32::MAX as usize {
        before as u32 + 1
    } else {
        u32::MAX
    }
}

/// Returns the schema that the lines declare.
#[tactic(auto, unfolding(crate::specs::Reading::declared_by))]
pub(crate) fn read_lines(alloc: Global, lines: &[&[u8]]) -> Result<Schema, SourceErr<FaultKind>>
    ensures { Gives (λ s. s) Bad result (declared_by no_rules 0 (map (λ l. l.now) lines.now)) }
{
    let mut draft = SchemaDraft::empty(alloc);
    for (before, line) in lines.iter().enumerate() {
        let line = line_of(alloc, line)?;
        match draft.after(alloc, line)? {
            Some(next) => draft = next,
            None => {
                return Err(SourceErr::Bad(Fault::at(FaultKind::Schema, line_number(before))));
            }
        }
    }
    Ok(draft.finish(alloc)?)
}

/// Reads a text as a schema. A text that is none has fault F80 at its first bad line: one that declares nothing and is
/// neither blank nor a comment, an attribute before any rule, a name that comes twice, that is no identifier, that is
/// an attribute of all rules, or that is predeclared and would be a rule's. It takes time linear in the text.
#[tactic(auto, unfolding(crate::specs::Reading::schema_of))]
pub fn read_schema(alloc: Global, text: &[u8]) -> Result<Schema, SourceErr<FaultKind>>
    ensures { Gives (λ s. s) Bad result (schema_of text.now) }
{
    let lines = lines(alloc, text)?;
    read_lines(alloc, &lines)
}
