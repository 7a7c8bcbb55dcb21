//! The text of a file to its resolved trees.

ghost use Rattle.bq_base.specs.Gives.{Gives};
ghost use Rattle.bq_base.specs.declared.fault.SourceErr.TheVariants.{Bad};
ghost use Rattle.bq_load_front.specs.Resolved.{resolved_file, itself};

use bq_base::{FaultKind, SourceErr};
use bq_parse::parse;
use bq_resolve::resolve;
use bq_resolve_scope::{ResolvedFile, Universe};
use bq_source_lexer::lex;
use std::alloc::Global;

/// Returns what a text resolves to as a file of this kind, or its first fault: of its tokens (F1 to F8), then of its
/// statements (F10 to F13), then of its names (F20 to F24). It takes time and memory in proportion to the text.
#[tactic(auto, using(crate::proofs::Tokens::lexes), unfolding(crate::specs::Resolved::resolved_file))]
pub fn resolved_file(
    alloc: Global,
    universe: &Universe,
    text: &[u8],
) -> Result<ResolvedFile, SourceErr<FaultKind>>
    ensures { Gives itself Bad result (resolved_file universe.now text.now) }
{
    let tokens = lex(alloc, text)?;
    let file = parse(alloc, &tokens, text, universe.kind())?;
    Ok(resolve(alloc, file, universe)?)
}
