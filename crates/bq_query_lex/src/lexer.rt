//! The tokens of a whole query.
ghost use Rattle.std.specs.Prelude.{◌≡◌, Some, None, IfOk, IfErr};
ghost use Rattle.bq_query_lex.specs.Reading.{Reads};
ghost use Rattle.bq_query_lex.specs.declared.query_error.QueryErr.TheVariants.{Syntax};

use crate::lexis::{QueryPiece, piece_of};
use crate::query_error::QueryErr;
use crate::token::QueryToken;
use std::alloc::Global;

/// Returns the tokens of the text, or Q1 if a byte begins none. It takes time linear in the text.
pub fn lex_query(alloc: Global, text: &[u8]) -> Result<Vec<QueryToken>, QueryErr>
    ensures tokens { IfOk result (λ v. Reads text.now 0 (Some v.items)) }
    ensures refused { IfErr result (λ e. e ≡ Syntax → Reads text.now 0 None) }
{
    let mut tokens = Vec::new(alloc);
    let mut start = 0;
    'pieces: loop {
        match piece_of(&text[start..]) {
            QueryPiece::End => return Ok(tokens),
            QueryPiece::Blank => start += 1,
            QueryPiece::Found(kind, n) => {
                let end = start + n;
                tokens.push(QueryToken { kind, start, end })?;
                start = end;
            }
            QueryPiece::Unknown => return Err(QueryErr::Syntax),
        }
    }
}
