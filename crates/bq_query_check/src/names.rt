//! The names that lets bind.

ghost use Rattle.std.specs.Prelude.{◌≡◌, ◌++◌, [], ◌∷◌, false, bytes_eq, IfOk, MatchOption};
ghost use Rattle.std.specs.List.{list_any};
ghost use Rattle.bq_query_check.specs.FormulaOf.{IsInnermost};

use bq_base::Bytes;
use sqlite_items::Items;
use std::alloc::{AllocError, Global};

/// Shares the texts.
fn shared(alloc: Global, texts: &[Bytes]) -> Result<Items<Bytes>, AllocError>
    ensures { IfOk result (λ v. v ≡ texts.now) }
{
    let mut all = Items::new(alloc);
    for text in texts {
        all.push(text.share()?)?;
    }
    Ok(all)
}

/// Returns the names and one more.
pub fn with_name(alloc: Global, names: &[Bytes], last: &Bytes) -> Result<Items<Bytes>, AllocError>
    ensures { IfOk result (λ v. v ≡ names.now ++ last.now ∷ []) }
{
    let mut more = shared(alloc, names)?;
    more.push(last.share()?)?;
    Ok(more)
}

/// Returns the number of the innermost let that binds the name, if there is one.
pub fn innermost(names: &[Bytes], name: &[u8]) -> Option<usize>
    ensures { MatchOption result (list_any (bytes_eq name.now) names.now ≡ false) (λ at. IsInnermost names.now name.now at) }
{
    let mut at = names.len();
    while at > 0 {
        at -= 1;
        if names[at].as_slice() == name {
            return Some(at);
        }
    }
    None
}
