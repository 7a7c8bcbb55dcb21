//! The sets that lets bind, the outermost one first.

ghost use Rattle.std.specs.Prelude.{◌≡◌, ◌<◌, ◌++◌, ◌∷◌, [], length, slice_index_or, IfOk, OnOk};

use sqlite_items::Items;
use std::alloc::{AllocError, Global};

/// Binds one more set.
pub fn bind(bound: &mut Items<Items<bool>>, set: Vec<bool>) -> Result<(), AllocError>
    ensures { OnOk result (bound.new ≡ bound.old ++ set.items ∷ []) }
{
    bound.push(Items::from_vec(set))
}

/// Returns the set of this number.
pub fn set_bound(
    alloc: Global,
    bound: &[Items<bool>],
    number: usize,
) -> Result<Vec<bool>, AllocError>
    requires { number < length bound.now }
    ensures { IfOk result (λ r. r.items ≡ slice_index_or bound.now number []) }
{
    Vec::from_slice(alloc, bound[number].as_slice())
}
