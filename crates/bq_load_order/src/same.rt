//! Whether a module loads what it loaded.

ghost use Rattle.std.specs.Prelude.{◌≡◌, true};
ghost use Rattle.bq_load_order.specs.Again.{number_at, is_number, are_same};

/// Returns the number that a module had.
pub(crate) fn number_at(numbers: &[Option<u32>], m: u32) -> Option<u32>
    ensures { result ≡ number_at numbers.now m }
{
    match numbers.get(m as usize) {
        None => None,
        Some(number) => *number,
    }
}

fn is_number(number: Option<u32>, k: u32) -> bool
    ensures { result ≡ is_number number k }
{
    match number {
        None => false,
        Some(had) => had == k,
    }
}

/// Returns whether these loads are, in order, the modules that had these numbers. Only that `true` says so is promised.
#[tactic(auto, unfolding(crate::specs::Again::are_same))]
pub(crate) fn are_same(kept: &[Option<u32>], loads: &[u32], numbers: &[u32]) -> bool
    ensures { result ≡ true → are_same kept.now loads.now numbers.now ≡ true }
{
    let mut left = numbers;
    for l in loads {
        let Some((number, rest)) = left.split_first() else {
            return false;
        };
        if !is_number(number_at(kept, *l), *number) {
            return false;
        }
        left = rest;
    }
    left.is_empty()
}
