//! The places of an index and of a slice (Starlark, "Index expressions", "Slice expressions").

ghost use Rattle.std.specs.Prelude.{◌≡◌, ◌≤◌, ◌<◌, IfOk};
ghost use Rattle.bq_builtin_strings.specs.Place.{clamped, bound, indexed};

use bq_base::EvalFault;

/// Returns the place that `index` means in a list of `len` elements, or its end: a negative one counts from the end,
/// and one past an end means that end.
pub fn clamp(len: usize, index: i64) -> usize
    ensures place { result ≡ clamped len index }
    ensures within { result ≤ len }
{
    if index < 0 {
        let back = index.unsigned_abs() as usize;
        len.saturating_sub(back)
    } else {
        len.min(index as usize)
    }
}

/// Returns where a slice of step 1 starts, and where it ends at most: from `start`, or the first element, to `end`, or
/// after the last one.
pub fn span(len: usize, start: Option<i64>, end: Option<i64>) -> (usize, usize)
    ensures start { result.0 ≡ bound len 0 start }
    ensures end { result.1 ≡ bound len len end }
    ensures start_within { result.0 ≤ len }
    ensures end_within { result.1 ≤ len }
{
    let from = match start {
        Some(index) => clamp(len, index),
        None => 0,
    };
    let to = match end {
        Some(index) => clamp(len, index),
        None => len,
    };
    (from, to)
}

/// Returns the place of an index; F43 if the list has no element there.
pub fn index(len: usize, index: i64) -> Result<usize, EvalFault>
    ensures place { result ≡ indexed len index }
    ensures within { IfOk result (λ at. at < len) }
{
    if index >= 0 {
        let at = index as usize;
        if at < len {
            return Ok(at);
        }
        return Err(EvalFault::Index);
    }
    let back = index.unsigned_abs() as usize;
    if back <= len {
        return Ok(len - back);
    }
    Err(EvalFault::Index)
}
