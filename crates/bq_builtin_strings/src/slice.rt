//! The places of a slice (Starlark, "Slice expressions").

ghost use Rattle.std.specs.Prelude.{◌≡◌, ◌<◌, ◌^◌, pos, ◌≤ℤ◌};
ghost use Rattle.bq_builtin_strings.specs.Slice.{from_start, nearest, slice_start, slice_stop};

use bq_value::Range;

/// Returns the places that a slice of a list of `len` elements takes, in order, as a range. The step isn't 0.
pub fn slice_places(len: usize, start: Option<i64>, stop: Option<i64>, step: i64) -> Range
    requires { len < 2 ^ 63 }
    ensures start { result.start ≡ slice_start (pos len) step start }
    ensures stop { result.stop ≡ slice_stop (pos len) step stop }
    ensures step { result.step ≡ step }
{
    let len = len as i64;
    if step < 0 {
        Range {
            start: nearest(len, -1, len - 1, start, len - 1),
            stop: nearest(len, -1, len - 1, stop, -1),
            step,
        }
    } else {
        Range {
            start: nearest(len, 0, len, start, 0),
            stop: nearest(len, 0, len, stop, len),
            step,
        }
    }
}

/// Returns the number from `low` to `high` that is nearest to `index`, or `other` if there is no index.
fn nearest(len: i64, low: i64, high: i64, index: Option<i64>, other: i64) -> i64
    requires { pos 0 ≤ℤ len }
    ensures { result ≡ nearest len low high index other }
{
    match index {
        None => other,
        Some(index) => from_start(len, index).max(low).min(high),
    }
}

/// Returns an index that counts from the start.
fn from_start(len: i64, index: i64) -> i64
    requires { pos 0 ≤ℤ len }
    ensures { result ≡ from_start len index }
{
    if index < 0 {
        return index + len;
    }
    index
}
