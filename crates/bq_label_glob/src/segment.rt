//! The segments of patterns and paths.

ghost use Rattle.std.specs.Prelude.{◌≡◌, ◌+◌, ◌<◌, ◌≤◌, [], ◌∷◌, length, false, MatchOption, IfSome};
ghost use Rattle.std.specs.List.{list_any};
ghost use Rattle.bq_label_glob.specs.Matching.{fits_segment, segments_from, is_star};
ghost use Rattle.bq_label_glob.specs.Segment.{IsCutAtStar, IsAfterFirst, IsNowhere, IsCutAtLast};

use memchr::{memchr, memmem, memrchr};

/// Returns what a pattern has before its first star, and what it has after it, if it has one.
fn cut_at_star(pattern: &[u8]) -> Option<(&[u8], &[u8])>
    ensures { MatchOption result (list_any is_star pattern.now ≡ false) (λ p. IsCutAtStar pattern.now p.0.now p.1.now) }
{
    match memchr(b'*', pattern) {
        Some(at) => Some((&pattern[..at], &pattern[at + 1..])),
        None => None,
    }
}

/// Returns what a text has after the first place of a piece, if it has the piece.
fn after_first<'t>(piece: &[u8], text: &'t [u8]) -> Option<&'t [u8]>
    ensures { MatchOption result (IsNowhere piece.now text.now) (λ rest. IsAfterFirst piece.now text.now rest.now) }
{
    match memmem::find(text, piece) {
        Some(at) => Some(&text[at + piece.len()..]),
        None => None,
    }
}

/// Returns whether a segment of a path fits a segment of a pattern: `*` takes any bytes, every other byte itself.
///
/// Each piece between two stars takes the first place at which the text has it: what that leaves has every end of what
/// a later place would leave. So the time is linear in the two lengths.
pub(crate) fn fits_segment(pattern: &[u8], text: &[u8]) -> bool
    ensures { result ≡ fits_segment pattern.now text.now }
{
    let Some((first, rest_of_pattern)) = cut_at_star(pattern) else {
        return pattern == text;
    };
    if !text.starts_with(first) {
        return false;
    }
    let mut pieces = rest_of_pattern;
    let mut rest = &text[first.len()..];
    'pieces: while let Some((piece, more)) = cut_at_star(pieces) {
        let Some(after) = after_first(piece, rest) else {
            return false;
        };
        pieces = more;
        rest = after;
    }
    rest.ends_with(pieces)
}

/// Returns the segment that begins at a place of a path, if that isn't past the path's end.
pub(crate) fn segment_at(path: &[u8], at: usize) -> Option<&[u8]>
    ensures cut { MatchOption result (segments_from path.now at ≡ []) (λ s. segments_from path.now at ≡ s.now ∷ segments_from path.now (at + length s.now + 1)) }
    ensures room { IfSome result (λ s. at + length s.now ≤ length path.now) }
{
    if at > path.len() {
        return None;
    }
    let rest = &path[at..];
    let mut len = 0;
    while len < rest.len() && rest[len] != b'/' {
        len += 1;
    }
    Some(&rest[..len])
}

/// Returns the last segment of a path, after what the path has before the last slash, if it has one.
pub(crate) fn split_last(path: &[u8]) -> (Option<&[u8]>, &[u8])
    ensures cut { IsCutAtLast (λ before. before.now) result.0 path.now result.1.now }
    ensures less { IfSome result.0 (λ before. length before.now < length path.now) }
{
    match memrchr(b'/', path) {
        Some(at) => (Some(&path[..at]), &path[at + 1..]),
        None => (None, path),
    }
}
