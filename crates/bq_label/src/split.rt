//! Cutting a text at a byte.

ghost use Rattle.std.specs.Prelude.{◌≡◌, Some, None, MatchOption};
ghost use Rattle.bq_label.specs.Label.{last_segment};
ghost use Rattle.bq_label.specs.Reading.{split_once};
ghost use Rattle.bq_label.specs.Packages.{directory_of};

/// Returns the text before the first such byte, and the text after it.
pub(crate) fn split_once(text: &[u8], byte: u8) -> Option<(&[u8], &[u8])>
    ensures { MatchOption result (split_once byte text.now ≡ None) (λ p. split_once byte text.now ≡ Some (p.0.now, p.1.now)) }
{
    match text.iter().position(|b| *b == byte) {
        Some(at) => Some((&text[..at], &text[at + 1..])),
        None => None,
    }
}

/// Returns the text after the last slash.
pub(crate) fn last_segment(path: &[u8]) -> &[u8]
    ensures { result.now ≡ last_segment path.now }
{
    let mut at = path.len();
    while at > 0 && path[at - 1] != b'/' {
        at -= 1;
    }
    &path[at..]
}

/// Returns the text before the last slash; nothing if there is none.
#[tactic(auto, unfolding(crate::specs::Packages::directory_of))]
pub(crate) fn directory_of(path: &[u8]) -> &[u8]
    ensures { result.now ≡ directory_of path.now }
{
    let name = last_segment(path);
    let len = path.len().saturating_sub(name.len()).saturating_sub(1);
    &path[..len]
}
