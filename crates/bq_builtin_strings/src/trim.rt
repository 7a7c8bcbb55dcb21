//! What is removed from the ends of a text.

ghost use Rattle.std.specs.Prelude.{◌≡◌, ℕ, ◌<◌, ◌≤◌, ◌-◌, false, length, slice_index_or};
ghost use Rattle.std.specs.List.{prefix_len, suffix_len};
ghost use Rattle.bq_builtin_strings.specs.Trim.{is_among, lstrip, rstrip, strip, remove_prefix, remove_suffix};

use std::marker::Model;

/// The bytes that count as space.
pub const SPACES: &[u8] = b" \t\n\r\x0b\x0c";

/// A set of bytes. Contracts see which of the 256 it has.
#[derive(Drop)]
struct ByteSet {
    has: [bool; 256],
}

impl Model for ByteSet {
    ghost use Rattle.std.specs.Prelude.{List, Bool};

    ghost Value = { List Bool };

    ghost view = { λ s. s.has };
}

impl ByteSet {
    /// Makes the set of the bytes of `set`.
    fn of(set: &[u8]) -> ByteSet
        ensures { (b : ℕ) → b < 256 → slice_index_or result b false ≡ is_among set.now b }
    {
        let mut has = [false; 256];
        for byte in set {
            has[*byte as usize] = true;
        }
        ByteSet { has }
    }

    fn contains(&self, byte: u8) -> bool
        ensures { result ≡ slice_index_or self.now byte false }
    {
        self.has[byte as usize]
    }
}

/// Returns how many bytes of the set the text begins with.
fn run_len(text: &[u8], set: &[u8]) -> usize
    ensures len { result ≡ prefix_len (is_among set.now) text.now }
    ensures within { result ≤ length text.now }
{
    let among = ByteSet::of(set);
    let mut at = 0;
    while at < text.len() {
        if !among.contains(text[at]) {
            return at;
        }
        at += 1;
    }
    at
}

/// Returns the length of the text without the bytes of the set at its end.
fn len_without_run(text: &[u8], set: &[u8]) -> usize
    ensures len { result ≡ length text.now - suffix_len (is_among set.now) text.now }
    ensures within { result ≤ length text.now }
{
    let among = ByteSet::of(set);
    let mut len = text.len();
    while len > 0 {
        if !among.contains(text[len - 1]) {
            return len;
        }
        len -= 1;
    }
    len
}

/// Returns the text without the longest run of the set's bytes at its start.
#[tactic(auto, unfolding(crate::specs::Trim::lstrip))]
pub fn lstrip<'t>(text: &'t [u8], set: &[u8]) -> &'t [u8]
    ensures { result.now ≡ lstrip set.now text.now }
{
    &text[run_len(text, set)..]
}

/// Returns the text without the longest run of the set's bytes at its end.
#[tactic(auto, unfolding(crate::specs::Trim::rstrip))]
pub fn rstrip<'t>(text: &'t [u8], set: &[u8]) -> &'t [u8]
    ensures { result.now ≡ rstrip set.now text.now }
{
    &text[..len_without_run(text, set)]
}

/// Returns the text without the longest runs of the set's bytes at both ends.
pub fn strip<'t>(text: &'t [u8], set: &[u8]) -> &'t [u8]
    ensures { result.now ≡ strip set.now text.now }
{
    rstrip(lstrip(text, set), set)
}

/// Returns the text without `prefix`, if it begins with it.
pub fn remove_prefix<'t>(text: &'t [u8], prefix: &[u8]) -> &'t [u8]
    ensures { result.now ≡ remove_prefix prefix.now text.now }
{
    if text.starts_with(prefix) {
        &text[prefix.len()..]
    } else {
        text
    }
}

/// Returns the text without `suffix`, if it ends with it.
pub fn remove_suffix<'t>(text: &'t [u8], suffix: &[u8]) -> &'t [u8]
    ensures { result.now ≡ remove_suffix suffix.now text.now }
{
    if text.ends_with(suffix) {
        &text[..text.len() - suffix.len()]
    } else {
        text
    }
}
