//! What is between runs of space.

ghost use Rattle.std.specs.Prelude.{◌≡◌, ◌<◌, ◌++◌, IfOk, OnOk, IfSome, Some, None, MatchOption};
ghost use Rattle.bq_builtin_strings.specs.Trim.{lstrip, rstrip, spaces};
ghost use Rattle.bq_builtin_strings.specs.Word.{word_within, last_word_within, last_part, words, rwords};

use crate::class::ByteClass;
use bq_base::Bytes;
use std::alloc::{AllocError, Global};

/// Returns the text without the space that it begins with.
#[tactic(auto, unfolding(crate::specs::Trim::lstrip))]
fn after_space(text: &[u8]) -> &[u8]
    ensures { result.now ≡ lstrip spaces text.now }
{
    &text[ByteClass::Space.run_len(text)..]
}

/// Returns the text without the space at its end.
#[tactic(auto, unfolding(crate::specs::Trim::rstrip))]
fn before_space(text: &[u8]) -> &[u8]
    ensures { result.now ≡ rstrip spaces text.now }
{
    &text[..ByteClass::Space.len_without_run(text)]
}

/// Returns the word that the text begins with, and what is after it, if cuts are left.
#[tactic(auto, unfolding(crate::specs::Word::word_within))]
fn word_within(text: &[u8], left: usize) -> Option<(&[u8], &[u8])>
    ensures cut { MatchOption result (word_within left text.now ≡ None) (λ p. word_within left text.now ≡ Some (p.0.now, p.1.now)) }
    ensures some_left { IfSome result (λ _. 0 < left) }
{
    if left == 0 {
        return None;
    }
    if text.is_empty() {
        return None;
    }
    Some(text.split_at(ByteClass::NonSpace.run_len(text)))
}

/// Returns what is before the word at the end of the text, and the word, if cuts are left.
#[tactic(auto, unfolding(crate::specs::Word::last_word_within))]
fn last_word_within(text: &[u8], left: usize) -> Option<(&[u8], &[u8])>
    ensures cut { MatchOption result (last_word_within left text.now ≡ None) (λ p. last_word_within left text.now ≡ Some (p.0.now, p.1.now)) }
    ensures some_left { IfSome result (λ _. 0 < left) }
{
    if left == 0 {
        return None;
    }
    if text.is_empty() {
        return None;
    }
    Some(text.split_at(ByteClass::NonSpace.len_without_run(text)))
}

/// Appends what is left as a part, if it isn't empty.
fn push_part(alloc: Global, parts: &mut Vec<Bytes>, rest: &[u8]) -> Result<(), AllocError>
    ensures { OnOk result (parts.new.items ≡ parts.old.items ++ last_part rest.now) }
{
    if rest.is_empty() {
        return Ok(());
    }
    parts.push(Bytes::from_slice(alloc, rest)?)?;
    Ok(())
}

/// Returns the words of the text, cut from the left at most `most` times. What is left then is one more part, with the
/// space at its end.
pub fn words(alloc: Global, text: &[u8], most: usize) -> Result<Vec<Bytes>, AllocError>
    ensures { IfOk result (λ parts. parts.items ≡ words most text.now) }
{
    let mut parts = Vec::new(alloc);
    let mut rest = after_space(text);
    let mut left = most;
    'words: while let Some((word, after)) = word_within(rest, left) {
        parts.push(Bytes::from_slice(alloc, word)?)?;
        rest = after_space(after);
        left -= 1;
    }
    push_part(alloc, &mut parts, rest)?;
    Ok(parts)
}

/// Returns the words of the text, cut from the right at most `most` times. What is left then is one more part, with the
/// space at its start.
pub fn rwords(alloc: Global, text: &[u8], most: usize) -> Result<Vec<Bytes>, AllocError>
    ensures { IfOk result (λ parts. parts.items ≡ rwords most text.now) }
{
    let mut parts = Vec::new(alloc);
    let mut rest = before_space(text);
    let mut left = most;
    'words: while let Some((before, word)) = last_word_within(rest, left) {
        parts.push(Bytes::from_slice(alloc, word)?)?;
        rest = before_space(before);
        left -= 1;
    }
    push_part(alloc, &mut parts, rest)?;
    parts.reverse();
    Ok(parts)
}
