//! The parts of a text between separators.

ghost use Rattle.std.specs.Prelude.{◌≡◌, ◌<◌, ◌++◌, ◌∷◌, [], IfOk, IfSome, OnOk, Some, None, MatchOption, length, reverse};
ghost use Rattle.bq_builtin_strings.specs.Parts.{split, rsplit, partition, rpartition, cut_within, cut_last_within, cuts, count, join, replace, replace_cuts, interleave};

use bq_base::Bytes;
use memchr::memmem::{Finder, FinderRev};
use std::alloc::{AllocError, Global};

/// Returns what is before the first place that the finder finds, and what is after it.
#[tactic(auto, unfolding(crate::specs::Parts::partition))]
fn cut<'t>(finder: &Finder, len: usize, text: &'t [u8]) -> Option<(&'t [u8], &'t [u8])>
    requires { len ≡ length finder.now }
    ensures { MatchOption result (partition finder.now text.now ≡ None) (λ p. partition finder.now text.now ≡ Some (p.0.now, p.1.now)) }
{
    let at = finder.find(text)?;
    Some((&text[..at], &text[at + len..]))
}

/// Returns what is before the last place that the finder finds, and what is after it.
#[tactic(auto, unfolding(crate::specs::Parts::rpartition))]
fn cut_last<'t>(finder: &FinderRev, len: usize, text: &'t [u8]) -> Option<(&'t [u8], &'t [u8])>
    requires { len ≡ length finder.now }
    ensures { MatchOption result (rpartition finder.now text.now ≡ None) (λ p. rpartition finder.now text.now ≡ Some (p.0.now, p.1.now)) }
{
    let at = finder.rfind(text)?;
    Some((&text[..at], &text[at + len..]))
}

/// Cuts at the first place that the finder finds, if cuts are left.
#[tactic(auto, unfolding(crate::specs::Parts::cut_within))]
fn cut_within<'t>(
    finder: &Finder,
    len: usize,
    text: &'t [u8],
    left: usize,
) -> Option<(&'t [u8], &'t [u8])>
    requires { len ≡ length finder.now }
    ensures cut { MatchOption result (cut_within finder.now left text.now ≡ None) (λ p. cut_within finder.now left text.now ≡ Some (p.0.now, p.1.now)) }
    ensures some_left { IfSome result (λ _. 0 < left) }
{
    if left == 0 {
        return None;
    }
    cut(finder, len, text)
}

/// Cuts at the last place that the finder finds, if cuts are left.
#[tactic(auto, unfolding(crate::specs::Parts::cut_last_within))]
fn cut_last_within<'t>(
    finder: &FinderRev,
    len: usize,
    text: &'t [u8],
    left: usize,
) -> Option<(&'t [u8], &'t [u8])>
    requires { len ≡ length finder.now }
    ensures cut { MatchOption result (cut_last_within finder.now left text.now ≡ None) (λ p. cut_last_within finder.now left text.now ≡ Some (p.0.now, p.1.now)) }
    ensures some_left { IfSome result (λ _. 0 < left) }
{
    if left == 0 {
        return None;
    }
    cut_last(finder, len, text)
}

/// Returns what is before the first separator and what is after it, if the text has one.
pub fn partition<'t>(text: &'t [u8], separator: &[u8]) -> Option<(&'t [u8], &'t [u8])>
    ensures { MatchOption result (partition separator.now text.now ≡ None) (λ p. partition separator.now text.now ≡ Some (p.0.now, p.1.now)) }
{
    cut(&Finder::new(separator), separator.len(), text)
}

/// Returns what is before the last separator and what is after it, if the text has one.
pub fn rpartition<'t>(text: &'t [u8], separator: &[u8]) -> Option<(&'t [u8], &'t [u8])>
    ensures { MatchOption result (rpartition separator.now text.now ≡ None) (λ p. rpartition separator.now text.now ≡ Some (p.0.now, p.1.now)) }
{
    cut_last(&FinderRev::new(separator), separator.len(), text)
}

/// Appends a part.
fn push_part(alloc: Global, parts: &mut Vec<Bytes>, part: &[u8]) -> Result<(), AllocError>
    ensures { OnOk result (parts.new.items ≡ parts.old.items ++ part.now ∷ []) }
{
    parts.push(Bytes::from_slice(alloc, part)?)?;
    Ok(())
}

/// Appends the parts of the text, cut from the left at most `most` times.
fn push_parts(
    alloc: Global,
    parts: &mut Vec<Bytes>,
    finder: &Finder,
    len: usize,
    text: &[u8],
    most: usize,
) -> Result<(), AllocError>
    requires { len ≡ length finder.now }
    ensures { OnOk result (parts.new.items ≡ parts.old.items ++ split finder.now most text.now) }
{
    let mut rest = text;
    let mut left = most;
    'cuts: while let Some((before, after)) = cut_within(finder, len, rest, left) {
        push_part(alloc, parts, before)?;
        rest = after;
        left -= 1;
    }
    push_part(alloc, parts, rest)
}

/// Appends the parts of the text, cut from the right at most `most` times, the last part first.
fn push_last_parts(
    alloc: Global,
    parts: &mut Vec<Bytes>,
    finder: &FinderRev,
    len: usize,
    text: &[u8],
    most: usize,
) -> Result<(), AllocError>
    requires { len ≡ length finder.now }
    ensures { OnOk result (reverse parts.new.items ≡ rsplit finder.now most text.now ++ reverse parts.old.items) }
{
    let mut rest = text;
    let mut left = most;
    'cuts: while let Some((before, after)) = cut_last_within(finder, len, rest, left) {
        push_part(alloc, parts, after)?;
        rest = before;
        left -= 1;
    }
    push_part(alloc, parts, rest)?;
    Ok(())
}

/// Returns the parts of the text between separators, cut from the left at most `most` times.
pub fn split(
    alloc: Global,
    text: &[u8],
    separator: &[u8],
    most: usize,
) -> Result<Vec<Bytes>, AllocError>
    ensures { IfOk result (λ parts. parts.items ≡ split separator.now most text.now) }
{
    let finder = Finder::new(separator);
    let mut parts = Vec::new(alloc);
    push_parts(alloc, &mut parts, &finder, separator.len(), text, most)?;
    Ok(parts)
}

/// Returns the parts of the text between separators, cut from the right at most `most` times.
pub fn rsplit(
    alloc: Global,
    text: &[u8],
    separator: &[u8],
    most: usize,
) -> Result<Vec<Bytes>, AllocError>
    ensures { IfOk result (λ parts. parts.items ≡ rsplit separator.now most text.now) }
{
    let finder = FinderRev::new(separator);
    let mut parts = Vec::new(alloc);
    push_last_parts(alloc, &mut parts, &finder, separator.len(), text, most)?;
    parts.reverse();
    Ok(parts)
}

/// Returns how often the text can be cut at a separator, from the left and at most `most` times.
pub fn cuts(text: &[u8], separator: &[u8], most: usize) -> usize
    ensures { result ≡ cuts separator.now most text.now }
{
    let finder = Finder::new(separator);
    let mut rest = text;
    let mut left = most;
    'cuts: while let Some((_, after)) = cut_within(&finder, separator.len(), rest, left) {
        rest = after;
        left -= 1;
    }
    most - left
}

/// Returns how often the text has `sub`, without overlaps. It has an empty `sub` once more than it has bytes.
#[tactic(auto, unfolding(crate::specs::Parts::count))]
pub fn count(text: &[u8], sub: &[u8]) -> usize
    ensures { result ≡ count sub.now text.now }
{
    if sub.is_empty() {
        return text.len() + 1;
    }
    cuts(text, sub, text.len())
}

/// Returns the parts with the separator between each two.
pub fn join(alloc: Global, separator: &[u8], parts: &[Bytes]) -> Result<Vec<u8>, AllocError>
    ensures { IfOk result (λ text. text.items ≡ join separator.now parts.now) }
{
    let mut text = Vec::new(alloc);
    let [first, rest @ ..] = parts else {
        return Ok(text);
    };
    text.extend_from_slice(first.as_slice())?;
    for part in rest {
        text.extend_from_slice(separator)?;
        text.extend_from_slice(part.as_slice())?;
    }
    Ok(text)
}

/// Appends the text, with `new` in place of what the finder finds, at most `most` times.
fn push_replaced(
    made: &mut Vec<u8>,
    finder: &Finder,
    len: usize,
    text: &[u8],
    new: &[u8],
    most: usize,
) -> Result<(), AllocError>
    requires { len ≡ length finder.now }
    ensures { OnOk result (made.new.items ≡ made.old.items ++ replace_cuts finder.now new.now most text.now) }
{
    let mut rest = text;
    let mut left = most;
    'cuts: while let Some((before, after)) = cut_within(finder, len, rest, left) {
        made.extend_from_slice(before)?;
        made.extend_from_slice(new)?;
        rest = after;
        left -= 1;
    }
    made.extend_from_slice(rest)?;
    Ok(())
}

/// Returns the text with `new` in place of `old`, which isn't empty, at most `most` times.
fn replace_cuts(
    alloc: Global,
    text: &[u8],
    old: &[u8],
    new: &[u8],
    most: usize,
) -> Result<Vec<u8>, AllocError>
    ensures { IfOk result (λ made. made.items ≡ replace_cuts old.now new.now most text.now) }
{
    let finder = Finder::new(old);
    let mut made = Vec::new(alloc);
    push_replaced(&mut made, &finder, old.len(), text, new, most)?;
    Ok(made)
}

/// Returns the text with `new` before each byte and at its end, at most `most` times.
fn interleave(alloc: Global, text: &[u8], new: &[u8], most: usize) -> Result<Vec<u8>, AllocError>
    ensures { IfOk result (λ made. made.items ≡ interleave new.now most text.now) }
{
    let len = most.min(text.len());
    let front = &text[..len];
    let mut made = Vec::new(alloc);
    for byte in front {
        made.extend_from_slice(new)?;
        made.push(*byte)?;
    }
    made.extend_from_slice(&text[len..])?;
    if most <= text.len() {
        return Ok(made);
    }
    made.extend_from_slice(new)?;
    Ok(made)
}

/// Returns the text with `new` in place of `old` from the left, at most `most` times. An empty `old` is before each
/// byte and at the end.
#[tactic(auto, unfolding(crate::specs::Parts::replace))]
pub fn replace(
    alloc: Global,
    text: &[u8],
    old: &[u8],
    new: &[u8],
    most: usize,
) -> Result<Vec<u8>, AllocError>
    ensures { IfOk result (λ made. made.items ≡ replace old.now new.now most text.now) }
{
    if old.is_empty() {
        return interleave(alloc, text, new, most);
    }
    replace_cuts(alloc, text, old, new, most)
}
