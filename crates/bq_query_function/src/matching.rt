//! The members of a set whose text has a match of a pattern.

ghost use Rattle.std.specs.Prelude.{◌≡◌, ◌&&◌, length, IfOk};
ghost use Rattle.bq_query_function.specs.Texts.{subject_text};
ghost use Rattle.bq_query_function.specs.Matching.{is_match, Keeps};

use crate::text::{Subject, write_subject};
use bq_package_target::Target;
use bq_query_pattern::{PatternMatcher, QueryPattern};
use std::alloc::{AllocError, Global};

/// Returns whether the pattern is found in the text of the target.
fn is_match(
    matcher: &mut PatternMatcher<'_>,
    subject: Subject<'_>,
    target: &Target,
    text: &mut Vec<u8>,
) -> Result<bool, AllocError>
    ensures found { IfOk result (λ b. b ≡ is_match matcher.old (subject_text subject.entry target.now)) }
    ensures same { matcher.new ≡ matcher.old }
{
    text.clear();
    if !write_subject(subject, target, text)? {
        return Ok(false);
    }
    Ok(matcher.is_match(text))
}

/// Returns whether a target is in the set, and the pattern is found in its text.
fn keeps(
    matcher: &mut PatternMatcher<'_>,
    subject: Subject<'_>,
    target: &Target,
    text: &mut Vec<u8>,
    is_member: bool,
) -> Result<bool, AllocError>
    ensures found { IfOk result (λ b. b ≡ (is_member && is_match matcher.old (subject_text subject.entry target.now))) }
    ensures same { matcher.new ≡ matcher.old }
{
    if !is_member {
        return Ok(false);
    }
    is_match(matcher, subject, target, text)
}

/// Returns the targets of a set whose text has a match of the matcher's pattern. The room for the texts is allocated
/// once.
fn matching_by(
    alloc: Global,
    matcher: &mut PatternMatcher<'_>,
    targets: &[Target],
    subject: Subject<'_>,
    x: &[bool],
) -> Result<Vec<bool>, AllocError>
    requires { length x.now ≡ length targets.now }
    ensures { IfOk result (λ r. Keeps (λ t. is_match matcher.old (subject_text subject.entry t)) targets.now x.now r.items) }
{
    let mut text = Vec::new(alloc);
    let mut found = Vec::with_capacity(alloc, targets.len())?;
    for at in 0..targets.len() {
        let kept = keeps(matcher, subject, &targets[at], &mut text, x[at])?;
        found.push(kept)?;
    }
    Ok(found)
}

/// Returns the targets of a set whose text has a match of the pattern, which is compiled for this set alone.
pub fn matching(
    alloc: Global,
    targets: &[Target],
    subject: Subject<'_>,
    pattern: &QueryPattern,
    x: &[bool],
) -> Result<Vec<bool>, AllocError>
    requires { length x.now ≡ length targets.now }
    ensures { IfOk result (λ r. Keeps (λ t. is_match pattern.now (subject_text subject.entry t)) targets.now x.now r.items) }
{
    let compiled = pattern.compiled(alloc)?;
    let mut matcher = compiled.matcher(alloc)?;
    matching_by(alloc, &mut matcher, targets, subject, x)
}
