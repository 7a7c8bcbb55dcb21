//! Which paths a pattern matches.

ghost use Rattle.std.specs.Prelude.{◌≡◌, ◌≤◌, length};
ghost use Rattle.bq_label.specs.Paths.{is_slash};
ghost use Rattle.bq_label_glob.specs.Matching.{matches, takes, is_any_segments, fits_segment, segments_from};
ghost use Rattle.bq_label_glob.specs.Step.{StepIs};

use crate::segment::{fits_segment, segment_at, split_last};
use crate::step::{Retry, Step};

/// Returns the step at two places: `**` takes any segments, every other segment takes one that fits it.
fn segment_step(pattern: &[u8], p: usize, path: &[u8], t: usize) -> Step
    ensures { StepIs is_any_segments fits_segment (segments_from pattern.now) (segments_from path.now) p t result }
{
    let Some(wanted) = segment_at(pattern, p) else {
        return match segment_at(path, t) {
            None => Step::End,
            Some(_) => Step::Fail,
        };
    };
    if wanted == b"**".as_slice() {
        return Step::Many(p + wanted.len() + 1);
    }
    let Some(segment) = segment_at(path, t) else {
        return Step::Fail;
    };
    if !fits_segment(wanted, segment) {
        return Step::Fail;
    }
    Step::One(p + wanted.len() + 1, t + segment.len() + 1)
}

/// Returns whether a pattern matches the segments of a path from a place on. Of several `**` only the last is tried anew:
/// what an earlier one would take more, the last can take.
fn matches_from(pattern: &[u8], path: &[u8], at: usize) -> bool
    ensures { result ≡ takes is_any_segments fits_segment (segments_from pattern.now 0) (segments_from path.now at) }
{
    let mut p = 0;
    let mut t = at;
    let mut retry: Option<Retry> = None;
    'segments: loop {
        match segment_step(pattern, p, path, t) {
            Step::Many(next) => {
                p = next;
                retry = Some(Retry {
                    pattern: p,
                    text: t,
                });
                continue;
            }
            Step::One(next, after) => {
                p = next;
                t = after;
                continue;
            }
            Step::End => return true,
            Step::Fail => {}
        }
        let Some(last) = retry else {
            return false;
        };
        let Some(skipped) = segment_at(path, last.text) else {
            return false;
        };
        p = last.pattern;
        t = last.text + skipped.len() + 1;
        retry = Some(Retry {
            pattern: p,
            text: t,
        });
    }
}

/// Returns whether a pattern matches a path.
///
/// What follows the last `**` takes the end of the path, so it is tried at one place: with at most one `**` the time is
/// linear in the two lengths. A part between two `**` is tried at each segment after the part before it, until it fits.
/// So the segments that are compared are at most the product of the path's and those of the longest such part.
pub(crate) fn is_match(pattern: &[u8], path: &[u8]) -> bool
    ensures { result ≡ matches pattern.now path.now }
{
    let mut wanted = pattern;
    let mut rest = path;
    'ends: loop {
        let (more, last) = split_last(wanted);
        if last == b"**".as_slice() {
            return matches_from(wanted, rest, 0);
        }
        let (before, segment) = split_last(rest);
        if !fits_segment(last, segment) {
            return false;
        }
        let Some(more) = more else {
            return before.is_none();
        };
        let Some(before) = before else {
            return matches_from(more, b"", 1); // no segment of the path is left
        };
        wanted = more;
        rest = before;
    }
}
