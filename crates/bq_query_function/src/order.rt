//! The place of a text, or of a label, among the labels of the targets.

ghost use Rattle.std.specs.Prelude.{◌≡◌, ◌<◌, length, slice_index_or, [], None, is_some, IfSome, IfNone};
ghost use Rattle.std.specs.List.{find, flat_map};
ghost use Rattle.std.specs.Ordering.{nat_cmp};
ghost use Rattle.std.specs.Cmp.Lexicographic.{slice_cmp};
ghost use Rattle.bq_label.specs.Label.{full_form};
ghost use Rattle.bq_query_function.specs.Order.{texts_of, is_text, AreInOrder, IsPlaceOf};

use bq_label::Label;
use bq_package_target::Target;
use std::cmp::Ordering;

/// Compares parts, one after another, with a text.
fn cmp_parts(mut parts: &[&[u8]], mut text: &[u8]) -> Ordering
    ensures { result ≡ slice_cmp nat_cmp (flat_map (λ p. p.now) parts.entry.now) text.now }
{
    while let [part, more @ ..] = parts {
        if !text.starts_with(*part) {
            return (*part).cmp(text);
        }
        text = &text[part.len()..];
        parts = more;
    }
    if text.is_empty() {
        return Ordering::Equal;
    }
    Ordering::Less
}

/// Compares the label in full with a text. Nothing is written for it.
#[tactic(auto, unfolding(bq_label::specs::Label::full_form))]
fn cmp_text(label: &Label, text: &[u8]) -> Ordering
    ensures { result ≡ slice_cmp nat_cmp (full_form label.now) text.now }
{
    let package = label.package().as_slice();
    let name = label.name().as_slice();
    let repo = label.repo().as_slice();
    if repo.is_empty() {
        let parts: [&[u8]; 4] = [b"//", package, b":", name];
        return cmp_parts(&parts, text);
    }
    let parts: [&[u8]; 6] = [b"@", repo, b"//", package, b":", name];
    cmp_parts(&parts, text)
}

/// Returns how many targets there are before the text, by binary search.
pub fn place_of(targets: &[Target], text: &[u8]) -> usize
    requires { AreInOrder targets.now }
    ensures { IsPlaceOf (texts_of targets.now) text.now result }
{
    let mut low = 0;
    let mut high = targets.len();
    while low < high {
        let middle = low + (high - low) / 2;
        if cmp_text(&targets[middle].label, text).is_lt() {
            low = middle + 1;
        } else {
            high = middle;
        }
    }
    low
}

/// Returns the target with this label, by binary search.
pub fn target_of(targets: &[Target], label: &Label) -> Option<usize>
    requires { AreInOrder targets.now }
    ensures found { IfSome result (λ at. (at < length targets.now) × (slice_index_or (texts_of targets.now) at [] ≡ full_form label.now)) }
    ensures value { is_some result ≡ is_some (find (is_text (full_form label.now)) targets.now) }
    ensures none { IfNone result (find (is_text (full_form label.now)) targets.now ≡ None) }
{
    match targets.binary_search_by(|target| target.label.cmp(label)) {
        Ok(at) => Some(at),
        Err(_) => None,
    }
}
