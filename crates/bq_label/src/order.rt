//! The order of labels: that of the bytes of their full forms.

ghost use Rattle.std.specs.Prelude.{◌≡◌, ◌==◌, false, slice_index_or};
ghost use Rattle.std.specs.List.{list_any};
ghost use Rattle.bq_label.specs.Label.{cmp_ended, cmp_names};

use crate::label::Label;
use std::cmp::Ordering;

/// Returns the byte at a place, or the one that ends the text.
fn byte_or(text: &[u8], at: usize, end: u8) -> u8
    ensures { result ≡ slice_index_or text.now at end }
{
    match text.get(at) {
        Some(byte) => *byte,
        None => end,
    }
}

/// Compares two texts that a byte follows which neither has.
#[tactic(auto, using(crate::proofs::FullForms::ended_at))]
fn cmp_ended(a: &[u8], b: &[u8], end: u8) -> Ordering
    requires plain_a { list_any (λ x. x == end) a.now ≡ false }
    requires plain_b { list_any (λ x. x == end) b.now ≡ false }
    ensures { result ≡ cmp_ended end a.now b.now }
{
    let shared = a.len().min(b.len());
    let by_front = a[..shared].cmp(&b[..shared]);
    by_front.then(byte_or(a, shared, end).cmp(&byte_or(b, shared, end)))
}

/// Compares `package:name` of two labels.
fn cmp_names(a: &Label, b: &Label) -> Ordering
    ensures { result ≡ cmp_names a.now b.now }
{
    let by_package = cmp_ended(a.package().as_slice(), b.package().as_slice(), b':');
    by_package.then(a.name().as_slice().cmp(b.name().as_slice()))
}

impl PartialEq for Label {
    ghost use Rattle.std.specs.Prelude.{nat_eq};
    ghost use Rattle.std.specs.Ordering.{on};
    ghost use Rattle.std.specs.Cmp.{partial_equiv_from_equiv};
    ghost use Rattle.std.specs.Cmp.Lexicographic.{pointwise, on_texts_equal};
    ghost use Rattle.bq_label.specs.Label.{full_form};

    ghost eq = { on full_form (pointwise nat_eq) };

    ghost laws = { partial_equiv_from_equiv (on_texts_equal full_form) };

    fn eq(&self, other: &Label) -> bool {
        self.cmp(other).is_eq()
    }
}

impl Eq for Label {
    ghost use Rattle.std.specs.Cmp.Lexicographic.{on_texts_equal};
    ghost use Rattle.bq_label.specs.Label.{full_form};

    ghost laws = { on_texts_equal full_form };
}

impl PartialOrd for Label {
    ghost use Rattle.std.specs.Prelude.{Some};
    ghost use Rattle.std.specs.Ordering.{nat_cmp};
    ghost use Rattle.std.specs.Cmp.{on_po};
    ghost use Rattle.std.specs.Cmp.Lexicographic.{slice_cmp, texts_po};
    ghost use Rattle.bq_label.specs.Label.{full_form};

    ghost partial_cmp = { λ x y. Some (slice_cmp nat_cmp (full_form x) (full_form y)) };

    ghost laws = { on_po full_form texts_po };

    fn partial_cmp(&self, other: &Label) -> Option<Ordering> {
        Some(self.cmp(other))
    }
}

impl Ord for Label {
    ghost use Rattle.std.specs.Prelude.{refl};
    ghost use Rattle.std.specs.Ordering.{nat_cmp, on};
    ghost use Rattle.std.specs.Cmp.Lexicographic.{slice_cmp, on_texts, texts_ties};
    ghost use Rattle.bq_label.specs.Label.{full_form};

    ghost cmp = { on full_form (slice_cmp nat_cmp) };

    ghost total = { on_texts full_form };

    ghost matches_partial_cmp = { λ x y. refl };

    ghost matches_eq = { λ x y. texts_ties (full_form x) (full_form y) };

    fn cmp(&self, other: &Label) -> Ordering {
        if self.repo().is_empty() {
            if other.repo().is_empty() {
                return cmp_names(self, other);
            }
            return Ordering::Less;
        }
        if other.repo().is_empty() {
            return Ordering::Greater;
        }
        let by_repo = cmp_ended(self.repo().as_slice(), other.repo().as_slice(), b'/');
        by_repo.then(cmp_names(self, other))
    }
}
