//! When two parts of values are the same.

ghost use Rattle.std.specs.Prelude.{◌≡◌};
ghost use Rattle.bq_value_datum.specs.AttributeValue.{same_texts, same_label, same_labels};

use bq_label::{Bytes, Label};

pub(crate) fn are_same_texts(a: &[Bytes], b: &[Bytes]) -> bool
    ensures { result ≡ same_texts a.now b.now }
{
    a == b
}

pub(crate) fn is_same_label(a: &Label, b: &Label) -> bool
    ensures { result ≡ same_label a.now b.now }
{
    a.repo() == b.repo() && a.package() == b.package() && a.name() == b.name()
}

pub(crate) fn are_same_labels(a: &[Label], b: &[Label]) -> bool
    ensures { result ≡ same_labels a.now b.now }
{
    if a.len() != b.len() {
        return false;
    }
    for (i, label) in a.iter().enumerate() {
        if !is_same_label(label, &b[i]) {
            return false;
        }
    }
    true
}
