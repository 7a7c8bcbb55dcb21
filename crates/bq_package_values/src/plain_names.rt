//! Names that one pass over their bytes shows to be the package's own.

ghost use Rattle.std.specs.Prelude.{◌≡◌};
ghost use Rattle.std.specs.List.{list_all};
ghost use Rattle.bq_package_values.specs.PlainNames.{is_plain_byte, is_plain_name};

use bq_base::Bytes;
use bq_label::is_segment;

fn is_plain_byte(byte: u8) -> bool
    ensures { result ≡ is_plain_byte byte }
{
    (32..=126).contains(&byte) && byte != b':' && byte != b'\\' && byte != b'/' && byte != b'@'
}

fn are_plain_bytes(text: &[u8]) -> bool
    ensures { result ≡ list_all is_plain_byte text.now }
{
    text.iter().all(|byte| is_plain_byte(*byte))
}

/// Returns whether a text of up to 64 bytes is a name without a slash, and so reads as the package's own label of this name.
/// A list may repeat a longer text, which isn't to be read each time.
#[tactic(auto, unfolding(crate::specs::PlainNames::is_plain_name))]
pub(crate) fn is_plain_name(text: &[u8]) -> bool
    ensures { result ≡ is_plain_name text.now }
{
    text.len() <= 64 && are_plain_bytes(text) && is_segment(text)
}

pub(crate) fn are_plain_names(texts: &[Bytes]) -> bool
    ensures { result ≡ list_all is_plain_name texts.now }
{
    texts.iter().all(|text| is_plain_name(text.as_slice()))
}
