//! Which texts are paths, target names and repository names.

ghost use Rattle.std.specs.Prelude.{◌≡◌};
ghost use Rattle.std.specs.List.{list_all};
ghost use Rattle.bq_label.specs.Paths.{is_path_byte, is_segment, is_path, is_repository, is_repository_byte};

fn is_path_byte(byte: u8) -> bool
    ensures { result ≡ is_path_byte byte }
{
    (32..=126).contains(&byte) && byte != b':' && byte != b'\\'
}

fn are_path_bytes(text: &[u8]) -> bool
    ensures { result ≡ list_all is_path_byte text.now }
{
    text.iter().all(|byte| is_path_byte(*byte))
}

/// Returns whether a path may have this segment: it isn't empty, and neither `.` nor `..`.
pub fn is_segment(segment: &[u8]) -> bool
    ensures { result ≡ is_segment segment.now }
{
    !segment.is_empty() && segment != b".".as_slice() && segment != b"..".as_slice()
}

/// Returns whether a target, a rule or an output may have this name: segments of printable ASCII but for `:` and `\`,
/// joined by `/`, none of them empty, `.` or `..`. A file's path is valid by the same test.
#[tactic(auto, unfolding(crate::specs::Paths::is_path))]
pub fn is_path(text: &[u8]) -> bool
    ensures { result ≡ is_path text.now }
{
    are_path_bytes(text) && text.split(|byte| *byte == b'/').all(is_segment)
}

fn is_repository_byte(byte: u8) -> bool
    ensures { result ≡ is_repository_byte byte }
{
    matches!(byte, b'a'..=b'z' | b'A'..=b'Z' | b'0'..=b'9' | b'_' | b'-' | b'.' | b'+' | b'~')
}

/// Returns whether this is the name of a repository: letters, digits and `_ - . + ~`; it is empty for the main one.
#[tactic(auto, unfolding(crate::specs::Paths::is_repository))]
pub fn is_repository(text: &[u8]) -> bool
    ensures { result ≡ is_repository text.now }
{
    text.iter().all(|byte| is_repository_byte(*byte))
}
