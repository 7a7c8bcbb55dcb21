//! Where a text occurs in another.

ghost use Rattle.std.specs.Prelude.{◌≡◌, ◌+◌, ◌≤◌, IfSome, length};
ghost use Rattle.bq_builtin_strings.specs.Search.{find, rfind};

use memchr::memmem;

/// Returns the least place at which the text has `sub`: the number of bytes before it. An empty `sub` is at the start.
pub fn find(text: &[u8], sub: &[u8]) -> Option<usize>
    ensures place { result ≡ find sub.now text.now }
    ensures within { IfSome result (λ at. at + length sub.now ≤ length text.now) }
{
    memmem::find(text, sub)
}

/// Returns the greatest place at which the text has `sub`. An empty `sub` is at the end.
pub fn rfind(text: &[u8], sub: &[u8]) -> Option<usize>
    ensures place { result ≡ rfind sub.now text.now }
    ensures within { IfSome result (λ at. at + length sub.now ≤ length text.now) }
{
    memmem::rfind(text, sub)
}
