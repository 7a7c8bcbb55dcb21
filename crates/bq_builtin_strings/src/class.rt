//! Classes of bytes.

ghost use Rattle.std.specs.Prelude.{◌≡◌, ◌≤◌, ◌-◌, length};
ghost use Rattle.std.specs.List.{prefix_len, suffix_len};
ghost use Rattle.bq_builtin_strings.specs.Class.{has, is_space};

/// A class of bytes.
#[derive(Clone, Copy)]
pub enum ByteClass {
    Alphanumeric,
    Alphabetic,
    Digit,
    Lowercase,
    Uppercase,
    Space,
    NonSpace,
}

/// Returns whether a byte is a space, a tab, a newline, a carriage return, or has the number 11 or 12.
fn is_space(byte: u8) -> bool
    ensures { result ≡ is_space byte }
{
    matches!(byte, b' ' | b'\t' | b'\n' | b'\r' | 11 | 12)
}

impl ByteClass {
    /// Returns whether a byte is of this class.
    pub fn has(self, byte: u8) -> bool
        ensures { result ≡ has self byte }
    {
        match self {
            ByteClass::Alphanumeric => byte.is_ascii_alphanumeric(),
            ByteClass::Alphabetic => byte.is_ascii_alphabetic(),
            ByteClass::Digit => byte.is_ascii_digit(),
            ByteClass::Lowercase => byte.is_ascii_lowercase(),
            ByteClass::Uppercase => byte.is_ascii_uppercase(),
            ByteClass::Space => is_space(byte),
            ByteClass::NonSpace => !is_space(byte),
        }
    }

    /// Returns how many bytes of this class the text begins with.
    pub fn run_len(self, text: &[u8]) -> usize
        ensures len { result ≡ prefix_len (has self) text.now }
        ensures within { result ≤ length text.now }
    {
        let mut at = 0;
        while at < text.len() {
            if !self.has(text[at]) {
                return at;
            }
            at += 1;
        }
        at
    }

    /// Returns the length of the text without the bytes of this class at its end.
    pub fn len_without_run(self, text: &[u8]) -> usize
        ensures len { result ≡ length text.now - suffix_len (has self) text.now }
        ensures within { result ≤ length text.now }
    {
        let mut len = text.len();
        while len > 0 {
            if !self.has(text[len - 1]) {
                return len;
            }
            len -= 1;
        }
        len
    }
}
