//! The products that keys are folded by.

ghost use Rattle.std.specs.Prelude.{◌≡◌, ◌+◌, ◌≤◌, length};
ghost use Rattle.bq_value_datum.specs.Folding as folding;

/// Returns the two halves of the 128 bits of a product, joined by xor.
pub(crate) fn folded_multiply(a: u64, b: u64) -> u64
    ensures { result ≡ folding.folded_multiply a b }
{
    let product = a as u128 * b as u128;
    (product & 0xFFFF_FFFF_FFFF_FFFF) as u64 ^ (product >> 64) as u64
}

/// Reads four bytes as a number, the lowest first.
fn read_u32(bytes: &[u8], at: usize) -> u64
    requires { at + 4 ≤ length bytes.now }
    ensures { result ≡ folding.read_u32 bytes.now at }
{
    u32::from_le_bytes([bytes[at], bytes[at + 1], bytes[at + 2], bytes[at + 3]]) as u64
}

/// Reads eight bytes as a number, the lowest first.
pub(crate) fn read_u64(bytes: &[u8], at: usize) -> u64
    requires { at + 8 ≤ length bytes.now }
    ensures { result ≡ folding.read_u64 bytes.now at }
{
    read_u32(bytes, at) | read_u32(bytes, at + 4) << 32
}

/// Reads up to eight bytes as one number, by reads that may overlap.
pub(crate) fn read_short(bytes: &[u8]) -> u64
    ensures { result ≡ folding.read_short bytes.now }
{
    let len = bytes.len();
    if len >= 4 {
        read_u32(bytes, 0) | read_u32(bytes, len - 4) << 32
    } else if len > 0 {
        bytes[0] as u64 | (bytes[len / 2] as u64) << 8 | (bytes[len - 1] as u64) << 16
    } else {
        0
    }
}
