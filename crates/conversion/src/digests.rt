//! What a row keeps of its key, so that a search passes over most rows without their bytes.
ghost use Rattle.std.specs.Prelude.{◌≡◌};
ghost use Rattle.conversion.specs.Digests.{digest};

use lent_bytes::memory::byte;

/// The length of a key, and its last three bytes.
pub(crate) fn digest(key: &[u8]) -> u64
    ensures { result ≡ digest key.now }
{
    let n = key.len();
    let last = byte(key, n.saturating_sub(1)) as u64;
    let second = byte(key, n.saturating_sub(2)) as u64;
    let third = byte(key, n.saturating_sub(3)) as u64;
    n as u64 + (1 << 16) * (last + (1 << 8) * (second + (1 << 8) * third))
}
