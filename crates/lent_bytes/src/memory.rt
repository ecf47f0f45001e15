//! Parts of memory, and writes into it.
ghost use Rattle.std.specs.Prelude.{◌≡◌, length, take, slice_index};
ghost use Rattle.lent_bytes.specs.Memory.{portion, rest, written, padded};

/// The `n` bytes of `m` from `at` on, fewer where `m` ends before.
#[inline(always)]
pub fn part(m: &[u8], at: usize, n: usize) -> &[u8]
    ensures { result.now ≡ portion m.now at n }
{
    let from = at.min(m.len());
    let len = n.min(m.len() - from);
    &m[from..from + len]
}

/// All of `m` but its first `n` bytes.
pub fn after(m: &[u8], n: usize) -> &[u8]
    ensures { result.now ≡ rest m.now n }
{
    &m[n.min(m.len())..]
}

/// The byte of `m` at `i`, 0 past its end.
#[inline(always)]
pub fn byte(m: &[u8], i: usize) -> u8
    ensures { result ≡ slice_index m.now i }
{
    m.get(i).copied().unwrap_or(0)
}

/// Writes `s` into `m` from `at` on, as far as it fits.
pub fn write(m: &mut [u8], at: usize, s: &[u8])
    ensures { m.new ≡ written m.old at s.now }
{
    let from = at.min(m.len());
    let len = s.len().min(m.len() - from);
    m[from..from + len].copy_from_slice(&s[0..len]);
}

/// Zeros in all of `m` but its first `n` bytes.
pub fn clear_from(m: &mut [u8], n: usize)
    ensures { m.new ≡ padded (length m.old) (take n m.old) }
{
    let at = n.min(m.len());
    let end = m.len();
    m[at..end].fill(0);
}
