//! An arena that is cleared behind its span: where it is clear already it is only read, which takes less time than to
//! write it.
ghost use Rattle.std.specs.Prelude.{◌≡◌, length, max, take};
ghost use Rattle.std.specs.List.{fold};
ghost use Rattle.lent_bytes.specs.Memory.{padded};

use lent_bytes::memory::clear_from;

/// How many bytes are cleared with no look at them: those that a larger span may have left before, in the same arena.
const CLEARED: usize = 4096;

/// The largest byte, 0 where there is none. There is no way out on the way, so that many bytes are taken at a time.
fn largest(m: &[u8]) -> u8
    ensures { result ≡ fold max 0 m.now }
{
    m.iter().fold(0, |most, b| most.max(*b))
}

/// Zeros in all of `m`, written only if there is another byte.
fn clear_all(m: &mut [u8])
    ensures { m.new ≡ padded (length m.old) (take 0 m.old) }
{
    if largest(m) > 0 {
        clear_from(m, 0);
    }
}

/// Zeros in all of `m` but its first `n` bytes.
pub(crate) fn clear_behind(m: &mut [u8], n: usize)
    ensures { m.new ≡ padded (length m.old) (take n m.old) }
{
    let soon = n.saturating_add(CLEARED).min(m.len());
    let (front, rest) = m.split_at_mut(soon);
    clear_from(front, n);
    clear_all(rest);
}
