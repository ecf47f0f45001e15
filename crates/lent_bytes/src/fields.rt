//! Numbers in memory: little endian, but for ids.
ghost use Rattle.std.specs.Prelude.{◌≡◌, ℕ, List};
ghost use Rattle.lent_bytes.specs.Memory.{written};
ghost use Rattle.lent_bytes.specs.Fields.{u16_in, u32_in, u64_in, i64_in, id_in, bytes2, bytes4, bytes8, ints8};

use crate::memory::{byte, part, write};
use std::array;

/// A number that stands in memory, lowest byte first. Each type has its own array of bytes, and so an `impl` of its own
/// two lines a call.
pub trait Number {
    // The number at a place of memory.
    ghost in_memory: { List ℕ → ℕ → Self };

    // The bytes of a number.
    ghost to_bytes: { Self → List ℕ };

    /// The number at `at`. A byte past the end is 0.
    fn read(m: &[u8], at: usize) -> Self
        ensures { result ≡ in_memory m.now at };

    /// Writes the number at `at`, as far as it fits.
    fn put(self, m: &mut [u8], at: usize)
        ensures { m.new ≡ written m.old at (to_bytes self) };
}

impl Number for u16 {
    ghost in_memory = { u16_in };

    ghost to_bytes = { bytes2 };

    fn read(m: &[u8], at: usize) -> u16 {
        let p = part(m, at, 2);
        if p.len() == 2 {
            return u16::from_le_bytes([p[0], p[1]]);
        }
        u16::from_le_bytes(array::from_fn(|i| byte(p, i)))
    }

    fn put(self, m: &mut [u8], at: usize) {
        let two = self.to_le_bytes();
        write(m, at, &two);
    }
}

impl Number for u32 {
    ghost in_memory = { u32_in };

    ghost to_bytes = { bytes4 };

    fn read(m: &[u8], at: usize) -> u32 {
        let p = part(m, at, 4);
        if p.len() == 4 {
            return u32::from_le_bytes([p[0], p[1], p[2], p[3]]);
        }
        u32::from_le_bytes(array::from_fn(|i| byte(p, i)))
    }

    fn put(self, m: &mut [u8], at: usize) {
        let four = self.to_le_bytes();
        write(m, at, &four);
    }
}

impl Number for u64 {
    ghost in_memory = { u64_in };

    ghost to_bytes = { bytes8 };

    fn read(m: &[u8], at: usize) -> u64 {
        let p = part(m, at, 8);
        if p.len() == 8 {
            return u64::from_le_bytes([p[0], p[1], p[2], p[3], p[4], p[5], p[6], p[7]]);
        }
        u64::from_le_bytes(array::from_fn(|i| byte(p, i)))
    }

    fn put(self, m: &mut [u8], at: usize) {
        let digits = self.to_le_bytes();
        write(m, at, &digits);
    }
}

impl Number for i64 {
    ghost in_memory = { i64_in };

    ghost to_bytes = { ints8 };

    fn read(m: &[u8], at: usize) -> i64 {
        let p = part(m, at, 8);
        if p.len() == 8 {
            return i64::from_le_bytes([p[0], p[1], p[2], p[3], p[4], p[5], p[6], p[7]]);
        }
        i64::from_le_bytes(array::from_fn(|i| byte(p, i)))
    }

    fn put(self, m: &mut [u8], at: usize) {
        let signed = self.to_le_bytes();
        write(m, at, &signed);
    }
}

/// The id of eight bytes at `at`, highest byte first.
pub fn id_at(m: &[u8], at: usize) -> u64
    ensures { result ≡ id_in m.now at }
{
    let p = part(m, at, 8);
    if p.len() == 8 {
        return u64::from_be_bytes([p[0], p[1], p[2], p[3], p[4], p[5], p[6], p[7]]);
    }
    u64::from_be_bytes(array::from_fn(|i| byte(p, i)))
}
