//! Reads of the header and of rows.
ghost use Rattle.std.specs.Prelude.{◌≡◌, ◌==◌};
ghost use Rattle.blocks.specs.Lists.{list_number};
ghost use Rattle.blocks.specs.Faults.{list_in, key_in, value_in};
ghost use Rattle.blocks.specs.Layout.{text_in, offset_in, row_place, row_at, raw_of};

use crate::lists::List;
use lent_bytes::fields::Number;
use lent_bytes::memory::{after, byte, part};

/// A row as it stands: lengths and places, no bytes. Its list and its kind are numbers, since any bytes
/// can be read as a row.
#[derive(Clone, Copy)]
pub struct RawRow {
    pub list: u8,
    pub kind: u8,
    pub key_length: u16,
    pub key_place: u32,
    pub value_length: u32,
    pub value_place: u32,
    pub time: i64,
}

impl RawRow {
    /// The key of this row, in its block.
    pub fn key<'a>(&self, block: &'a [u8]) -> &'a [u8]
        ensures { result.now ≡ key_in block.now (raw_of self.now) }
    {
        text(block, self.key_place, self.key_length as u32)
    }

    /// The value of this row, in its block.
    pub fn value<'a>(&self, block: &'a [u8]) -> &'a [u8]
        ensures { result.now ≡ value_in block.now (raw_of self.now) }
    {
        text(block, self.value_place, self.value_length)
    }
}

/// The row with the number `i`.
#[inline(always)]
pub fn raw_row(block: &[u8], i: u16) -> RawRow
    ensures { raw_of result ≡ row_at block.now (row_place i) }
{
    let at = 120 + 24 * i as usize;
    RawRow {
        list: byte(block, at),
        kind: byte(block, at + 1),
        key_length: u16::read(block, at + 2),
        key_place: u32::read(block, at + 4),
        value_length: u32::read(block, at + 8),
        value_place: u32::read(block, at + 12),
        time: i64::read(block, at + 16),
    }
}

/// The text of `n` bytes at a place, which counts from the text offset.
#[inline(always)]
pub fn text(block: &[u8], place: u32, n: u32) -> &[u8]
    ensures { result.now ≡ text_in block.now place n }
{
    let at = u32::read(block, 4) as usize + place as usize;
    part(block, at, n as usize)
}

/// Whether the row `i` is one of this list.
#[inline(always)]
pub fn is_in(block: &[u8], list: List, i: u16) -> bool
    ensures { result ≡ (list_in block.now i == list_number list) }
{
    byte(block, 120 + 24 * i as usize) == u8::from(list)
}
