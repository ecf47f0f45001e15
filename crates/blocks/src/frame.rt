//! The checks of the block as a whole and of its header texts.
ghost use Rattle.std.specs.Prelude.{◌≡◌, ◌+◌, nat_le};
ghost use Rattle.std.specs.Result.{result_err};
ghost use Rattle.blocks.specs.Layout.{used_in};
ghost use Rattle.blocks.specs.Faults.{frame_fault, header_ok, layout_ok, within, text_fault, texts_fault};

use crate::faults::{BlockFault, TextFault};
use crate::layout::text;
use crate::limits::{LEAST, MOST};
use lent_bytes::fields::Number;
use lent_bytes::memory::byte;
use values::utf8::is_text;

fn header_ok(block: &[u8]) -> bool
    ensures { result ≡ header_ok block.now }
{
    let kind = byte(block, 10);
    u16::read(block, 0) == 1
        && kind >= 1
        && kind <= 5
        && byte(block, 11) <= 2
        && byte(block, 76) == 1
        && byte(block, 77) == 0
        && byte(block, 78) == 0
        && byte(block, 79) == 0
}

fn layout_ok(block: &[u8]) -> bool
    ensures { result ≡ layout_ok block.now }
{
    let capacity = u16::read(block, 8) as usize;
    let offset = u32::read(block, 4) as usize;
    capacity <= 1024
        && u16::read(block, 2) as usize <= capacity
        && offset == 120 + 24 * capacity
        && offset + u32::read(block, 12) as usize <= block.len()
}

/// Whether the length, the header and the layout of a block are right, in this order.
pub(crate) fn check_frame(block: &[u8]) -> Result<(), BlockFault>
    ensures { result_err result ≡ frame_fault block.now }
{
    if block.len() < LEAST || block.len() > MOST {
        return Err(BlockFault::Length);
    }
    if !header_ok(block) {
        return Err(BlockFault::Header);
    }
    if !layout_ok(block) {
        return Err(BlockFault::Layout);
    }
    Ok(())
}

/// Whether `n` bytes at a place are within the text used.
pub(crate) fn is_inside(block: &[u8], place: u32, n: u32) -> bool
    ensures { result ≡ nat_le (place + n) (used_in block.now) }
{
    place as u64 + n as u64 <= u32::read(block, 12) as u64
}

/// Whether a text of `n` bytes at a place is at most `most` bytes long and within the text used.
pub(crate) fn is_within(block: &[u8], place: u32, n: u32, most: u32) -> bool
    ensures { result ≡ within block.now place n most }
{
    n <= most && is_inside(block, place, n)
}

fn check_text(block: &[u8], at: u8, most: u32) -> Result<(), TextFault>
    ensures { result_err result ≡ text_fault block.now at most }
{
    let place = u32::read(block, at as usize);
    let n = u32::read(block, at as usize + 4);
    if !is_within(block, place, n, most) {
        return Err(TextFault::Place);
    }
    if !is_text(text(block, place, n)) {
        return Err(TextFault::NotUtf8);
    }
    Ok(())
}

/// Whether the header texts are within their limits and UTF-8, one after the other: name, trace
/// state, scope name, scope version, description.
pub(crate) fn check_texts(block: &[u8]) -> Result<(), TextFault>
    ensures { result_err result ≡ texts_fault block.now }
{
    check_text(block, 80, 255)?;
    check_text(block, 88, 512)?;
    check_text(block, 96, 255)?;
    check_text(block, 104, 255)?;
    check_text(block, 112, 1024)
}
