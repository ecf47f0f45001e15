//! Bytes as they are, in hex digits, and bytes over and over.
use crate::cut::cut;
use crate::element::number_of;
use crate::fault::LineFault;
use crate::hex;
use std::alloc::Global;

/// The most bytes that may come of a text that is repeated.
const REPEATED_BYTES: usize = 1_048_576;

/// `unit` over and over, `count` times.
fn repeated(heap: Global, unit: &[u8], count: usize) -> Result<Vec<u8>, LineFault> {
    if count > REPEATED_BYTES / unit.len().max(1) {
        return Err(LineFault::TooManyBytes);
    }
    let mut out = Vec::new(heap);
    for _ in 0..count {
        out.extend_from_slice(unit)?;
    }
    Ok(out)
}

/// `unit` as often as the text behind its `*` says.
pub fn counted(heap: Global, unit: &[u8], count: &[u8]) -> Result<Vec<u8>, LineFault> {
    let count = number_of(count, LineFault::NotCount)?;
    repeated(heap, unit, count)
}

/// The bytes of pairs of hex digits. Unlike in a block's line, no space may stand between them.
fn packed_bytes(heap: Global, digits: &[u8]) -> Result<Vec<u8>, LineFault> {
    let mut out = Vec::new(heap);
    for pair in digits.chunks_exact(2) {
        out.push(hex::byte(pair[0], pair[1]).ok_or(LineFault::NotHex)?)?;
    }
    if digits.len() % 2 != 0 {
        return Err(LineFault::OddHex);
    }
    Ok(out)
}

/// The bytes that `HEX` or `HEX*COUNT` writes, `-` for none.
pub fn raw_bytes(heap: Global, text: &[u8]) -> Result<Vec<u8>, LineFault> {
    let (digits, count) = cut(text, b'*');
    let unit = match digits {
        b"" => return Err(LineFault::NoBytes),
        b"-" => Vec::new(heap),
        _ => packed_bytes(heap, digits)?,
    };
    match count {
        Some(count) => counted(heap, unit.as_slice(), count),
        None => Ok(unit),
    }
}
