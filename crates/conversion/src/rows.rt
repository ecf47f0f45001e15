//! Rows of a span that are looked up by their keys.
ghost use Rattle.std.specs.Prelude.{◌≡◌, map};
ghost use Rattle.std.specs.List.{find, position, slice_get};
ghost use Rattle.std.specs.Str.{bytes_eq};
ghost use Rattle.conversion.specs.Spans.{bytes_of};
ghost use Rattle.conversion.specs.Pieces.{meta_pair, piece_text};
ghost use Rattle.conversion.specs.Digests.{Digested};

use crate::digests::digest;
use crate::pieces::{MetaRow, Metric, piece_bytes};

/// The row with a number.
pub(crate) fn row_at<R: Copy>(rows: &[R], i: usize) -> Option<R>
    ensures { result ≡ slice_get rows.now i }
{
    rows.get(i).copied()
}

/// The place of the first text with a key.
pub(crate) fn find_text(block: &[u8], arena: &[u8], rows: &[MetaRow], key: &[u8]) -> Option<usize>
    requires { Digested rows.now (map (meta_pair block.now arena.now) rows.now) }
    ensures { result ≡ position (λ r. bytes_eq (bytes_of (piece_text block.now arena.now r.key)) key.now) rows.now }
{
    let sought = digest(key);
    rows.iter().position(|row| row.digest == sought && piece_bytes(block, arena, row.key) == key)
}

/// The first text with a key.
pub(crate) fn first_text(
    block: &[u8],
    arena: &[u8],
    rows: &[MetaRow],
    key: &[u8],
) -> Option<MetaRow>
    requires { Digested rows.now (map (meta_pair block.now arena.now) rows.now) }
    ensures { result ≡ find (λ r. bytes_eq (bytes_of (piece_text block.now arena.now r.key)) key.now) rows.now }
{
    let sought = digest(key);
    rows.iter()
        .find(|row| row.digest == sought && piece_bytes(block, arena, row.key) == key)
        .copied()
}

/// The place of the first number with a key.
pub(crate) fn find_number(block: &[u8], arena: &[u8], rows: &[Metric], key: &[u8]) -> Option<usize>
    ensures { result ≡ position (λ r. bytes_eq (bytes_of (piece_text block.now arena.now r.key)) key.now) rows.now }
{
    rows.iter()
        .position(|row| piece_bytes(block, arena, row.key) == key)
}

/// The first number with a key.
pub(crate) fn first_number(
    block: &[u8],
    arena: &[u8],
    rows: &[Metric],
    key: &[u8],
) -> Option<Metric>
    ensures { result ≡ find (λ r. bytes_eq (bytes_of (piece_text block.now arena.now r.key)) key.now) rows.now }
{
    rows.iter()
        .find(|row| piece_bytes(block, arena, row.key) == key)
        .copied()
}
