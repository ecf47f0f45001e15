//! Numbers and texts of a block's header, read on any bytes: for code that has the bytes of a span and not the span.
ghost use Rattle.std.specs.Prelude.{◌≡◌};
ghost use Rattle.blocks.specs.Layout.{rows_in};
ghost use Rattle.blocks.specs.Facts.{facts, header_text};

use crate::layout::text;
use crate::span_kind::{SpanKind, StatusCode};
use lent_bytes::fields::{Number, id_at};
use lent_bytes::memory::byte;

/// How many rows there are.
pub fn row_count(block: &[u8]) -> u16
    ensures { result ≡ rows_in block.now }
{
    u16::read(block, 2)
}

/// What the span stands for.
pub fn kind(block: &[u8]) -> SpanKind
    ensures { result ≡ (facts block.now).kind }
{
    SpanKind::from(byte(block, 10))
}

/// How the span ended.
pub fn status(block: &[u8]) -> StatusCode
    ensures { result ≡ (facts block.now).status }
{
    StatusCode::from(byte(block, 11))
}

/// The upper half of the trace id.
pub fn trace_id_high(block: &[u8]) -> u64
    ensures { result ≡ (facts block.now).trace_high }
{
    id_at(block, 16)
}

/// The lower half of the trace id.
pub fn trace_id_low(block: &[u8]) -> u64
    ensures { result ≡ (facts block.now).trace_low }
{
    id_at(block, 24)
}

/// The span's name.
pub fn name(block: &[u8]) -> &[u8]
    ensures { result.now ≡ (facts block.now).name }
{
    text_at(block, 80)
}

/// A text of the header, by where its place and length stand.
pub(crate) fn text_at(block: &[u8], at: u8) -> &[u8]
    ensures { result.now ≡ header_text block.now at }
{
    let at = at as usize;
    text(block, u32::read(block, at), u32::read(block, at + 4))
}
