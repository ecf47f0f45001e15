//! A row with its key and value as parts of the block.
ghost use Rattle.std.specs.Prelude.{◌≡◌};
ghost use Rattle.blocks.specs.Facts.{row_fact, fact_of};

use crate::layout::raw_row;

/// A row: the number of its list, its key, the number of its value's kind, its value and its time. They
/// are numbers, since any bytes can be read as a row.
#[derive(Clone, Copy)]
pub struct Row<'a> {
    pub list: u8,
    pub key: &'a [u8],
    pub kind: u8,
    pub value: &'a [u8],
    pub time: i64,
}

/// What a link points to, and its flags.
#[derive(Clone, Copy, PartialEq, Eq, Debug)]
pub struct LinkIds {
    pub trace_id_high: u64,
    pub trace_id_low: u64,
    pub span_id: u64,
    pub flags: u8,
}

/// The row with the number `i`, whatever stands there.
pub(crate) fn row_at(block: &[u8], i: u16) -> Row<'_>
    ensures { fact_of result ≡ row_fact block.now i }
{
    let raw = raw_row(block, i);
    Row {
        list: raw.list,
        key: raw.key(block),
        kind: raw.kind,
        value: raw.value(block),
        time: raw.time,
    }
}
