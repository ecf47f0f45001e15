//! A span converted and printed.
use blocks::sdk_span::SdkSpan;
use conversion::convert::{ARENA_BYTES, META_ROWS, otel_span_to_dd_span};
use conversion::pieces::MetaRow;
use conversion_report::shown::Shown;
use readers::otel_util::OtelSpan;
use span_report::origin::Origin;
use std::alloc::Global;

/// The memory that conversions are lent, one after another.
#[derive(Drop)]
pub struct Tables {
    meta: Vec<MetaRow>,
    arena: Vec<u8>,
}

impl Tables {
    /// The fewest rows that a conversion takes, and the largest arena.
    pub fn new(heap: Global) -> anyhow::Result<Tables> {
        Ok(Tables {
            meta: vec![in heap; MetaRow::EMPTY; META_ROWS]?,
            arena: vec![in heap; 0u8; ARENA_BYTES]?,
        })
    }
}

/// Converts a span and prints it, or why it is refused; whether it was converted.
pub fn print_converted<R: OtelSpan>(
    rt: &HostRuntime,
    origin: Origin<'_>,
    span: SdkSpan<'_>,
    reader: &R,
    tables: &mut Tables,
) -> anyhow::Result<bool> {
    let Tables { meta, arena } = tables;
    match otel_span_to_dd_span(span, reader, meta.as_mut_slice(), arena.as_mut_slice()) {
        Ok(converted) => {
            println!(rt; "{origin} converted\n{}", Shown { span: &converted })?;
            Ok(true)
        }
        Err(refused) => {
            let number = u8::from(refused.fault);
            println!(rt; "{origin} refused {number}: {}\n", refused.fault)?;
            Ok(false)
        }
    }
}
