//! The arena and the table at their limits, the order of refusals, and what they hand back.
use crate::made::{recorded, start_of};
use conversion::convert::{ARENA_BYTES, ConvertRefused, META_ROWS, otel_span_to_dd_span};
use conversion::pieces::MetaRow;
use span_args::span_extract_args::SpanExtractArgs;
use std::alloc::{AllocError, Global};
use std::test::Fail;

/// What a conversion answers. A refusal has a number, leaves bytes of the arena that are not zero, and hands back the span
/// and the whole table.
#[derive(Clone, Copy, PartialEq, Eq, Debug)]
enum Outcome {
    Accepted,
    Refused { number: u8, left: usize, back: bool },
}

/// A refusal that hands back the span, the whole table, and an arena of zeros.
const fn refused(number: u8) -> Option<Outcome> {
    Some(Outcome::Refused {
        number,
        left: 0,
        back: true,
    })
}

/// The outcome for a span with a name alone; none where the span is not recorded.
fn outcome_in(block: &mut [u8], meta: &mut [MetaRow], arena: &mut [u8]) -> Option<Outcome> {
    let rows = meta.len();
    let span = recorded(block, &start_of(1, b"load", 0), &[])?;
    let reader = SpanExtractArgs::new(&span);
    match otel_span_to_dd_span(span, &reader, meta, arena) {
        Ok(_) => Some(Outcome::Accepted),
        Err(
            ConvertRefused {
                fault,
                span,
                meta,
                arena,
            },
        ) => Some(Outcome::Refused {
            number: u8::from(fault),
            left: arena.iter().filter(|b| **b != 0).count(),
            back: span.name() == b"load".as_slice() && meta.len() == rows,
        }),
    }
}

/// The same in a table of so many rows and an arena of so many bytes, none of them zero.
fn outcome_at(heap: Global, rows: usize, bytes: usize) -> Result<Option<Outcome>, AllocError> {
    let mut block = vec![in heap; 0u8; 200]?;
    let mut meta = vec![in heap; MetaRow::EMPTY; rows]?;
    let mut arena = vec![in heap; 7u8; bytes]?;
    Ok(outcome_in(&mut block, meta.as_mut_slice(), arena.as_mut_slice()))
}

// Placed are the service, `otlpresourcenoservicename`, the name, `internal`, the resource, `load`, the type, `custom`, and
// 32 digits of the trace id: 75 bytes.
#[test]
fn arena_full(rt: HostRuntime) -> Result<(), Fail> {
    assert_eq!(rt;
        outcome_at(rt.alloc(), META_ROWS, 75)?,
        Some(Outcome::Accepted)
    );
    assert_eq!(rt; outcome_at(rt.alloc(), META_ROWS, 74)?, refused(32));
    assert_eq!(rt; outcome_at(rt.alloc(), META_ROWS, 0)?, refused(32));
    Ok(())
}

#[test]
fn table_and_arena(rt: HostRuntime) -> Result<(), Fail> {
    let heap = rt.alloc();
    let (rows, bytes) = (META_ROWS, ARENA_BYTES);
    assert_eq!(rt; outcome_at(heap, rows, bytes)?, Some(Outcome::Accepted));
    assert_eq!(rt; outcome_at(heap, rows - 1, bytes)?, refused(30));
    assert_eq!(rt; outcome_at(heap, rows, bytes + 1)?, refused(31));
    assert_eq!(rt; outcome_at(heap, rows - 1, bytes + 1)?, refused(30));
    Ok(())
}
