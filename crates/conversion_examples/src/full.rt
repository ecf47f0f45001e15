//! As many texts and as many numbers as a lawful block can give.
use crate::coded::Coded;
use crate::made::{Tables, has_text, start_of};
use conversion::convert::otel_span_to_dd_span;
use conversion::pieces::MetaRow;
use drafts::draft::Draft;
use drafts::start::Start;
use span_args::span_extract_args::SpanExtractArgs;
use std::test::Fail;

/// Sets `n` attributes of a list, each with a key of its own that begins with `first`.
fn fill(draft: &mut Draft<'_>, list: u8, first: u8, kind: u8, value: &[u8], n: u8) {
    for i in 0..n {
        let _ = draft.set(list, &[first, b'a' + i / 16, b'a' + i % 16], kind, value);
    }
}

/// A start with all texts of the header.
fn start_with_texts(rows: u16) -> Start<'static> {
    Start {
        trace_state: b"dash=commuter",
        scope_name: b"dash.profiles",
        scope_version: b"1.4.2",
        ..start_of(3, b"load profile", rows)
    }
}

/// All attributes that go to meta, and the event and the status whose texts go there as well.
fn set_texts(draft: &mut Draft<'_>) {
    fill(draft, 0, b's', 3, b"v", 128);
    fill(draft, 1, b'r', 3, b"v", 127);
    let _ = draft.set(1, b"service.version", 3, b"1.4.2");
    fill(draft, 2, b'c', 3, b"v", 128);
    let _ = draft.event(b"exception", 11);
    let _ = draft.set(4, b"exception.type", 3, b"Locked");
    let _ = draft.set(4, b"exception.stacktrace", 3, b"at seat");
    let _ = draft.status(2, b"the profile was not written");
}

/// How many texts the span with all of them has, and whether the code and the environment are those of the reader; none
/// where it is refused.
fn texts_converted(block: &mut [u8], tables: &mut Tables) -> Option<(usize, bool, bool)> {
    let Ok(draft) = Draft::start(block, &start_with_texts(400)) else {
        return None;
    };
    let mut draft = draft;
    set_texts(&mut draft);
    let span = draft.end(1500);
    let Tables { meta, arena } = tables;
    match otel_span_to_dd_span(span, &Coded, meta.as_mut_slice(), arena.as_mut_slice()) {
        Ok(made) => Some((
            made.meta_count(),
            has_text(&made, b"http.status_code", b"404"),
            has_text(&made, b"env", b"workshop"),
        )),
        Err(_) => None,
    }
}

// 128 attributes each of span, resource and scope, and the 14 keys of the program's own: with one row more the span is
// the same. The status code is the reader's, since an attribute that says it would be no text.
#[test]
fn all_texts(rt: HostRuntime) -> Result<(), Fail> {
    for more in [0, 1] {
        let mut block = vec![in rt.alloc(); 0u8; 16384]?;
        let mut tables = Tables::new(rt.alloc())?;
        for _ in 0..more {
            tables.meta.push(MetaRow::EMPTY)?;
        }
        let found = texts_converted(&mut block, &mut tables);
        assert_eq!(rt; found, Some((398, true, true)));
    }
    Ok(())
}

/// How many numbers a span has, two of the program's own, and one of an attribute.
#[derive(Clone, Copy, PartialEq, Eq, Debug)]
struct Numbers {
    count: usize,
    sampled: Option<u64>,
    measured: Option<u64>,
    attribute: Option<u64>,
}

/// The numbers of a span with all of them; none where it is refused.
fn numbers_converted(block: &mut [u8], tables: &mut Tables) -> Option<Numbers> {
    let Ok(draft) = Draft::start(block, &start_with_texts(200)) else {
        return None;
    };
    let mut draft = draft;
    fill(&mut draft, 0, b's', 1, &[2, 0, 0, 0, 0, 0, 0, 0], 128);
    let _ = draft.set(1, b"analytics.event", 3, b"TRUE");
    let span = draft.end(1500);
    let reader = SpanExtractArgs::new(&span);
    let Tables { meta, arena } = tables;
    match otel_span_to_dd_span(span, &reader, meta.as_mut_slice(), arena.as_mut_slice()) {
        Ok(made) => Some(Numbers {
            count: made.metrics_count(),
            sampled: made.metric_under(b"_dd1.sr.eausr").ok(),
            measured: made.metric_under(b"_dd.measured").ok(),
            attribute: made.metric_under(b"saa").ok(),
        }),
        Err(_) => None,
    }
}

// 128 integers of the span, the measure of a client, and what the resource says of events.
#[test]
fn all_numbers(rt: HostRuntime) -> Result<(), Fail> {
    let mut block = vec![in rt.alloc(); 0u8; 8192]?;
    let mut tables = Tables::new(rt.alloc())?;
    let wanted = Numbers {
        count: 130,
        sampled: Some(0x3ff0_0000_0000_0000),
        measured: Some(0x3ff0_0000_0000_0000),
        attribute: Some(0x4000_0000_0000_0000),
    };
    assert_eq!(rt; numbers_converted(&mut block, &mut tables), Some(wanted));
    Ok(())
}
