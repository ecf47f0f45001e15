//! Times, links and events of a Datadog span, and keys that stand twice under an event.
use crate::made::{Tables, doubled, start_of};
use blocks::sdk_span::{SdkSpan, open};
use conversion::convert::otel_span_to_dd_span;
use conversion::dd_span::DdSpan;
use drafts::draft::Draft;
use drafts::start::Start;
use lent_bytes::memory::part;
use span_args::span_extract_args::SpanExtractArgs;
use std::test::Fail;
use values::show::display_text;

/// A draft with a link and two events, that ends before 1970.
fn record<'a>(memory: &'a mut [u8], start_time: i64) -> Option<SdkSpan<'a>> {
    let start = Start {
        start_time,
        ..start_of(1, b"load", 20)
    };
    let Ok(draft) = Draft::start(memory, &start) else {
        return None;
    };
    let mut draft = draft;
    let _ = draft.link(b"dash=track", &[1; 25]);
    let _ = draft.set(6, b"seat", 3, b"low");
    let _ = draft.set(6, b"rider", 1, &[42, 0, 0, 0, 0, 0, 0, 0]);
    let _ = draft.set(6, b"first", 0, &[1]);
    let _ = draft.event(b"seat.locked", -7);
    let _ = draft.event(b"seat.freed", 12);
    let _ = draft.set(4, b"aa", 3, b"one");
    let _ = draft.set(4, b"bb", 3, b"two");
    let _ = draft.set(4, b"zz", 3, b"three");
    Some(draft.end(-3))
}

/// The time of an event; none where there is no such event.
fn event_time(span: &DdSpan<'_, '_, '_>, n: u16) -> Option<i64> {
    match span.event(n) {
        Ok(event) => Some(event.time),
        Err(_) => None,
    }
}

/// A span's start, its duration, and the times of its first three events.
#[derive(Clone, Copy, PartialEq, Eq, Debug)]
struct SpanTimes {
    start: i64,
    duration: i64,
    events: [Option<i64>; 3],
}

/// The times of the draft's conversion; none where it is refused.
fn times_converted(block: &mut [u8], start_time: i64, tables: &mut Tables) -> Option<SpanTimes> {
    let span = record(block, start_time)?;
    let reader = SpanExtractArgs::new(&span);
    let Tables { meta, arena } = tables;
    match otel_span_to_dd_span(span, &reader, meta.as_mut_slice(), arena.as_mut_slice()) {
        Ok(made) => Some(SpanTimes {
            start: made.start(),
            duration: made.duration(),
            events: [
                event_time(&made, 0),
                event_time(&made, 1),
                event_time(&made, 2),
            ],
        }),
        Err(_) => None,
    }
}

// Times before 1970 count as 1970.
#[test]
fn times(rt: HostRuntime) -> Result<(), Fail> {
    for (start_time, start) in [(-5, 0), (8, 8)] {
        let mut block = vec![in rt.alloc(); 0u8; 2048]?;
        let mut tables = Tables::new(rt.alloc())?;
        let wanted = SpanTimes {
            start,
            duration: 0,
            events: [Some(0), Some(12), None],
        };
        let found = times_converted(&mut block, start_time, &mut tables);
        assert_eq!(rt; found, Some(wanted));
    }
    Ok(())
}

/// Whether an attribute of a link has a text.
fn link_has_text(span: &DdSpan<'_, '_, '_>, n: u16, i: u16, text: &[u8]) -> bool {
    match span.link_attribute(n, i) {
        Ok(entry) => entry.value == text,
        Err(_) => false,
    }
}

/// How many links there are; of the first, its flags, whether the trace state is the wanted one, how many attributes it has,
/// whether each text is the wanted one, and whether a fourth attribute and a second link are refused.
#[derive(Clone, Copy, PartialEq, Eq, Debug)]
struct OneLink {
    count: u16,
    flags: Option<u8>,
    state: bool,
    attributes: Option<u16>,
    texts: [bool; 3],
    no_more: [bool; 2],
}

/// The flags of a link, and whether it has a trace state.
fn link_seen(span: &DdSpan<'_, '_, '_>, n: u16, state: &[u8]) -> (Option<u8>, bool) {
    match span.link(n) {
        Ok(link) => (Some(link.ids.flags), link.trace_state == state),
        Err(_) => (None, false),
    }
}

/// What a span says of its first link.
fn seen(span: &DdSpan<'_, '_, '_>) -> OneLink {
    let (flags, state) = link_seen(span, 0, b"dash=track");
    OneLink {
        count: span.link_count(),
        flags,
        state,
        attributes: span.link_attribute_count(0).ok(),
        texts: [
            link_has_text(span, 0, 0, b"low"),
            link_has_text(span, 0, 1, b"42"),
            link_has_text(span, 0, 2, b"true"),
        ],
        no_more: [
            span.link_attribute(0, 3).is_err(),
            span.link_attribute(1, 0).is_err(),
        ],
    }
}

/// The link of the draft's conversion; none where it is refused.
fn link_converted(block: &mut [u8], tables: &mut Tables) -> Option<OneLink> {
    let span = record(block, 8)?;
    let reader = SpanExtractArgs::new(&span);
    let Tables { meta, arena } = tables;
    match otel_span_to_dd_span(span, &reader, meta.as_mut_slice(), arena.as_mut_slice()) {
        Ok(made) => Some(seen(&made)),
        Err(_) => None,
    }
}

// The texts of a link's attributes: of the block, of the arena and of the program.
#[test]
fn link_texts(rt: HostRuntime) -> Result<(), Fail> {
    let mut block = vec![in rt.alloc(); 0u8; 2048]?;
    let mut tables = Tables::new(rt.alloc())?;
    let wanted = OneLink {
        count: 1,
        flags: Some(1),
        state: true,
        attributes: Some(3),
        texts: [true; 3],
        no_more: [true; 2],
    };
    assert_eq!(rt; link_converted(&mut block, &mut tables), Some(wanted));
    Ok(())
}

/// Whether an attribute of an event has a key.
fn event_has_key(span: &DdSpan<'_, '_, '_>, n: u16, i: u16, key: &[u8]) -> bool {
    match span.event_attribute(n, i) {
        Ok(entry) => entry.key == key,
        Err(_) => false,
    }
}

/// Whether an attribute of an event has a value that is shown as a text.
fn event_shows(span: &DdSpan<'_, '_, '_>, n: u16, i: u16, text: &[u8]) -> bool {
    let mut out = [0u8; 4096];
    let len = match span.event_attribute(n, i) {
        Ok(entry) => match entry.value {
            Some(value) => display_text(&value, &mut out),
            None => 0,
        },
        Err(_) => 0,
    };
    part(&out, 0, len) == text
}

/// How many attributes an event has, whether both keys and the first value are the wanted ones, and whether a third
/// attribute is refused.
#[derive(Clone, Copy, PartialEq, Eq, Debug)]
struct Attributes {
    count: Option<u16>,
    keys: [bool; 2],
    shown: bool,
    no_more: bool,
}

/// The attributes of the second event of the span in a block; none where it is refused.
fn attributes_converted(block: &[u8], tables: &mut Tables) -> Option<Attributes> {
    let Ok(span) = open(block) else {
        return None;
    };
    let reader = SpanExtractArgs::new(&span);
    let Tables { meta, arena } = tables;
    match otel_span_to_dd_span(span, &reader, meta.as_mut_slice(), arena.as_mut_slice()) {
        Ok(made) => Some(Attributes {
            count: made.event_attribute_count(1).ok(),
            keys: [
                event_has_key(&made, 1, 0, b"aa"),
                event_has_key(&made, 1, 1, b"zz"),
            ],
            shown: event_shows(&made, 1, 0, b"two"),
            no_more: made.event_attribute(1, 2).is_err(),
        }),
        Err(_) => None,
    }
}

// A key that stands twice under an event has one place, the first, and one value, the last.
#[test]
fn key_twice(rt: HostRuntime) -> Result<(), Fail> {
    let mut block = vec![in rt.alloc(); 0u8; 2048]?;
    let mut tables = Tables::new(rt.alloc())?;
    let _ = record(&mut block, 8);
    doubled(&mut block);
    let wanted = Attributes {
        count: Some(2),
        keys: [true; 2],
        shown: true,
        no_more: true,
    };
    assert_eq!(rt; attributes_converted(&block, &mut tables), Some(wanted));
    Ok(())
}
