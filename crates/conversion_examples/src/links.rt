//! Texts of links' attributes that lie behind one another in the arena.
use crate::made::{Tables, doubled, start_of};
use blocks::sdk_span::open;
use conversion::convert::otel_span_to_dd_span;
use conversion::dd_span::DdSpan;
use drafts::draft::Draft;
use span_args::span_extract_args::SpanExtractArgs;
use std::test::Fail;

/// Whether two links were recorded, each with numbers as attributes, and an event between them.
fn two_links(memory: &mut [u8]) -> bool {
    let Ok(draft) = Draft::start(memory, &start_of(1, b"load", 20)) else {
        return false;
    };
    let mut draft = draft;
    let _ = draft.link(b"dash=track", &[1; 25]);
    let _ = draft.set(6, b"k1", 1, &[41, 0, 0, 0, 0, 0, 0, 0]);
    let _ = draft.set(6, b"k2", 1, &[42, 0, 0, 0, 0, 0, 0, 0]);
    let _ = draft.event(b"seat.locked", 7);
    let _ = draft.set(4, b"zz", 1, &[55, 0, 0, 0, 0, 0, 0, 0]);
    let _ = draft.link(b"dash=commuter", &[2; 25]);
    let _ = draft.set(6, b"aa", 1, &[123, 0, 0, 0, 0, 0, 0, 0]);
    let _ = draft.set(6, b"cc", 1, &[7, 1, 0, 0, 0, 0, 0, 0]);
    let _ = draft.set(6, b"bb", 1, &[57, 48, 0, 0, 0, 0, 0, 0]);
    let _ = draft.end(9);
    true
}

/// Whether an attribute of a link has a key and a text.
fn is_attribute(span: &DdSpan<'_, '_, '_>, n: u16, i: u16, key: &[u8], text: &[u8]) -> bool {
    match span.link_attribute(n, i) {
        Ok(entry) => entry.key == key && entry.value == text,
        Err(_) => false,
    }
}

/// How many links there are, how many attributes the first three have, and whether each of four attributes is the wanted
/// one.
#[derive(Clone, Copy, PartialEq, Eq, Debug)]
struct TwoLinks {
    count: u16,
    counts: [Option<u16>; 3],
    attributes: [bool; 4],
}

/// What a span says of its links.
fn seen(span: &DdSpan<'_, '_, '_>) -> TwoLinks {
    TwoLinks {
        count: span.link_count(),
        counts: [
            span.link_attribute_count(0).ok(),
            span.link_attribute_count(1).ok(),
            span.link_attribute_count(2).ok(),
        ],
        attributes: [
            is_attribute(span, 0, 0, b"k1", b"41"),
            is_attribute(span, 0, 1, b"k2", b"42"),
            is_attribute(span, 1, 0, b"aa", b"12345"),
            is_attribute(span, 1, 1, b"cc", b"263"),
        ],
    }
}

/// The links of the span in a block; none where it is refused.
fn links_converted(block: &[u8], tables: &mut Tables) -> Option<TwoLinks> {
    let Ok(span) = open(block) else {
        return None;
    };
    let reader = SpanExtractArgs::new(&span);
    let Tables { meta, arena } = tables;
    match otel_span_to_dd_span(span, &reader, meta.as_mut_slice(), arena.as_mut_slice()) {
        Ok(made) => Some(seen(&made)),
        Err(_) => None,
    }
}

// Of the key that stands twice under the second link both texts take room, and the last one is its value.
#[test]
fn two_links_with_a_key_twice(rt: HostRuntime) -> Result<(), Fail> {
    let mut block = vec![in rt.alloc(); 0u8; 2048]?;
    let mut tables = Tables::new(rt.alloc())?;
    assert!(rt; two_links(&mut block));
    doubled(&mut block);
    let wanted = TwoLinks {
        count: 2,
        counts: [Some(2), Some(2), None],
        attributes: [true; 4],
    };
    assert_eq!(rt; links_converted(&block, &mut tables), Some(wanted));
    Ok(())
}
