//! Questions on a span.
use crate::made::{Placed, put_header, put_row};
use blocks::faults::Part;
use blocks::layout::raw_row;
use blocks::lists::{List, Owner, PlainList, UnknownList};
use blocks::sdk_span::SdkSpan;
use blocks::span_kind::{SpanKind, StatusCode};
use lent_bytes::fields::Number;
use lent_bytes::memory::write;
use std::test::Fail;

#[test]
fn header_fields(rt: HostRuntime) {
    let mut m = [0u8; 200];
    put_header(&mut m, 0, 20);
    write(&mut m, 11, &[2]);
    write(
        &mut m,
        16,
        b"\0\0\0\0\0\0\0\x01\0\0\0\0\0\0\x01\0\0\0\0\0\0\0\0\x03\0\0\0\0\0\0\0\x04",
    );
    (-5i64).put(&mut m, 48);
    7i64.put(&mut m, 56);
    8u32.put(&mut m, 64);
    9u32.put(&mut m, 68);
    10u32.put(&mut m, 72);
    let span = SdkSpan::of_ended(&m);
    assert_eq!(rt; span.trace_id_high(), 1);
    assert_eq!(rt; span.trace_id_low(), 256);
    assert_eq!(rt; span.span_id(), 3);
    assert_eq!(rt; span.parent_id(), 4);
    assert_eq!(rt; span.start_time(), -5);
    assert_eq!(rt; span.end_time(), 7);
    assert_eq!(rt; span.kind(), SpanKind::Server);
    assert_eq!(rt; span.status(), StatusCode::Error);
    assert_eq!(rt; span.dropped_attributes(), 8);
    assert_eq!(rt; span.dropped_events(), 9);
    assert_eq!(rt; span.dropped_links(), 10);
    assert_eq!(rt; span.row_count(), 0);
}

// Five texts of two bytes, each a byte further on.
fn put_texts(m: &mut [u8]) {
    for i in 0..5u32 {
        i.put(m, 80 + 8 * i as usize);
        2u32.put(m, 84 + 8 * i as usize);
    }
}

#[test]
fn texts_and_rows(rt: HostRuntime) -> Result<(), Fail> {
    let mut m = [0u8; 200];
    put_header(&mut m, 1, 9);
    put_texts(&mut m);
    let row = Placed {
        list: 1,
        kind: 3,
        key: 0,
        key_length: 2,
        value: 3,
        value_length: 4,
    };
    put_row(&mut m, 0, row);
    write(&mut m, 144, b"abcdefghi");
    let raw = raw_row(&m, 0);
    assert!(rt; raw.key(&m) == b"ab".as_slice());
    assert!(rt; raw.value(&m) == b"defg".as_slice());
    let span = SdkSpan::of_ended(&m);
    assert!(rt; span.name() == b"ab".as_slice());
    assert!(rt; span.trace_state() == b"bc".as_slice());
    assert!(rt; span.scope_name() == b"cd".as_slice());
    assert!(rt; span.scope_version() == b"de".as_slice());
    assert!(rt; span.description() == b"ef".as_slice());
    let Ok(row) = span.row(0) else {
        return Err(Fail::new("no row"));
    };
    assert_eq!(rt; List::try_from(row.list), Ok(List::Resource));
    assert_eq!(rt; row.kind, 3);
    assert!(rt; row.key == b"ab".as_slice());
    assert!(rt; row.value == b"defg".as_slice());
    assert_eq!(rt; row.time, 0);
    assert!(rt; span.row(1).is_err());
    Ok(())
}

#[test]
fn numbers_of_cases(rt: HostRuntime) {
    for n in 1..6u8 {
        assert_eq!(rt; u8::from(SpanKind::from(n)), n);
    }
    for n in 0..3u8 {
        assert_eq!(rt; u8::from(StatusCode::from(n)), n);
    }
    assert_eq!(rt; SpanKind::from(0), SpanKind::Internal);
    assert_eq!(rt; StatusCode::from(3), StatusCode::Unset);
    assert_eq!(rt; u8::from(List::LinkAttribute), 6);
    assert_eq!(rt; List::from(PlainList::Scope), List::Scope);
    assert_eq!(rt; Owner::Link.list(), List::Link);
    assert_eq!(rt; Owner::Event.owned(), List::EventAttribute);
    assert_eq!(rt; u8::from(Part::Value), 3);
    assert_eq!(rt; List::try_from(7), Err(UnknownList));
}
