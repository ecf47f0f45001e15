//! What drafts hold.
use crate::made::{start_of, text};
use blocks::lists::List;
use blocks::sdk_span::open;
use blocks::span_kind::StatusCode;
use drafts::draft::Draft;
use drafts::refusal::answer_number;
use std::test::Fail;
use values::value::{Double, Scalar};

// Error, Ok, Error: Ok is final, and has no description.
#[test]
fn statuses(rt: HostRuntime) -> Result<(), Fail> {
    let mut m = [7u8; 200];
    let Ok(draft) = Draft::start(&mut m, &start_of(0)) else {
        assert!(rt; false);
        return Ok(());
    };
    let mut draft = draft;
    let numbers = [
        answer_number(draft.status(0, b"no")),
        answer_number(draft.status(2, b"first")),
        answer_number(draft.status(2, b"second")),
        answer_number(draft.status(0, b"")),
        answer_number(draft.status(1, b"gone")),
        answer_number(draft.status(2, b"late")),
        answer_number(draft.status(3, b"")),
    ];
    let span = draft.end(20);
    assert_eq!(rt; numbers, [1, 0, 0, 1, 0, 1, 24]);
    assert_eq!(rt; span.status(), StatusCode::Ok);
    assert!(rt; span.description() == b"".as_slice());
    Ok(())
}

/// A double by its pattern and its text.
fn double(pattern: u64, text: &[u8]) -> Scalar<'_> {
    Scalar::F64(Double { pattern, text })
}

/// Two events that each have the key `k`, and a span attribute of two kinds in turn.
fn put_owners(m: &mut [u8]) {
    let Ok(draft) = Draft::start(m, &start_of(8)) else {
        return;
    };
    let mut draft = draft;
    let _ = draft.set_value(List::Span, b"k", Scalar::I64(-5));
    let _ = draft.event(b"e", 11);
    let _ = draft.set_value(List::EventAttribute, b"k", Scalar::Bool(true));
    let _ = draft.event(b"f", 12);
    let _ = draft.set_value(List::EventAttribute, b"k", Scalar::String(b"first"));
    let _ = draft.set_value(List::EventAttribute, b"k", Scalar::String(b"second"));
    let _ = draft.set_value(List::Span, b"k", double(4607182418800017408, b"1.0"));
    let _ = draft.rename(b"renamed");
    let _ = draft.end(20);
}

/// Whether the row `i` of a block has this kind and value.
fn has_row(m: &[u8], i: u16, kind: u8, value: &[u8]) -> bool {
    match open(m) {
        Ok(span) => match span.row(i) {
            Ok(row) => row.kind == kind && row.value == value,
            Err(_) => false,
        },
        Err(_) => false,
    }
}

// A key is looked for under the newest event alone; a replaced value stays in its row.
#[test]
fn owners(rt: HostRuntime) -> Result<(), Fail> {
    let mut m = [7u8; 600];
    put_owners(&mut m);
    let Ok(span) = open(&m) else {
        assert!(rt; false);
        return Ok(());
    };
    assert!(rt; span.row_count() == 5 && span.name() == b"renamed".as_slice());
    assert!(rt; has_row(&m, 0, 2, b"\0\0\0\0\0\0\xf0\x3f1.0"));
    assert!(rt; has_row(&m, 2, 0, b"\x01"));
    assert!(rt; has_row(&m, 4, 3, b"second"));
    Ok(())
}

// A double's text of 400 bytes, and of 401.
#[test]
fn doubles(rt: HostRuntime) -> Result<(), Fail> {
    let mut m = [7u8; 1000];
    let Ok(draft) = Draft::start(&mut m, &start_of(1)) else {
        assert!(rt; false);
        return Ok(());
    };
    let mut draft = draft;
    let numbers = [
        answer_number(draft.set_value(List::Span, b"k", double(0, b""))),
        answer_number(draft.set_value(List::Span, b"k", double(0, text(400)))),
        answer_number(draft.set_value(List::Span, b"k", double(0, text(401)))),
    ];
    draft.discard();
    assert_eq!(rt; numbers, [8, 0, 8]);
    Ok(())
}
