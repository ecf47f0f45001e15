//! Starts at each limit.
use crate::made::{start_number, start_of, text};
use blocks::sdk_span::open;
use drafts::draft::Draft;
use drafts::start::Start;
use std::test::Fail;

// Memory of 119, 120, 65,536 and 65,537 bytes.
#[test]
fn memory(rt: HostRuntime) -> Result<(), Fail> {
    let mut v = vec![in rt.alloc(); 7u8; 65537]?;
    let m = &mut v[..];
    assert!(rt; m.len() == 65537);
    let start = start_of(0);
    assert_eq!(rt;
        [
            start_number(&mut m[0..119], &start),
            start_number(&mut m[0..120], &start),
            start_number(&mut m[0..65536], &start),
            start_number(m, &start),
        ],
        [12, 0, 0, 12]
    );
    Ok(())
}

// Room for 1,024 and 1,025 rows, and for one row in a byte too few.
#[test]
fn rows(rt: HostRuntime) -> Result<(), Fail> {
    let mut v = vec![in rt.alloc(); 7u8; 65536]?;
    let m = &mut v[..];
    assert!(rt; m.len() == 65536);
    assert_eq!(rt;
        [
            start_number(m, &start_of(1024)),
            start_number(m, &start_of(1025)),
            start_number(&mut m[0..143], &start_of(1)),
            start_number(&mut m[0..144], &start_of(1)),
        ],
        [0, 12, 12, 0]
    );
    Ok(())
}

#[test]
fn kinds(rt: HostRuntime) {
    let mut m = [7u8; 120];
    let start = start_of(0);
    assert_eq!(rt;
        [
            start_number(&mut m, &Start { kind: 0, ..start }),
            start_number(&mut m, &Start { kind: 1, ..start }),
            start_number(&mut m, &Start { kind: 5, ..start }),
            start_number(&mut m, &Start { kind: 6, ..start }),
        ],
        [11, 0, 0, 11]
    );
}

/// A start with these texts.
fn with_texts<'t>(
    name: &'t [u8],
    trace_state: &'t [u8],
    scope_name: &'t [u8],
    scope_version: &'t [u8],
) -> Start<'t> {
    Start {
        name,
        trace_state,
        scope_name,
        scope_version,
        ..start_of(0)
    }
}

// The longest texts, and each a byte longer.
#[test]
fn texts(rt: HostRuntime) {
    let mut m = [7u8; 2000];
    let longest = with_texts(text(255), text(512), text(255), text(255));
    assert_eq!(rt; start_number(&mut m, &longest), 0);
    let long_name = with_texts(text(256), text(512), text(255), text(255));
    assert_eq!(rt; start_number(&mut m, &long_name), 4);
    let long_state = with_texts(text(255), text(513), text(255), text(255));
    assert_eq!(rt; start_number(&mut m, &long_state), 4);
    let long_scope = with_texts(text(255), text(512), text(256), text(255));
    assert_eq!(rt; start_number(&mut m, &long_scope), 4);
    let long_version = with_texts(text(255), text(512), text(255), text(256));
    assert_eq!(rt; start_number(&mut m, &long_version), 4);
    let no_text = with_texts(text(255), text(512), text(255), b"\xff");
    assert_eq!(rt; start_number(&mut m, &no_text), 5);
}

// The texts fill the memory, and do so with a byte too many.
#[test]
fn room(rt: HostRuntime) {
    let mut m = [7u8; 150];
    let start = start_of(1);
    assert_eq!(rt;
        [
            start_number(
                &mut m,
                &Start {
                    name: b"abcd",
                    scope_name: b"ef",
                    ..start
                },
            ),
            start_number(
                &mut m,
                &Start {
                    name: b"abcd",
                    scope_name: b"efg",
                    ..start
                },
            ),
        ],
        [0, 13]
    );
}

// Kind, memory, texts, room: the first fault is answered.
#[test]
fn order(rt: HostRuntime) {
    let mut m = [7u8; 119];
    let bad = Start {
        kind: 9,
        name: b"\xff",
        ..start_of(2000)
    };
    assert_eq!(rt;
        [
            start_number(&mut m, &bad),
            start_number(&mut m, &Start { kind: 1, ..bad }),
        ],
        [11, 12]
    );
    let mut n = [7u8; 120];
    let bad = Start {
        name: text(256),
        trace_state: b"\xff",
        ..start_of(0)
    };
    assert_eq!(rt;
        [
            start_number(&mut n, &bad),
            start_number(&mut n, &Start { name: b"a", ..bad }),
            start_number(
                &mut n,
                &Start {
                    trace_state: b"",
                    name: b"a",
                    ..bad
                },
            ),
        ],
        [4, 5, 13]
    );
}

/// Starts a draft and ends it at once.
fn put_ended(m: &mut [u8]) {
    let start = Start {
        name: b"GET /track",
        trace_state: b"a=b",
        scope_name: b"dash",
        scope_version: b"1.2",
        ..start_of(1)
    };
    if let Ok(draft) = Draft::start(m, &start) {
        let _ = draft.end(20);
    }
}

// An ended draft is a block that open accepts, with what was said at the start.
#[test]
fn ended(rt: HostRuntime) -> Result<(), Fail> {
    let mut m = [7u8; 200];
    put_ended(&mut m);
    let Ok(span) = open(&m) else {
        assert!(rt; false);
        return Ok(());
    };
    assert_eq!(rt;
        [
            span.trace_id_high(),
            span.trace_id_low(),
            span.span_id(),
            span.parent_id(),
        ],
        [1, 2, 3, 0]
    );
    assert_eq!(rt; (span.start_time(), span.end_time()), (10, 20));
    assert!(rt; span.name() == b"GET /track".as_slice() && span.trace_state() == b"a=b".as_slice());
    assert!(rt;
        span.scope_name() == b"dash".as_slice() && span.scope_version() == b"1.2".as_slice()
    );
    assert!(rt; span.row_count() == 0 && span.description() == b"".as_slice());
    Ok(())
}
