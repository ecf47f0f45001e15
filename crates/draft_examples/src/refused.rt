//! What is left in memory by what is refused, and by what is let go.
use crate::made::{broken, event, link, rename, set, start_number, start_of, status, text};
use drafts::call::Call;
use drafts::draft::Draft;
use drafts::refusal::answer_number;
use drafts::start::{Start, start_fault};

/// The number of a start, and whether it left nothing but this byte in the memory.
fn left(m: &mut [u8], start: &Start<'_>, byte: u8) -> (u8, bool) {
    let number = start_number(m, start);
    (number, m.iter().all(|b| *b == byte))
}

// A refused start hands the memory back as it was, whatever the fault.
#[test]
fn refused_starts(rt: HostRuntime) {
    let mut m = [7u8; 150];
    let start = start_of(0);
    assert_eq!(rt; left(&mut m, &Start { kind: 0, ..start }, 7), (11, true));
    assert_eq!(rt; left(&mut m, &Start { rows: 2, ..start }, 7), (12, true));
    for n in [256, 513] {
        let long = Start {
            name: text(n),
            ..start
        };
        assert_eq!(rt; left(&mut m, &long, 7), (4, true));
    }
    for name in [broken(1), broken(255)] {
        assert_eq!(rt; left(&mut m, &Start { name, ..start }, 7), (5, true));
    }
    let start = Start {
        scope_version: text(31),
        ..start
    };
    assert_eq!(rt; left(&mut m, &start, 7), (13, true));
}

/// The number of a start with these texts in memory that has room for none, and whether it left the memory as it was.
fn texts_left(
    name: &'static [u8],
    trace_state: &'static [u8],
    scope_name: &'static [u8],
    scope_version: &'static [u8],
) -> (u8, bool) {
    let mut m = [7u8; 120];
    let start = Start {
        name,
        trace_state,
        scope_name,
        scope_version,
        ..start_of(0)
    };
    left(&mut m, &start, 7)
}

// Of each text its length before its bytes, and both before the next text; the last of them before the room.
#[test]
fn texts_of_starts(rt: HostRuntime) {
    for (n, number) in [(1, 5), (513, 4)] {
        assert_eq!(rt; texts_left(broken(n), text(513), b"", b""), (number, true));
        assert_eq!(rt; texts_left(b"", broken(n), text(256), b""), (number, true));
        assert_eq!(rt; texts_left(b"", b"", broken(n), text(256)), (number, true));
        assert_eq!(rt; texts_left(b"", b"", b"", broken(n)), (number, true));
    }
}

// A draft that is let go leaves zeros in all of the memory.
#[test]
fn discarded(rt: HostRuntime) {
    let mut m = [7u8; 300];
    let start = Start {
        name: text(10),
        scope_name: text(20),
        ..start_of(2)
    };
    assert_eq!(rt; left(&mut m, &start, 0), (0, true));
}

/// The number of the fault of a start, with no memory.
fn fault_number(memory_len: usize, start: &Start<'_>) -> u8 {
    match start_fault(memory_len, start) {
        Ok(()) => 0,
        Err(fault) => u8::from(fault),
    }
}

// The fault of a start is known with no memory.
#[test]
fn faults_of_starts(rt: HostRuntime) {
    let start = start_of(1);
    let named = Start {
        name: text(6),
        ..start
    };
    assert_eq!(rt;
        [
            fault_number(150, &Start { kind: 6, ..start }),
            fault_number(143, &start),
            fault_number(144, &start),
            fault_number(65536, &start),
            fault_number(65537, &start),
            fault_number(usize::MAX, &start),
            fault_number(150, &named),
            fault_number(149, &named),
            fault_number(
                149,
                &Start {
                    name: text(256),
                    ..named
                }
            ),
            fault_number(
                149,
                &Start {
                    name: broken(6),
                    ..named
                }
            ),
        ],
        [11, 12, 0, 0, 12, 12, 0, 13, 4, 5]
    );
}

/// How many of some calls are refused.
fn refused_of(draft: &mut Draft<'_>, calls: &[Call<'_>]) -> u8 {
    let mut refused = 0u8;
    for call in calls {
        if answer_number(draft.apply(*call)) > 1 {
            refused = refused.saturating_add(1);
        }
    }
    refused
}

/// A span of an event and an attribute of it, which fill its rows, with calls between and behind them; how many of
/// those are refused.
fn put_span(m: &mut [u8], between: &[Call<'_>], behind: &[Call<'_>]) -> u8 {
    let Ok(draft) = Draft::start(m, &start_of(2)) else {
        return 255;
    };
    let mut draft = draft;
    let _ = draft.event(b"e", 11);
    let first = refused_of(&mut draft, between);
    let _ = draft.set(4, b"k", 3, b"v");
    let second = refused_of(&mut draft, behind);
    let _ = draft.end(20);
    first.saturating_add(second)
}

// Calls that are refused, each for another reason, and calls that say nothing new, leave every byte as it is.
#[test]
fn refused_calls(rt: HostRuntime) {
    let between = [
        set(3, b"k", b"v"),
        set(6, b"k", b"v"),
        set(0, b"", b"v"),
        set(0, b"\xff", b"v"),
        set(0, b"k", b"\xff"),
        set(0, b"k", text(4097)),
        set(0, b"k", text(40)),
        event(text(256)),
        event(b"\xff"),
        event(text(40)),
        link(text(513), 25),
        link(b"\xff", 25),
        link(b"", 24),
        link(text(20), 25),
        status(3, b"d"),
        status(2, text(1025)),
        status(2, b"\xff"),
        status(2, text(40)),
        rename(text(256)),
        rename(b"\xff"),
        rename(text(40)),
        status(0, b"d"),
    ];
    let behind = [
        set(0, b"k", b"v"),
        set(4, b"l", b"v"),
        set(4, b"k", text(40)),
        event(b"f"),
        link(b"", 25),
    ];
    let mut with = [7u8; 208];
    let mut without = [7u8; 208];
    assert_eq!(rt; put_span(&mut without, &[], &[]), 0);
    assert_eq!(rt; put_span(&mut with, &between, &behind), 26);
    assert!(rt; with == without);
}

// A refused start hands the memory back as it was, and a discarded draft leaves zeros.
#[test]
fn memory_back(rt: HostRuntime) {
    let mut m = [7u8; 119];
    assert_eq!(rt;
        [start_number(&mut m, &start_of(0)), m[0], m[118]],
        [12, 7, 7]
    );
    let mut n = [7u8; 130];
    assert_eq!(rt;
        [
            start_number(
                &mut n,
                &Start {
                    name: b"abc",
                    ..start_of(0)
                },
            ),
            n[10],
            n[120],
            n[129],
        ],
        [0, 0, 0, 0]
    );
}
