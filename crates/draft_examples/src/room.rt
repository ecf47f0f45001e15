//! Room for text and rows.
use crate::made::{event, last_number, link, rename, set, start_of, status};

// Memory for one row and four bytes of text: exactly full, and a byte more. Of a key that is held only the value counts.
#[test]
fn text_of_sets(rt: HostRuntime) {
    let mut m = [7u8; 148];
    let start = start_of(1);
    assert_eq!(rt;
        [
            last_number(&mut m, &start, &[set(0, b"k", b"abc")]),
            last_number(&mut m, &start, &[set(0, b"k", b"abcd")]),
            last_number(&mut m, &start, &[set(0, b"k", b"a"), set(0, b"k", b"bc")]),
            last_number(&mut m, &start, &[set(0, b"k", b"a"), set(0, b"k", b"bcd")]),
        ],
        [0, 13, 0, 13]
    );
}

// The same memory for a name of an event, a name of the span and a description.
#[test]
fn text_of_others(rt: HostRuntime) {
    let mut m = [7u8; 148];
    let start = start_of(1);
    assert_eq!(rt;
        [
            last_number(&mut m, &start, &[event(b"abcd")]),
            last_number(&mut m, &start, &[event(b"abcde")]),
            last_number(&mut m, &start, &[rename(b"abcd")]),
            last_number(&mut m, &start, &[rename(b"abcde")]),
            last_number(&mut m, &start, &[status(2, b"abcd")]),
            last_number(&mut m, &start, &[status(2, b"abcde")]),
        ],
        [0, 13, 0, 13, 0, 13]
    );
}

// A link's trace state and its value of 25 bytes together.
#[test]
fn text_of_links(rt: HostRuntime) {
    let mut m = [7u8; 171];
    let start = start_of(1);
    assert_eq!(rt;
        [
            last_number(&mut m, &start, &[link(b"ab", 25)]),
            last_number(&mut m, &start, &[link(b"abc", 25)]),
        ],
        [0, 13]
    );
}

// In memory with no room for text: an event with no name, no name of the span, Ok, and Error with no description.
#[test]
fn no_text(rt: HostRuntime) {
    let mut m = [7u8; 144];
    let start = start_of(1);
    assert_eq!(rt;
        [
            last_number(&mut m, &start, &[event(b"")]),
            last_number(&mut m, &start, &[rename(b"")]),
            last_number(&mut m, &start, &[status(1, b"long")]),
            last_number(&mut m, &start, &[status(2, b"")]),
            last_number(&mut m, &start, &[status(0, b"long")]),
        ],
        [0, 0, 0, 0, 1]
    );
}

// The only row is in use: no other key, but the same one; events and links neither.
#[test]
fn rows(rt: HostRuntime) {
    let mut m = [7u8; 300];
    let start = start_of(1);
    let first = set(0, b"k", b"v");
    assert_eq!(rt;
        [
            last_number(&mut m, &start, &[first, set(0, b"l", b"v")]),
            last_number(&mut m, &start, &[first, set(1, b"k", b"v")]),
            last_number(&mut m, &start, &[first, set(0, b"k", b"w")]),
            last_number(&mut m, &start, &[first, event(b"e")]),
            last_number(&mut m, &start, &[first, link(b"", 25)]),
        ],
        [23, 23, 0, 23, 23]
    );
}
