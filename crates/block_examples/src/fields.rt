//! The fields of a row at each limit, and those that are not used.
use crate::made::{Placed, ROW, at, put_header, put_row, refusal, row_of};
use lent_bytes::fields::Number;
use lent_bytes::memory::write;
use std::test::Fail;

/// What is answered to an event, a link and a row in this place behind them, in a block with so much text used.
fn answer(m: &mut [u8], row: Placed, used: u32) -> (u8, u16, u8) {
    put_header(m, 3, used);
    put_row(m, 0, row_of(3));
    put_row(m, 1, row_of(5));
    put_row(m, 2, row);
    refusal(m)
}

// The shortest and the longest key, event name and trace state, and a byte less and more.
#[test]
fn key_lengths(rt: HostRuntime) {
    let mut m = [0u8; 900];
    for list in [0, 1, 2, 4, 6] {
        for (key_length, number) in [(0, 7), (1, 0), (255, 0), (256, 7), (65535, 7)] {
            let row = Placed {
                key_length,
                ..row_of(list)
            };
            assert_eq!(rt;
                answer(&mut m, row, 600),
                at(number, 2, 2),
                "{key_length} in {list}"
            );
        }
    }
    for (list, key_length, number) in [
        (3, 0, 0),
        (3, 255, 0),
        (3, 256, 7),
        (5, 0, 0),
        (5, 512, 0),
        (5, 513, 7),
    ] {
        let row = Placed {
            key_length,
            ..row_of(list)
        };
        assert_eq!(rt;
            answer(&mut m, row, 600),
            at(number, 2, 2),
            "{key_length} in {list}"
        );
    }
}

// A key ends where the text used ends, and not one byte past it; no sum wraps.
#[test]
fn key_ends(rt: HostRuntime) {
    let mut m = [0u8; 900];
    for list in [0, 1, 2, 3, 4, 5, 6] {
        for (key, number) in [(345, 0), (346, 7), (u32::MAX, 7), (u32::MAX - 254, 7)] {
            let row = Placed {
                key,
                key_length: 255,
                ..row_of(list)
            };
            assert_eq!(rt;
                answer(&mut m, row, 600),
                at(number, 2, 2),
                "{key} in {list}"
            );
        }
    }
}

// A value ends where the text used ends, and not one byte past it; no sum wraps.
#[test]
fn value_ends(rt: HostRuntime) {
    let mut m = [0u8; 900];
    for list in [0, 1, 2, 4, 5, 6] {
        for (value, number) in [(575, 0), (576, 8), (u32::MAX, 8), (u32::MAX - 24, 8)] {
            let row = Placed {
                value,
                value_length: 25,
                ..row_of(list)
            };
            assert_eq!(rt;
                answer(&mut m, row, 600),
                at(number, 2, 3),
                "{value} in {list}"
            );
        }
    }
}

// A link's value has 25 bytes, an event has none.
#[test]
fn value_lengths(rt: HostRuntime) {
    let mut m = [0u8; 900];
    for (list, value_length, number) in [
        (5, 0, 8),
        (5, 24, 8),
        (5, 25, 0),
        (5, 26, 8),
        (3, 0, 0),
        (3, 1, 8),
        (3, 25, 8),
    ] {
        let row = Placed {
            value_length,
            ..row_of(list)
        };
        assert_eq!(rt;
            answer(&mut m, row, 600),
            at(number, 2, 3),
            "{value_length} in {list}"
        );
    }
}

// A byte of a row that is not zero: the kind (1), the value's place (12) and the time (16 to 23).
#[test]
fn unused_fields(rt: HostRuntime) {
    let mut m = [0u8; 900];
    for (list, field, number) in [
        (3, 1u8, 8),
        (3, 12, 8),
        (3, 15, 8),
        (3, 16, 0),
        (3, 23, 0),
        (5, 1, 8),
        (5, 12, 0),
        (5, 16, 8),
        (5, 23, 8),
        (0, 16, 8),
        (1, 16, 8),
        (2, 16, 8),
        (4, 16, 8),
        (6, 16, 8),
        (0, 23, 8),
        (6, 23, 8),
    ] {
        let _ = answer(&mut m, row_of(list), 600);
        write(&mut m, 168 + field as usize, &[255]);
        assert_eq!(rt; refusal(&m), at(number, 2, 3), "{field} in {list}");
    }
}

// No kind from 8 on.
#[test]
fn kinds(rt: HostRuntime) {
    let mut m = [0u8; 900];
    for (kind, number) in [(0, 0), (3, 0), (7, 8), (8, 8), (255, 8)] {
        assert_eq!(rt;
            answer(&mut m, Placed { kind, ..ROW }, 600),
            at(number, 2, 3),
            "kind {kind}"
        );
    }
}

/// What is answered to an attribute of so many zeros, or to an array of one string of so many zeros behind its length.
fn display_answer(m: &mut [u8], kind: u8, length: u16) -> (u8, u16, u8) {
    let behind = if kind == 7 { 2 } else { 0 };
    let row = Placed {
        kind,
        value: 30,
        value_length: length as u32 + behind,
        ..ROW
    };
    let _ = answer(m, row, 4200);
    if kind == 7 {
        length.put(m, 222);
    }
    refusal(m)
}

// A display text of 4,096 bytes, and of 4,097: a string, and a string in an array, which has brackets and quotes.
#[test]
fn display_texts(rt: HostRuntime) -> Result<(), Fail> {
    let mut v = vec![in rt.alloc(); 0u8; 5000]?;
    let m = &mut v[..];
    for (kind, length, number) in [(3, 4096, 0), (3, 4097, 9), (7, 4092, 0), (7, 4093, 9)] {
        assert_eq!(rt;
            display_answer(m, kind, length),
            at(number, 2, 3),
            "{length} of {kind}"
        );
    }
    Ok(())
}
