//! Header texts at each limit.
use crate::made::{NONE, at, put_header, refusal};
use lent_bytes::fields::Number;
use lent_bytes::memory::write;

// Where the place of each header text stands, and how long it may be: name, trace state, scope name, scope version,
// description.
const TEXTS: [(usize, u16); 5] = [(80, 255), (88, 512), (96, 255), (104, 255), (112, 1024)];

/// What is answered where a header text has this place and length, in a block with so much text used.
fn answer(field: usize, place: u32, length: u32, used: u32) -> (u8, u16, u8) {
    let mut m = [0u8; 1400];
    put_header(&mut m, 0, used);
    place.put(&mut m, field);
    length.put(&mut m, field.saturating_add(4));
    refusal(&m)
}

// Each text at its limit, and a byte longer.
#[test]
fn longest(rt: HostRuntime) {
    for (field, most) in TEXTS {
        let most = most as u32;
        assert_eq!(rt; answer(field, 0, most, 1200), at(0, NONE, 1), "at {field}");
        assert_eq!(rt;
            answer(field, 0, most + 1, 1200),
            at(4, NONE, 1),
            "at {field}"
        );
        assert_eq!(rt;
            answer(field, 0, u32::MAX, 1200),
            at(4, NONE, 1),
            "at {field}"
        );
    }
}

// A text ends where the text used ends, and not one byte past it, an empty one neither; no sum wraps.
#[test]
fn ends(rt: HostRuntime) {
    for (field, most) in TEXTS {
        let most = most as u32;
        assert_eq!(rt;
            answer(field, 7, most, most + 7),
            at(0, NONE, 1),
            "at {field}"
        );
        assert_eq!(rt;
            answer(field, 8, most, most + 7),
            at(4, NONE, 1),
            "at {field}"
        );
        assert_eq!(rt; answer(field, 9, 0, 9), at(0, NONE, 1), "at {field}");
        assert_eq!(rt; answer(field, 10, 0, 9), at(4, NONE, 1), "at {field}");
        assert_eq!(rt; answer(field, u32::MAX, 1, 9), at(4, NONE, 1), "at {field}");
    }
}

// Each text with a byte that is not UTF-8, and with one beside it.
#[test]
fn not_utf8(rt: HostRuntime) {
    for (field, _) in TEXTS {
        let mut m = [0u8; 200];
        put_header(&mut m, 0, 80);
        7u32.put(&mut m, field);
        2u32.put(&mut m, field.saturating_add(4));
        write(&mut m, 126, b"\xffab\xff");
        assert_eq!(rt; refusal(&m), at(0, NONE, 1), "at {field}");
        write(&mut m, 128, b"\xff");
        assert_eq!(rt; refusal(&m), at(5, NONE, 1), "at {field}");
    }
}
