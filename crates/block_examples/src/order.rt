//! A block with two faults answers the earlier.
use crate::made::{
    EVENT, LINK, NONE, Placed, ROW, at, put_header, put_row, refusal, row_of, whole,
};
use lent_bytes::fields::Number;
use lent_bytes::memory::{part, write};
use std::cmp::Ordering;
use std::test::Fail;

// The length, the header and the layout, then the texts, each with all that come later.
#[test]
fn frame(rt: HostRuntime) -> Result<(), Fail> {
    let mut v = vec![in rt.alloc(); 0u8; 65537]?;
    let m = &mut v[..];
    put_header(m, 1, 65536);
    write(m, 10, &[6]);
    256u32.put(m, 84);
    write(m, 120, &[7]);
    assert_eq!(rt; refusal(m), whole(1));
    assert_eq!(rt; refusal(part(m, 0, 119)), whole(1));
    assert_eq!(rt; refusal(part(m, 0, 65536)), whole(2));
    write(m, 10, &[1]);
    assert_eq!(rt; refusal(part(m, 0, 65536)), whole(3));
    1000u32.put(m, 12);
    assert_eq!(rt; refusal(part(m, 0, 65536)), at(4, NONE, 1));
    255u32.put(m, 84);
    assert_eq!(rt; refusal(part(m, 0, 65536)), at(6, 0, 2));
    Ok(())
}

// Where the place of each header text stands.
const FIELDS: [usize; 5] = [80, 88, 96, 104, 112];

/// Header texts of bytes that are not UTF-8, and a row of no list: those before `field` are empty.
fn put_lengths(m: &mut [u8], field: usize, length: u32, later: u32) {
    put_header(m, 1, 1500);
    write(m, 120, &[7]);
    write(m, 144, b"\xff");
    for other in FIELDS {
        let n = match other.cmp(&field) {
            Ordering::Less => 0,
            Ordering::Equal => length,
            Ordering::Greater => later,
        };
        n.put(m, other.saturating_add(4));
    }
}

// Of a header text its length before its bytes, and both before the next text; then the rows.
#[test]
fn texts(rt: HostRuntime) {
    let mut m = [0u8; 2000];
    for field in FIELDS {
        put_lengths(&mut m, field, 1025, 1);
        assert_eq!(rt; refusal(&m), at(4, NONE, 1), "at {field}");
        put_lengths(&mut m, field, 1, 1025);
        assert_eq!(rt; refusal(&m), at(5, NONE, 1), "at {field}");
    }
    put_lengths(&mut m, 120, 0, 0);
    assert_eq!(rt; refusal(&m), at(6, 0, 2));
}

/// A row whose list, key and value are all at fault.
const BAD: Placed = Placed {
    list: 7,
    kind: 9,
    key: 600,
    key_length: 256,
    value: 600,
    value_length: 2,
};

// The list, the key's place, its bytes and the value of a row; and the row before all rows behind it.
#[test]
fn row(rt: HostRuntime) {
    let mut m = [0u8; 1000];
    put_header(&mut m, 2, 600);
    write(&mut m, 168, b"\xff\xffk");
    put_row(&mut m, 1, BAD);
    put_row(&mut m, 0, BAD);
    assert_eq!(rt; refusal(&m), at(6, 0, 2));
    put_row(&mut m, 0, Placed { list: 4, ..BAD });
    assert_eq!(rt; refusal(&m), at(6, 0, 2));
    let bad = Placed { list: 0, ..BAD };
    put_row(&mut m, 0, bad);
    assert_eq!(rt; refusal(&m), at(7, 0, 2));
    // Too long, and its bytes are not UTF-8.
    put_row(&mut m, 0, Placed { key: 0, ..bad });
    assert_eq!(rt; refusal(&m), at(7, 0, 2));
    let bad = Placed {
        key: 0,
        key_length: 2,
        ..bad
    };
    put_row(&mut m, 0, bad);
    assert_eq!(rt; refusal(&m), at(5, 0, 2));
    let bad = Placed {
        key: 2,
        key_length: 1,
        ..bad
    };
    put_row(&mut m, 0, bad);
    assert_eq!(rt; refusal(&m), at(8, 0, 3));
    put_row(&mut m, 0, ROW);
    write(&mut m, 168, b"kv");
    assert_eq!(rt; refusal(&m), at(6, 1, 2));
}

// The key of an event and of a link before the rest.
#[test]
fn owners(rt: HostRuntime) {
    let mut m = [0u8; 1000];
    for (row, most) in [(EVENT, 255), (LINK, 512)] {
        put_header(&mut m, 1, 600);
        write(&mut m, 144, b"\xff");
        let bad = Placed { kind: 1, ..row };
        put_row(
            &mut m,
            0,
            Placed {
                key_length: most,
                ..bad
            },
        );
        assert_eq!(rt; refusal(&m), at(5, 0, 2));
        put_row(&mut m, 0, Placed { key: 601, ..bad });
        assert_eq!(rt; refusal(&m), at(7, 0, 2));
        put_row(&mut m, 0, Placed { key: 1, ..bad });
        assert_eq!(rt; refusal(&m), at(8, 0, 3));
    }
}

/// An attribute of the resource whose display text is a byte too long.
const LONG: Placed = Placed {
    list: 1,
    value: 10,
    value_length: 4097,
    ..ROW
};

// Of a value its form, its bytes and its display text, and then a key that the resource has.
#[test]
fn value(rt: HostRuntime) -> Result<(), Fail> {
    let mut v = vec![in rt.alloc(); 0u8; 5000]?;
    let m = &mut v[..];
    put_header(m, 3, 4200);
    put_row(m, 0, row_of(1));
    put_row(m, 1, LONG);
    put_row(m, 2, BAD);
    write(m, 300, b"\xff");
    // The time of an attribute is not zero.
    1i64.put(m, 160);
    assert_eq!(rt; refusal(m), at(8, 1, 3));
    0i64.put(m, 160);
    assert_eq!(rt; refusal(m), at(5, 1, 3));
    write(m, 300, b"a");
    assert_eq!(rt; refusal(m), at(9, 1, 3));
    put_row(
        m,
        1,
        Placed {
            value_length: 4096,
            ..LONG
        },
    );
    assert_eq!(rt; refusal(m), at(10, 1, 2));
    put_row(
        m,
        1,
        Placed {
            key: 1,
            ..row_of(1)
        },
    );
    write(m, 193, b"k");
    assert_eq!(rt; refusal(m), at(6, 2, 2));
    Ok(())
}
