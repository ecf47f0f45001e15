//! Blocks made for the tests.
use blocks::sdk_span::open;
use lent_bytes::fields::Number;
use lent_bytes::memory::write;
use std::ops::Range;

/// A lawful header for `rows` rows, a capacity of as many, and `used` bytes of text.
pub fn put_header(m: &mut [u8], rows: u16, used: u32) {
    m.fill(0);
    1u16.put(m, 0);
    rows.put(m, 2);
    (120 + 24 * rows as u32).put(m, 4);
    rows.put(m, 8);
    write(m, 10, &[2, 0]);
    used.put(m, 12);
    write(m, 76, &[1]);
}

/// A row of a list with its key; where the key stands, how long it is, and the value behind it.
#[derive(Clone, Copy)]
pub struct Placed {
    pub list: u8,
    pub kind: u8,
    pub key: u32,
    pub key_length: u16,
    pub value: u32,
    pub value_length: u32,
}

/// An attribute of the span: a key of one byte, and a string of one byte.
pub const ROW: Placed = Placed {
    list: 0,
    kind: 3,
    key: 0,
    key_length: 1,
    value: 1,
    value_length: 1,
};

/// An event with a name of one byte.
pub const EVENT: Placed = Placed {
    list: 3,
    kind: 0,
    value: 0,
    value_length: 0,
    ..ROW
};

/// A link with a trace state of one byte, and the first 25 bytes of the text as its value.
pub const LINK: Placed = Placed {
    list: 5,
    kind: 0,
    value: 0,
    value_length: 25,
    ..ROW
};

/// A row that a list takes.
pub fn row_of(list: u8) -> Placed {
    match list {
        3 => EVENT,
        5 => LINK,
        _ => Placed { list, ..ROW },
    }
}

/// Another capacity, and the text offset behind it.
pub fn put_capacity(m: &mut [u8], capacity: u16) {
    (120 + 24 * capacity as u32).put(m, 4);
    capacity.put(m, 8);
}

/// The 128 bytes of ASCII, as the first bytes of the text.
pub fn put_ascii(m: &mut [u8]) {
    let text = u32::read(m, 4) as usize;
    for i in 0..128u8 {
        write(m, text + i as usize, &[i]);
    }
}

/// Rows of a list, each of 128 with a key of its own in the bytes of ASCII.
pub fn put_rows(m: &mut [u8], rows: Range<u16>, list: u8) {
    for i in rows {
        put_row(
            m,
            i,
            Placed {
                key: (i % 128) as u32,
                ..row_of(list)
            },
        );
    }
}

pub fn put_row(m: &mut [u8], i: u16, row: Placed) {
    let at = 120 + 24 * i as usize;
    write(m, at, &[row.list, row.kind]);
    row.key_length.put(m, at + 2);
    row.key.put(m, at + 4);
    row.value_length.put(m, at + 8);
    row.value.put(m, at + 12);
}

/// No row, where a number has to be answered.
pub const NONE: u16 = 65535;

/// What a block is answered that is refused under this number as a whole; zeros where it is accepted.
pub fn whole(number: u8) -> (u8, u16, u8) {
    at(number, NONE, 0)
}

/// What a block is answered that is refused under this number for a row and a part; zeros where it is accepted.
pub fn at(number: u8, row: u16, part: u8) -> (u8, u16, u8) {
    match number {
        0 => (0, 0, 0),
        _ => (number, row, part),
    }
}

/// The number of the refusal, the row and the part; zeros where the block is accepted.
pub fn refusal(m: &[u8]) -> (u8, u16, u8) {
    match open(m) {
        Ok(_) => (0, 0, 0),
        Err(fault) => (
            u8::from(fault),
            fault.row().unwrap_or(NONE),
            u8::from(fault.part()),
        ),
    }
}
