//! The block as a whole, at each limit.
use crate::made::{put_capacity, put_header, put_rows, refusal, whole};
use lent_bytes::fields::Number;
use lent_bytes::memory::write;
use std::test::Fail;

// A capacity of 1,024 rows, and of one more.
#[test]
fn capacities(rt: HostRuntime) -> Result<(), Fail> {
    let mut v = vec![in rt.alloc(); 0u8; 25000]?;
    let m = &mut v[..];
    put_header(m, 0, 0);
    put_capacity(m, 1024);
    assert_eq!(rt; refusal(m), whole(0));
    put_capacity(m, 1025);
    assert_eq!(rt; refusal(m), whole(3));
    Ok(())
}

// 1,024 rows, all of them in use: events, each with seven attributes; then one row more than there is capacity.
#[test]
fn rows_in_use(rt: HostRuntime) -> Result<(), Fail> {
    let mut v = vec![in rt.alloc(); 0u8; 25000]?;
    let m = &mut v[..];
    put_header(m, 1024, 128);
    put_rows(m, 0..1024, 4);
    for event in 0..128u16 {
        put_rows(m, 8 * event..8 * event + 1, 3);
    }
    assert_eq!(rt; refusal(m), whole(0));
    1025u16.put(m, 2);
    assert_eq!(rt; refusal(m), whole(3));
    Ok(())
}

// As many rows as there is capacity, and one more.
#[test]
fn rows_and_capacity(rt: HostRuntime) {
    let mut m = [0u8; 300];
    put_header(&mut m, 2, 26);
    put_rows(&mut m, 0..2, 0);
    assert_eq!(rt; refusal(&m), whole(0));
    3u16.put(&mut m, 2);
    assert_eq!(rt; refusal(&m), whole(3));
    1u16.put(&mut m, 2);
    assert_eq!(rt; refusal(&m), whole(0));
}

// The text offset is that of the capacity: one byte less and one more are refused, and other rows.
#[test]
fn text_offsets(rt: HostRuntime) {
    let mut m = [0u8; 300];
    for (offset, number) in [(0u32, 3), (120, 3), (143, 3), (144, 0), (145, 3), (168, 3)] {
        put_header(&mut m, 0, 0);
        put_capacity(&mut m, 1);
        offset.put(&mut m, 4);
        assert_eq!(rt; refusal(&m), whole(number), "offset {offset}");
    }
}

// The text used ends where the block ends, and not one byte past it; no sum wraps.
#[test]
fn texts_used(rt: HostRuntime) {
    let mut m = [0u8; 300];
    for (used, number) in [
        (0u32, 0),
        (156, 0),
        (157, 3),
        (u32::MAX, 3),
        (u32::MAX - 143, 3),
    ] {
        put_header(&mut m, 0, used);
        put_capacity(&mut m, 1);
        assert_eq!(rt; refusal(&m), whole(number), "used {used}");
    }
}

// A byte of the header that is changed, and the number that is answered: version, kind, status, state, zeros.
#[test]
fn header_bytes(rt: HostRuntime) {
    let mut m = [0u8; 200];
    for (place, byte, number) in [
        (0usize, 0u8, 2),
        (0, 2, 2),
        (1, 1, 2),
        (10, 0, 2),
        (10, 1, 0),
        (10, 5, 0),
        (10, 6, 2),
        (11, 0, 0),
        (11, 2, 0),
        (11, 3, 2),
        (76, 0, 2),
        (76, 1, 0),
        (76, 2, 2),
        (77, 1, 2),
        (78, 1, 2),
        (79, 1, 2),
    ] {
        put_header(&mut m, 0, 80);
        write(&mut m, place, &[byte]);
        assert_eq!(rt; refusal(&m), whole(number), "{byte} at {place}");
    }
}
