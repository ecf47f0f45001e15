//! How many rows a list has, and what owns them.
use crate::made::{at, put_ascii, put_header, put_row, put_rows, refusal, row_of};
use lent_bytes::fields::Number;
use std::test::Fail;

// 128 rows of each list that has no owner; one more is refused.
#[test]
fn plain_lists(rt: HostRuntime) -> Result<(), Fail> {
    let mut v = vec![in rt.alloc(); 0u8; 4096]?;
    let m = &mut v[..];
    for list in [0, 1, 2, 3, 5] {
        put_header(m, 129, 128);
        put_ascii(m);
        put_rows(m, 0..129, list);
        assert_eq!(rt; refusal(m), at(6, 128, 2), "list {list}");
        128u16.put(m, 2);
        assert_eq!(rt; refusal(m), at(0, 0, 0), "list {list}");
    }
    Ok(())
}

// 128 attributes under each of two events, and of two links; one more under either is refused.
#[test]
fn owned_lists(rt: HostRuntime) -> Result<(), Fail> {
    let mut v = vec![in rt.alloc(); 0u8; 7000]?;
    let m = &mut v[..];
    for (owner, list) in [(3, 4), (5, 6)] {
        put_header(m, 259, 128);
        put_ascii(m);
        put_rows(m, 0..259, list);
        put_rows(m, 0..1, owner);
        put_rows(m, 129..130, owner);
        assert_eq!(rt; refusal(m), at(6, 258, 2), "list {list}");
        258u16.put(m, 2);
        assert_eq!(rt; refusal(m), at(0, 0, 0), "list {list}");
        put_rows(m, 129..130, list);
        assert_eq!(rt; refusal(m), at(6, 129, 2), "list {list}");
    }
    Ok(())
}

// An owner of the other kind begins no new count, and owns nothing.
#[test]
fn other_owners(rt: HostRuntime) -> Result<(), Fail> {
    let mut v = vec![in rt.alloc(); 0u8; 4096]?;
    let m = &mut v[..];
    for (owner, other, list) in [(3, 5, 4), (5, 3, 6)] {
        put_header(m, 131, 128);
        put_ascii(m);
        put_rows(m, 0..131, list);
        put_rows(m, 0..1, owner);
        put_rows(m, 70..71, other);
        assert_eq!(rt; refusal(m), at(6, 130, 2), "list {list}");
        130u16.put(m, 2);
        assert_eq!(rt; refusal(m), at(0, 0, 0), "list {list}");
        put_rows(m, 0..1, other);
        assert_eq!(rt; refusal(m), at(6, 1, 2), "list {list}");
    }
    Ok(())
}

// The numbers that name a list, and those that name none; lists 4 and 6 have no owner here.
#[test]
fn list_numbers(rt: HostRuntime) {
    let mut m = [0u8; 200];
    for (list, number) in [
        (0, 0),
        (1, 0),
        (2, 0),
        (3, 0),
        (4, 6),
        (5, 0),
        (6, 6),
        (7, 6),
        (255, 6),
    ] {
        put_header(&mut m, 1, 26);
        put_row(&mut m, 0, row_of(list));
        assert_eq!(rt; refusal(&m), at(number, 0, 2), "list {list}");
    }
}

// One key twice in each list: the resource alone refuses it.
#[test]
fn keys_twice(rt: HostRuntime) {
    let mut m = [0u8; 300];
    for (list, number) in [(0, 0), (1, 10), (2, 0), (3, 0), (4, 0), (5, 0), (6, 0)] {
        put_header(&mut m, 4, 26);
        put_row(&mut m, 0, row_of(3));
        put_row(&mut m, 1, row_of(5));
        put_row(&mut m, 2, row_of(list));
        put_row(&mut m, 3, row_of(list));
        assert_eq!(rt; refusal(&m), at(number, 3, 2), "list {list}");
    }
}
