//! One below, at and above each limit.
use crate::made::{NONE, Placed, ROW, put_header, put_row, refusal};
use lent_bytes::fields::Number;
use lent_bytes::memory::write;
use std::test::Fail;

#[test]
fn lengths(rt: HostRuntime) -> Result<(), Fail> {
    let mut v = vec![in rt.alloc(); 0u8; 65537]?;
    let m = &mut v[..];
    put_header(m, 0, 0);
    assert!(rt; m.len() == 65537);
    assert_eq!(rt; refusal(&m[0..119]), (1, NONE, 0));
    assert_eq!(rt; refusal(&m[0..120]), (0, 0, 0));
    assert_eq!(rt; refusal(&m[0..65536]), (0, 0, 0));
    assert_eq!(rt; refusal(m), (1, NONE, 0));
    Ok(())
}

#[test]
fn headers(rt: HostRuntime) {
    let mut m = [0u8; 200];
    put_header(&mut m, 0, 80);
    assert_eq!(rt; refusal(&m), (0, 0, 0));
    81u32.put(&mut m, 12);
    assert_eq!(rt; refusal(&m), (3, NONE, 0));
    put_header(&mut m, 0, 80);
    2u16.put(&mut m, 0);
    assert_eq!(rt; refusal(&m), (2, NONE, 0));
    put_header(&mut m, 0, 80);
    write(&mut m, 10, &[6]);
    assert_eq!(rt; refusal(&m), (2, NONE, 0));
    write(&mut m, 10, &[5, 3]);
    assert_eq!(rt; refusal(&m), (2, NONE, 0));
    write(&mut m, 10, &[5, 2]);
    assert_eq!(rt; refusal(&m), (0, 0, 0));
    write(&mut m, 76, &[0]);
    assert_eq!(rt; refusal(&m), (2, NONE, 0));
    write(&mut m, 76, &[1, 0, 0, 1]);
    assert_eq!(rt; refusal(&m), (2, NONE, 0));
}

// A header text may end where the text used ends, and not one byte past it.
#[test]
fn header_texts(rt: HostRuntime) {
    let mut m = [0u8; 400];
    put_header(&mut m, 0, 256);
    1u32.put(&mut m, 80);
    255u32.put(&mut m, 84);
    assert_eq!(rt; refusal(&m), (0, 0, 0));
    2u32.put(&mut m, 80);
    assert_eq!(rt; refusal(&m), (4, NONE, 1));
    0u32.put(&mut m, 80);
    256u32.put(&mut m, 84);
    assert_eq!(rt; refusal(&m), (4, NONE, 1));
    255u32.put(&mut m, 84);
    write(&mut m, 120, b"\xff");
    assert_eq!(rt; refusal(&m), (5, NONE, 1));
}

#[test]
fn rows_of_a_list(rt: HostRuntime) -> Result<(), Fail> {
    let mut v = vec![in rt.alloc(); 0u8; 4096]?;
    let m = &mut v[..];
    put_header(m, 129, 2);
    for i in 0..128u16 {
        put_row(m, i, ROW);
    }
    put_row(m, 128, Placed { list: 2, ..ROW });
    assert_eq!(rt; refusal(m), (0, 0, 0));
    put_row(m, 128, ROW);
    assert_eq!(rt; refusal(m), (6, 128, 2));
    Ok(())
}

#[test]
fn lists_and_owners(rt: HostRuntime) {
    let mut m = [0u8; 200];
    put_header(&mut m, 2, 2);
    put_row(&mut m, 0, ROW);
    put_row(&mut m, 1, Placed { list: 4, ..ROW });
    assert_eq!(rt; refusal(&m), (6, 1, 2));
    put_row(
        &mut m,
        0,
        Placed {
            list: 3,
            kind: 0,
            value: 0,
            value_length: 0,
            ..ROW
        },
    );
    assert_eq!(rt; refusal(&m), (0, 0, 0));
    put_row(&mut m, 1, Placed { list: 6, ..ROW });
    assert_eq!(rt; refusal(&m), (6, 1, 2));
    put_row(&mut m, 1, Placed { list: 7, ..ROW });
    assert_eq!(rt; refusal(&m), (6, 1, 2));
}

#[test]
fn keys_and_values(rt: HostRuntime) {
    let mut m = [0u8; 200];
    put_header(&mut m, 1, 2);
    put_row(
        &mut m,
        0,
        Placed {
            key_length: 0,
            ..ROW
        },
    );
    assert_eq!(rt; refusal(&m), (7, 0, 2));
    put_row(
        &mut m,
        0,
        Placed {
            key_length: 3,
            ..ROW
        },
    );
    assert_eq!(rt; refusal(&m), (7, 0, 2));
    put_row(
        &mut m,
        0,
        Placed {
            value_length: 2,
            ..ROW
        },
    );
    assert_eq!(rt; refusal(&m), (8, 0, 3));
    put_row(&mut m, 0, Placed { kind: 8, ..ROW });
    assert_eq!(rt; refusal(&m), (8, 0, 3));
    put_row(&mut m, 0, ROW);
    write(&mut m, 144, b"\xff");
    assert_eq!(rt; refusal(&m), (5, 0, 2));
    write(&mut m, 144, b"k\xff");
    assert_eq!(rt; refusal(&m), (5, 0, 3));
}

#[test]
fn resource_keys_once(rt: HostRuntime) {
    let mut m = [0u8; 200];
    put_header(&mut m, 2, 3);
    put_row(&mut m, 0, Placed { list: 1, ..ROW });
    put_row(
        &mut m,
        1,
        Placed {
            list: 1,
            key: 1,
            ..ROW
        },
    );
    write(&mut m, 168, b"ab");
    assert_eq!(rt; refusal(&m), (0, 0, 0));
    write(&mut m, 168, b"aa");
    assert_eq!(rt; refusal(&m), (10, 1, 2));
    put_row(&mut m, 0, ROW);
    assert_eq!(rt; refusal(&m), (0, 0, 0));
}
