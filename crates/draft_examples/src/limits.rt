//! Calls at each limit.
use crate::made::{event, last_number, link, rename, set, start_of, status, text};
use drafts::call::Call;

fn number(call: Call<'_>) -> u8 {
    let mut m = [7u8; 5000];
    last_number(&mut m, &start_of(4), &[call])
}

#[test]
fn keys(rt: HostRuntime) {
    assert_eq!(rt;
        [
            number(set(0, b"", b"v")),
            number(set(0, b"k", b"v")),
            number(set(0, text(255), b"v")),
            number(set(0, text(256), b"v")),
            number(set(0, b"\xff", b"v")),
        ],
        [7, 0, 0, 7, 5]
    );
}

#[test]
fn lists(rt: HostRuntime) {
    assert_eq!(rt;
        [
            number(set(1, b"k", b"v")),
            number(set(2, b"k", b"v")),
            number(set(3, b"k", b"v")),
            number(set(4, b"k", b"v")),
            number(set(5, b"k", b"v")),
            number(set(6, b"k", b"v")),
            number(set(7, b"k", b"v")),
        ],
        [0, 0, 20, 21, 20, 21, 20]
    );
}

fn value_number(kind: u8, value: &[u8]) -> u8 {
    number(Call::Set {
        list: 0,
        key: b"k",
        kind,
        value,
    })
}

#[test]
fn values(rt: HostRuntime) {
    assert_eq!(rt;
        [
            value_number(0, b"\x01"),
            value_number(0, b"\x02"),
            value_number(1, b"1234567"),
            value_number(2, b"12345678"),
            value_number(2, b"123456780"),
            value_number(3, b"\xff"),
            value_number(8, b""),
            value_number(3, text(4096)),
            value_number(3, text(4097)),
        ],
        [0, 8, 8, 8, 0, 5, 8, 0, 9]
    );
}

#[test]
fn events(rt: HostRuntime) {
    assert_eq!(rt;
        [
            number(event(b"")),
            number(event(text(255))),
            number(event(text(256))),
            number(event(b"\xff")),
            number(Call::Event {
                title: text(255),
                time: -1,
            }),
        ],
        [0, 0, 4, 5, 0]
    );
}

#[test]
fn links(rt: HostRuntime) {
    assert_eq!(rt;
        [
            number(link(b"", 24)),
            number(link(b"", 25)),
            number(link(b"", 26)),
            number(link(text(512), 25)),
            number(link(text(513), 25)),
            number(link(b"\xff", 0)),
        ],
        [8, 0, 8, 0, 4, 5]
    );
}

#[test]
fn statuses(rt: HostRuntime) {
    assert_eq!(rt;
        [
            number(status(0, text(2000))),
            number(status(1, text(2000))),
            number(status(2, text(1024))),
            number(status(2, text(1025))),
            number(status(2, b"\xff")),
            number(status(3, b"")),
        ],
        [1, 0, 0, 4, 5, 24]
    );
}

#[test]
fn names(rt: HostRuntime) {
    assert_eq!(rt;
        [
            number(rename(b"")),
            number(rename(text(255))),
            number(rename(text(256))),
            number(rename(b"\xff")),
        ],
        [0, 0, 4, 5]
    );
}
