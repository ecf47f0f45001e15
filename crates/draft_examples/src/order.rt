//! Where two refusals hold, the first is answered.
use crate::made::{
    broken, event, fill_list, last_number, link, rename, set, start_of, status, text,
};
use drafts::call::Call;
use drafts::draft::Draft;
use drafts::refusal::answer_number;
use std::test::Fail;

/// A value of a kind under a key of a list.
fn kinded<'t>(list: u8, key: &'t [u8], kind: u8, value: &'t [u8]) -> Call<'t> {
    Call::Set {
        list,
        key,
        kind,
        value,
    }
}

// In memory with no row and no room: the list, the owner, the key's length and its bytes, the value's form, its bytes
// and its display text, the rows. An array of strings is looked at in every element first.
#[test]
fn sets(rt: HostRuntime) {
    let mut m = [7u8; 120];
    let start = start_of(0);
    assert_eq!(rt;
        [
            last_number(&mut m, &start, &[kinded(3, b"", 9, b"\xff")]),
            last_number(&mut m, &start, &[kinded(7, b"", 9, b"\xff")]),
            last_number(&mut m, &start, &[kinded(4, b"", 9, b"\xff")]),
            last_number(&mut m, &start, &[kinded(6, b"", 9, b"\xff")]),
            last_number(&mut m, &start, &[kinded(0, b"", 9, b"\xff")]),
            last_number(&mut m, &start, &[kinded(0, broken(256), 9, b"\xff")]),
            last_number(&mut m, &start, &[kinded(0, b"\xff", 9, b"\xff")]),
            last_number(&mut m, &start, &[kinded(0, b"k", 7, b"\x01\0\xff\x05")]),
            last_number(&mut m, &start, &[kinded(0, b"k", 7, b"\x01\0\xff")]),
            last_number(&mut m, &start, &[set(0, b"k", broken(4097))]),
            last_number(&mut m, &start, &[set(0, b"k", text(4097))]),
            last_number(&mut m, &start, &[set(0, b"k", b"v")]),
        ],
        [20, 20, 21, 21, 7, 7, 5, 8, 5, 5, 9, 23]
    );
}

// In the same memory: a text's length and its bytes, a link's value, the rows; a status that there is not, and room.
#[test]
fn others(rt: HostRuntime) {
    let mut m = [7u8; 120];
    let start = start_of(0);
    assert_eq!(rt;
        [
            last_number(&mut m, &start, &[event(broken(256))]),
            last_number(&mut m, &start, &[event(b"\xff")]),
            last_number(&mut m, &start, &[event(b"e")]),
            last_number(&mut m, &start, &[link(broken(513), 24)]),
            last_number(&mut m, &start, &[link(b"\xff", 24)]),
            last_number(&mut m, &start, &[link(b"", 24)]),
            last_number(&mut m, &start, &[link(b"", 25)]),
            last_number(&mut m, &start, &[status(3, broken(1025))]),
            last_number(&mut m, &start, &[status(1, b""), status(3, broken(1025))]),
            last_number(&mut m, &start, &[status(2, broken(1025))]),
            last_number(&mut m, &start, &[status(2, b"\xff")]),
            last_number(&mut m, &start, &[status(2, b"d")]),
            last_number(&mut m, &start, &[status(1, broken(1025))]),
            last_number(&mut m, &start, &[status(0, broken(1025))]),
            last_number(&mut m, &start, &[rename(broken(256))]),
            last_number(&mut m, &start, &[rename(b"\xff")]),
            last_number(&mut m, &start, &[rename(b"n")]),
        ],
        [4, 5, 23, 4, 5, 8, 23, 24, 24, 4, 5, 13, 0, 1, 4, 5, 13]
    );
}

// Memory that 128 attributes of the span fill, rows and text: the value, the list, the rows, and room for a held key.
#[test]
fn full_of_attributes(rt: HostRuntime) -> Result<(), Fail> {
    let mut m = [7u8; 3576];
    let Ok(draft) = Draft::start(&mut m, &start_of(128)) else {
        assert!(rt; false);
        return Ok(());
    };
    let mut draft = draft;
    let last = fill_list(&mut draft, 0, 128);
    let numbers = [
        answer_number(draft.set(0, b"", 3, text(4097))),
        answer_number(draft.set(0, b"zz", 3, text(4097))),
        answer_number(draft.set(0, b"zz", 3, b"v")),
        answer_number(draft.set(1, b"zz", 3, b"v")),
        answer_number(draft.event(b"e", 11)),
        answer_number(draft.set(0, b"aa", 3, b"v")),
        answer_number(draft.set(0, b"aa", 3, b"")),
    ];
    draft.discard();
    assert_eq!(rt; last, 0);
    assert_eq!(rt; numbers, [7, 9, 22, 23, 23, 13, 0]);
    Ok(())
}

// Memory that 128 events fill: the name, the list, the rows.
#[test]
fn full_of_events(rt: HostRuntime) -> Result<(), Fail> {
    let mut m = [7u8; 3192];
    let Ok(draft) = Draft::start(&mut m, &start_of(128)) else {
        assert!(rt; false);
        return Ok(());
    };
    let mut draft = draft;
    for _ in 0..128 {
        let _ = draft.event(b"", 11);
    }
    let events = [
        answer_number(draft.event(broken(256), 11)),
        answer_number(draft.event(b"\xff", 11)),
        answer_number(draft.event(b"e", 11)),
        answer_number(draft.link(b"l", text(25))),
    ];
    draft.discard();
    assert_eq!(rt; events, [4, 5, 22, 23]);
    Ok(())
}

// Memory that 128 links fill: the trace state, the value, the list, the rows.
#[test]
fn full_of_links(rt: HostRuntime) -> Result<(), Fail> {
    let mut m = [7u8; 6392];
    let Ok(draft) = Draft::start(&mut m, &start_of(128)) else {
        assert!(rt; false);
        return Ok(());
    };
    let mut draft = draft;
    for _ in 0..128 {
        let _ = draft.link(b"", text(25));
    }
    let links = [
        answer_number(draft.link(broken(513), text(24))),
        answer_number(draft.link(b"\xff", text(24))),
        answer_number(draft.link(b"l", text(24))),
        answer_number(draft.link(b"l", text(25))),
        answer_number(draft.event(b"e", 11)),
    ];
    draft.discard();
    assert_eq!(rt; links, [4, 5, 8, 22, 23]);
    Ok(())
}
