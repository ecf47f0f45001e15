//! Questions by list, and on the attributes of events and links.
use crate::made::{Placed, put_header, put_row};
use blocks::lists::{List, Owner, PlainList};
use blocks::questions::QuestionFault;
use blocks::row::Row;
use blocks::sdk_span::SdkSpan;
use lent_bytes::memory::{byte, write};
use std::test::Fail;

// The lists of the rows: an attribute of no event comes first, which open refuses and the questions pass over. A
// link stands between the attributes of the first event, the second event has none, the third is the last.
const LISTS: [u8; 12] = [4, 0, 3, 4, 5, 4, 3, 6, 1, 3, 4, 4];

// Each row's key is one byte, the letter at its number, and a link's value the first 25 letters.
fn put_items(m: &mut [u8]) {
    put_header(m, 12, 26);
    for i in 0..12u16 {
        let list = byte(&LISTS, i as usize);
        let row = Placed {
            list,
            kind: 0,
            key: i as u32,
            key_length: 1,
            value: 0,
            value_length: 25,
        };
        put_row(m, i, row);
    }
    write(m, 408, b"abcdefghijklmnopqrstuvwxyz");
}

// The letter of the row that is answered, or the number of the refusal.
fn letter(answer: Result<Row<'_>, QuestionFault>) -> u8 {
    match answer {
        Ok(row) => byte(row.key, 0),
        Err(fault) => u8::from(fault),
    }
}

fn count(answer: Result<u16, QuestionFault>) -> u16 {
    match answer {
        Ok(n) => n,
        Err(fault) => u8::from(fault) as u16,
    }
}

#[test]
fn counts_and_attributes(rt: HostRuntime) {
    let mut m = [0u8; 500];
    put_items(&mut m);
    let span = SdkSpan::of_ended(&m);
    assert_eq!(rt; span.count(List::Span), 1);
    assert_eq!(rt; span.count(List::Scope), 0);
    assert_eq!(rt; span.count(List::Event), 3);
    assert_eq!(rt; span.count(List::EventAttribute), 5);
    assert_eq!(rt; span.count(List::LinkAttribute), 1);
    assert_eq!(rt; letter(span.attribute(PlainList::Span, 0)), b'b');
    assert_eq!(rt; letter(span.attribute(PlainList::Span, 1)), 40);
    assert_eq!(rt; letter(span.attribute(PlainList::Resource, 0)), b'i');
    assert_eq!(rt; letter(span.attribute(PlainList::Scope, 0)), 40);
    assert_eq!(rt; letter(span.row(11)), b'l');
    assert_eq!(rt; letter(span.row(12)), 40);
}

#[test]
fn events_and_attributes(rt: HostRuntime) {
    let mut m = [0u8; 500];
    put_items(&mut m);
    let span = SdkSpan::of_ended(&m);
    assert_eq!(rt; letter(span.owner(Owner::Event, 0)), b'c');
    assert_eq!(rt; letter(span.owner(Owner::Event, 2)), b'j');
    assert_eq!(rt; letter(span.owner(Owner::Event, 3)), 40);
    assert_eq!(rt; count(span.owned_count(Owner::Event, 0)), 2);
    assert_eq!(rt; count(span.owned_count(Owner::Event, 1)), 0);
    assert_eq!(rt; count(span.owned_count(Owner::Event, 2)), 2);
    assert_eq!(rt; count(span.owned_count(Owner::Event, 3)), 40);
}

#[test]
fn attributes_under_events(rt: HostRuntime) {
    let mut m = [0u8; 500];
    put_items(&mut m);
    let span = SdkSpan::of_ended(&m);
    assert_eq!(rt; letter(span.owned(Owner::Event, 0, 0)), b'd');
    assert_eq!(rt; letter(span.owned(Owner::Event, 0, 1)), b'f');
    assert_eq!(rt; letter(span.owned(Owner::Event, 0, 2)), 40);
    assert_eq!(rt; letter(span.owned(Owner::Event, 1, 0)), 40);
    assert_eq!(rt; letter(span.owned(Owner::Event, 2, 1)), b'l');
    assert_eq!(rt; letter(span.owned(Owner::Event, 2, 2)), 40);
    assert_eq!(rt; letter(span.owned(Owner::Event, 3, 0)), 40);
}

#[test]
fn links_and_ids(rt: HostRuntime) -> Result<(), Fail> {
    let mut m = [0u8; 500];
    put_items(&mut m);
    let span = SdkSpan::of_ended(&m);
    assert_eq!(rt; count(span.owned_count(Owner::Link, 0)), 1);
    assert_eq!(rt; count(span.owned_count(Owner::Link, 1)), 40);
    assert_eq!(rt; letter(span.owned(Owner::Link, 0, 0)), b'h');
    assert_eq!(rt; letter(span.owned(Owner::Link, 0, 1)), 40);
    assert_eq!(rt; letter(span.owner(Owner::Link, 1)), 40);
    let Ok(link) = span.owner(Owner::Link, 0) else {
        return Err(Fail::new("no link"));
    };
    let ids = link.link_ids();
    assert_eq!(rt; ids.trace_id_high, 0x6162_6364_6566_6768);
    assert_eq!(rt; ids.trace_id_low, 0x696a_6b6c_6d6e_6f70);
    assert_eq!(rt; ids.span_id, 0x7172_7374_7576_7778);
    assert_eq!(rt; ids.flags, b'y');
    Ok(())
}

#[test]
fn nothing_in_an_empty_span(rt: HostRuntime) {
    let span = SdkSpan::of_ended(b"");
    assert_eq!(rt; span.count(List::Span), 0);
    assert_eq!(rt; letter(span.row(0)), 40);
    assert_eq!(rt; letter(span.attribute(PlainList::Span, 0)), 40);
    assert_eq!(rt; letter(span.owner(Owner::Event, 0)), 40);
    assert_eq!(rt; count(span.owned_count(Owner::Event, 0)), 40);
    assert_eq!(rt; letter(span.owned(Owner::Link, 0, 0)), 40);
}
