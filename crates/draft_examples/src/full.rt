//! Lists that are full.
use crate::made::{fill_list, start_of, text};
use drafts::draft::Draft;
use drafts::refusal::answer_number;
use std::test::Fail;

// 128 attributes of each list; another is refused, a held key is still replaced, and of the span alone it is counted.
#[test]
fn full_lists(rt: HostRuntime) -> Result<(), Fail> {
    let mut v = vec![in rt.alloc(); 7u8; 12000]?;
    for (list, dropped) in [(0, 1), (1, 0), (2, 0), (4, 0), (6, 0)] {
        let m = &mut v[..];
        let Ok(draft) = Draft::start(m, &start_of(300)) else {
            assert!(rt; false);
            return Ok(());
        };
        let mut draft = draft;
        let _ = draft.event(b"e", 11);
        let _ = draft.link(b"", text(25));
        let last = fill_list(&mut draft, list, 128);
        let more = fill_list(&mut draft, list, 129);
        let again = answer_number(draft.set(list, b"aa", 3, b"w"));
        let span = draft.end(20);
        assert_eq!(rt; [last, more, again], [0, 22, 0], "list {list}");
        assert_eq!(rt;
            (span.dropped_attributes(), span.row_count()),
            (dropped, 130),
            "list {list}"
        );
        assert_eq!(rt;
            (span.dropped_events(), span.dropped_links()),
            (0, 0),
            "list {list}"
        );
    }
    Ok(())
}

// 128 attributes of the span, another that is refused, and behind them as many of the resource: each list is counted by itself.
#[test]
fn full_list(rt: HostRuntime) -> Result<(), Fail> {
    let mut v = vec![in rt.alloc(); 7u8; 12000]?;
    let m = &mut v[..];
    let Ok(draft) = Draft::start(m, &start_of(300)) else {
        assert!(rt; false);
        return Ok(());
    };
    let mut draft = draft;
    let last = fill_list(&mut draft, 0, 128);
    let more = fill_list(&mut draft, 0, 129);
    let again = answer_number(draft.set(0, b"aa", 3, b"w"));
    let other = fill_list(&mut draft, 1, 129);
    let span = draft.end(20);
    assert_eq!(rt; [last, more, again, other], [0, 22, 0, 22]);
    assert_eq!(rt; (span.dropped_attributes(), span.row_count()), (1, 256));
    Ok(())
}

// Each event has 128 attributes of its own; a 129th is refused and not counted.
#[test]
fn full_owner(rt: HostRuntime) -> Result<(), Fail> {
    let mut v = vec![in rt.alloc(); 7u8; 12000]?;
    let m = &mut v[..];
    let Ok(draft) = Draft::start(m, &start_of(300)) else {
        assert!(rt; false);
        return Ok(());
    };
    let mut draft = draft;
    let _ = draft.event(b"first", 11);
    let last = fill_list(&mut draft, 4, 128);
    let more = fill_list(&mut draft, 4, 129);
    let _ = draft.event(b"second", 12);
    let next = fill_list(&mut draft, 4, 128);
    let span = draft.end(20);
    assert_eq!(rt; [last, more, next], [0, 22, 0]);
    assert_eq!(rt; (span.dropped_attributes(), span.row_count()), (0, 258));
    Ok(())
}

/// Adds an event, or a link where its attributes are meant.
fn add_owner(draft: &mut Draft<'_>, list: u8) {
    let _ = match list {
        4 => draft.event(b"e", 11),
        _ => draft.link(b"", text(25)),
    };
}

// Each of two events, and of two links, has 128 attributes of its own; a 129th is refused.
#[test]
fn full_under_two(rt: HostRuntime) -> Result<(), Fail> {
    let mut v = vec![in rt.alloc(); 7u8; 12000]?;
    for list in [4, 6] {
        let m = &mut v[..];
        let Ok(draft) = Draft::start(m, &start_of(300)) else {
            assert!(rt; false);
            return Ok(());
        };
        let mut draft = draft;
        add_owner(&mut draft, list);
        let last = fill_list(&mut draft, list, 128);
        let more = fill_list(&mut draft, list, 129);
        add_owner(&mut draft, list);
        let next = fill_list(&mut draft, list, 128);
        let next_more = fill_list(&mut draft, list, 129);
        let span = draft.end(20);
        assert_eq!(rt;
            [last, more, next, next_more],
            [0, 22, 0, 22],
            "list {list}"
        );
        assert_eq!(rt;
            (span.dropped_attributes(), span.row_count()),
            (0, 258),
            "list {list}"
        );
    }
    Ok(())
}

// 128 events, and 128 links; another of each is refused and counted.
#[test]
fn full_owners(rt: HostRuntime) -> Result<(), Fail> {
    let mut v = vec![in rt.alloc(); 7u8; 12000]?;
    let m = &mut v[..];
    let Ok(draft) = Draft::start(m, &start_of(300)) else {
        assert!(rt; false);
        return Ok(());
    };
    let mut draft = draft;
    let mut event = 255;
    let mut link = 255;
    for _ in 0..128 {
        event = answer_number(draft.event(b"e", 11));
        link = answer_number(draft.link(b"", text(25)));
    }
    let event_more = answer_number(draft.event(b"e", 11));
    let link_more = answer_number(draft.link(b"", text(25)));
    let link_again = answer_number(draft.link(b"", text(25)));
    let span = draft.end(20);
    assert_eq!(rt;
        [event, link, event_more, link_more, link_again],
        [0, 0, 22, 22, 22]
    );
    assert_eq!(rt;
        (
            span.dropped_events(),
            span.dropped_links(),
            span.row_count(),
        ),
        (1, 2, 256)
    );
    Ok(())
}
