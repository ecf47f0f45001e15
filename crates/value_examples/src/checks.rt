//! What the check accepts and refuses, at each limit.
use std::test::Fail;
use values::check::ValueFault;
use values::elements::first_element;
use values::kinds::ScalarKind;
use values::utf8::is_text;
use values::value::Scalar;

// The number of the refusal, 0 where there is none.
fn refusal(kind: u8, bytes: &[u8]) -> u8 {
    match values::check::check(kind, bytes) {
        Ok(_) => 0,
        Err(fault) => u8::from(fault),
    }
}

#[test]
fn scalars_at_their_limits(rt: HostRuntime) {
    assert_eq!(rt; refusal(0, b"\x00"), 0);
    assert_eq!(rt; refusal(0, b"\x01"), 0);
    assert_eq!(rt; refusal(0, b"\x02"), 8);
    assert_eq!(rt; refusal(0, b""), 8);
    assert_eq!(rt; refusal(0, b"\x01\x01"), 8);
    assert_eq!(rt; refusal(1, b"1234567"), 8);
    assert_eq!(rt; refusal(1, b"12345678"), 0);
    assert_eq!(rt; refusal(1, b"123456789"), 8);
    assert_eq!(rt; refusal(3, b""), 0);
    assert_eq!(rt; refusal(3, b"\xc3\xbc"), 0);
    assert_eq!(rt; refusal(3, b"\xc3"), 5);
    assert_eq!(rt; refusal(8, b""), 8);
    assert_eq!(rt; refusal(255, b"x"), 8);
}

#[test]
fn double_texts_at_their_limits(rt: HostRuntime) {
    let long = [b'1'; 409];
    assert_eq!(rt; refusal(2, b"12345678"), 8);
    assert_eq!(rt; refusal(2, b"12345678\x31"), 0);
    assert_eq!(rt; refusal(2, b"12345678\xff"), 5);
    assert_eq!(rt; refusal(2, &long[0..408]), 0);
    assert_eq!(rt; refusal(2, &long), 8);
}

#[test]
fn arrays_in_every_element(rt: HostRuntime) {
    assert_eq!(rt; refusal(4, b""), 0);
    assert_eq!(rt; refusal(4, b"\x01\x00\x01"), 0);
    assert_eq!(rt; refusal(4, b"\x01\x00\x02"), 8);
    assert_eq!(rt; refusal(5, b"1234567812345678"), 0);
    assert_eq!(rt; refusal(5, b"123456781234567"), 8);
    assert_eq!(rt; refusal(6, b"12345678\x01\x00\x31"), 0);
    assert_eq!(rt; refusal(6, b"12345678\x00\x00"), 8);
    assert_eq!(rt; refusal(6, b"12345678\x02\x00\x31"), 8);
    assert_eq!(rt; refusal(7, b"\x01\x00a\x00\x00\x02\x00bc"), 0);
    assert_eq!(rt; refusal(7, b"\x01\x00a\x03\x00bc"), 8);
    assert_eq!(rt; refusal(7, b"\x01\x00\xff"), 5);
}

// The form of all elements comes before the text of any, and the texts before the length.
#[test]
fn the_order_of_the_checks(rt: HostRuntime) {
    assert_eq!(rt; refusal(7, b"\x01\x00\xff\x09\x00"), 8);
    let mut long = [b'x'; 4097];
    assert_eq!(rt; refusal(3, &long[0..4096]), 0);
    assert_eq!(rt; refusal(3, &long), 9);
    long[4096] = 0xff;
    assert_eq!(rt; refusal(3, &long), 5);
}

#[test]
fn parts_of_the_check(rt: HostRuntime) -> Result<(), Fail> {
    assert_eq!(rt; u8::from(ValueFault::Form), 8);
    assert_eq!(rt; u8::from(ValueFault::NotUtf8), 5);
    assert_eq!(rt; u8::from(ValueFault::TooLong), 9);
    assert!(rt; is_text(b"\xf4\x8f\xbf\xbf"));
    assert!(rt; !is_text(b"\xf4\x90\x80\x80"));
    assert!(rt; first_element(ScalarKind::I64, b"1234567").is_none());
    let Some(element) = first_element(ScalarKind::String, b"\x02\x00abc") else {
        return Err(Fail::new("no element"));
    };
    assert_eq!(rt; element.size, 4);
    Ok(())
}
