//! What values show.
use std::process::Abort;
use std::test::Fail;
use values::kinds::ValueKind;
use values::show::{dd_value_to_string, display_text, otel_value_string_repr};
use values::value::{Scalar, Value};

// The three texts of the value of a kind in some bytes.
fn shows(
    rt: &impl Abort,
    kind: u8,
    bytes: &[u8],
    display: &[u8],
    repr: &[u8],
    plain: &[u8],
) -> Result<(), Fail> {
    let Ok(kind) = ValueKind::try_from(kind) else {
        return Err(Fail::new("no kind"));
    };
    let value = Value::new(kind, bytes);
    let mut out = [7u8; 4096];
    let n = display_text(&value, &mut out);
    assert!(rt; lent_bytes::memory::part(&out, 0, n) == display);
    assert!(rt; out[4095] == 0);
    let n = otel_value_string_repr(&value, &mut out);
    assert!(rt; lent_bytes::memory::part(&out, 0, n) == repr);
    let n = dd_value_to_string(&value, &mut out);
    assert!(rt; lent_bytes::memory::part(&out, 0, n) == plain);
    Ok(())
}

#[test]
fn scalars(rt: HostRuntime) -> Result<(), Fail> {
    shows(&rt, 0, b"\x01", b"true", b"true", b"true")?;
    shows(&rt, 0, b"\x00", b"false", b"false", b"false")?;
    shows(
        &rt,
        1,
        b"\0\0\0\0\0\0\0\x80",
        b"-9223372036854775808",
        b"-9223372036854775808",
        b"-9223372036854775808",
    )?;
    shows(&rt, 2, b"\0\0\0\0\0\0\0\x80-0", b"-0", b"0", b"-0")?;
    shows(&rt, 2, b"\0\0\0\0\0\0\xf0\x3f1.0", b"1.0", b"1", b"1.0")?;
    shows(&rt, 2, b"\0\0\0\0\0\0\xf8\x3f1.5", b"1.5", b"1.5", b"1.5")?;
    shows(
        &rt,
        3,
        b"say \"hi\"",
        b"say \"hi\"",
        b"say \"hi\"",
        b"say \"hi\"",
    )
}

#[test]
fn arrays(rt: HostRuntime) -> Result<(), Fail> {
    shows(
        &rt,
        4,
        b"\x01\x00",
        b"[true,false]",
        b"[true,false]",
        b"[true,false]",
    )?;
    shows(&rt, 5, b"", b"[]", b"[]", b"[]")?;
    shows(
        &rt,
        5,
        b"\x01\0\0\0\0\0\0\0\xff\xff\xff\xff\xff\xff\xff\xff",
        b"[1,-1]",
        b"[1,-1]",
        b"[1,-1]",
    )?;
    shows(
        &rt,
        6,
        b"\0\0\0\0\0\0\xf0\x3f\x03\x001.0",
        b"[1.0]",
        b"[1.0]",
        b"[1.0]",
    )?;
    shows(
        &rt,
        7,
        b"\x01\x00a\x01\x00b",
        b"[\"a\",\"b\"]",
        b"[\"a\",\"b\"]",
        b"[a,b]",
    )
}

// Bytes that never passed the check show what is there, clipped.
#[test]
fn unchecked_values(rt: HostRuntime) -> Result<(), Fail> {
    shows(&rt, 1, b"\x05", b"5", b"5", b"5")?;
    shows(
        &rt,
        7,
        b"\x01\x00a\x09\x00b",
        b"[\"a\"]",
        b"[\"a\"]",
        b"[a]",
    )?;
    assert_eq!(rt; clipped(&[b'x'; 5000]), 4096);
    Ok(())
}

fn clipped(text: &[u8]) -> usize {
    let mut out = [0u8; 4096];
    let value = Value::Scalar(Scalar::String(text));
    display_text(&value, &mut out)
}
