//! A span in a block: which row counts, and what is said of values.
use crate::made::{Said, on_resource, on_span, put_span, resource_says, span_says};
use blocks::lists::List;
use blocks::sdk_span::SdkSpan;
use blocks::span_kind::SpanKind;
use names::attribute_keys::{
    DB_STATEMENT, DB_SYSTEM, HTTP_METHOD, HTTP_RESPONSE_STATUS_CODE, HTTP_ROUTE, HTTP_STATUS_CODE,
    SERVICE_NAME,
};
use readers::otel_util::OtelSpan;
use span_args::span_extract_args::SpanExtractArgs;

static LONG: [u8; 4096] = [b'a'; 4096];

#[test]
fn last_row_of_a_key_counts(rt: HostRuntime) {
    let mut m = [0u8; 1000];
    let rows = [
        on_span(b"db.system", b"first"),
        on_resource(b"db.system", b"of the resource"),
        on_span(b"other", b"x"),
        on_span(b"db.system", b"last"),
        on_resource(b"db.statement", b"asked"),
    ];
    put_span(&mut m, SpanKind::Client, b"n", &rows);
    let span = SdkSpan::of_ended(&m);
    let reader = SpanExtractArgs::new(&span);
    assert!(rt; span_says(&reader, DB_SYSTEM, Some(b"last")));
    assert!(rt; resource_says(&reader, DB_SYSTEM, Some(b"of the resource")));
    assert!(rt; span_says(&reader, DB_STATEMENT, None));
    assert!(rt; resource_says(&reader, DB_STATEMENT, Some(b"asked")));
}

// A row of a scope is neither the span's nor the resource's.
#[test]
fn scopes_are_not_read(rt: HostRuntime) {
    let mut m = [0u8; 1000];
    let row = Said {
        list: List::Scope,
        key: b"db.system",
        kind: 3,
        value: b"x",
    };
    put_span(&mut m, SpanKind::Client, b"n", &[row]);
    let span = SdkSpan::of_ended(&m);
    let reader = SpanExtractArgs::new(&span);
    assert!(rt; span_says(&reader, DB_SYSTEM, None));
    assert!(rt; resource_says(&reader, DB_SYSTEM, None));
}

#[test]
fn absent_and_empty(rt: HostRuntime) {
    let mut m = [0u8; 1000];
    let rows = [
        on_span(b"http.method", b""),
        on_resource(b"http.route", b""),
    ];
    put_span(&mut m, SpanKind::Server, b"n", &rows);
    let span = SdkSpan::of_ended(&m);
    let reader = SpanExtractArgs::new(&span);
    assert!(rt; span_says(&reader, HTTP_METHOD, Some(b"")));
    assert!(rt; resource_says(&reader, HTTP_METHOD, None));
    assert!(rt; span_says(&reader, HTTP_ROUTE, None));
    assert!(rt; resource_says(&reader, HTTP_ROUTE, Some(b"")));
}

// The string form on the span, the display text on the resource.
#[test]
fn a_double_zero(rt: HostRuntime) {
    let mut m = [0u8; 1000];
    let zero = Said {
        list: List::Span,
        key: b"http.status_code",
        kind: 2,
        value: b"\0\0\0\0\0\0\0\00.0",
    };
    let shown = Said {
        list: List::Resource,
        ..zero
    };
    put_span(&mut m, SpanKind::Client, b"n", &[zero, shown]);
    let span = SdkSpan::of_ended(&m);
    let reader = SpanExtractArgs::new(&span);
    assert!(rt; span_says(&reader, HTTP_STATUS_CODE, Some(b"0")));
    assert!(rt; resource_says(&reader, HTTP_STATUS_CODE, Some(b"0.0")));
    assert_eq!(rt; reader.get_attr_num(HTTP_STATUS_CODE), Some(0));
}

#[test]
fn numbers(rt: HostRuntime) {
    let mut m = [0u8; 1000];
    let code = Said {
        list: List::Span,
        key: b"http.status_code",
        kind: 1,
        value: b"\xf4\x01\0\0\0\0\0\0",
    };
    let response = Said {
        list: List::Span,
        key: b"http.response.status_code",
        kind: 1,
        value: b"\xff\xff\xff\xff\xff\xff\xff\xff",
    };
    let rows = [code, response, on_span(b"db.system", b"500")];
    put_span(&mut m, SpanKind::Client, b"n", &rows);
    let span = SdkSpan::of_ended(&m);
    let reader = SpanExtractArgs::new(&span);
    assert_eq!(rt; reader.get_attr_num(HTTP_STATUS_CODE), Some(500));
    assert!(rt; span_says(&reader, HTTP_STATUS_CODE, Some(b"500")));
    assert_eq!(rt; reader.get_attr_num(HTTP_RESPONSE_STATUS_CODE), Some(-1));
    assert!(rt; span_says(&reader, HTTP_RESPONSE_STATUS_CODE, Some(b"-1")));
    // A text has no number, and neither has what is absent.
    assert_eq!(rt; reader.get_attr_num(DB_SYSTEM), None);
    assert_eq!(rt; reader.get_attr_num(DB_STATEMENT), None);
}

#[test]
fn a_text_as_long_as_memory(rt: HostRuntime) {
    let mut m = [0u8; 9000];
    put_span(
        &mut m,
        SpanKind::Client,
        &LONG,
        &[on_span(b"db.statement", &LONG)],
    );
    let span = SdkSpan::of_ended(&m);
    let reader = SpanExtractArgs::new(&span);
    let mut name = [7u8; 4096];
    assert_eq!(rt; reader.name(&mut name), 4096);
    assert_eq!(rt; name, LONG);
    assert!(rt; span_says(&reader, DB_STATEMENT, Some(&LONG)));
}

#[test]
fn an_array_of_bools(rt: HostRuntime) {
    let mut m = [0u8; 1000];
    let flags = Said {
        list: List::Span,
        key: b"service.name",
        kind: 4,
        value: b"\x01\0\x01",
    };
    put_span(&mut m, SpanKind::Client, b"n", &[flags]);
    let span = SdkSpan::of_ended(&m);
    let reader = SpanExtractArgs::new(&span);
    assert!(rt; span_says(&reader, SERVICE_NAME, Some(b"[true,false,true]")));
    assert_eq!(rt; reader.get_attr_num(SERVICE_NAME), None);
}
