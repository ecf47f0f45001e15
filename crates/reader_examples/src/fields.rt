//! The six fields of small spans.
use crate::bare::Bare;
use crate::made::{Said, Six, on_resource, on_span, others, put_span};
use blocks::sdk_span::SdkSpan;
use blocks::span_kind::SpanKind;
use layer::later_edition::LaterEdition;
use span_args::span_extract_args::SpanExtractArgs;

const NONE: [bool; 6] = [false; 6];

const SERVICE: &[u8] = b"otlpresourcenoservicename";

// The fields that are wanted, with neither a service nor an environment nor a code.
fn wanted(name: &'static [u8], resource: &'static [u8], span_type: &'static [u8]) -> Six {
    Six {
        name,
        resource,
        span_type,
        service: SERVICE,
        env: b"",
        code: 0,
    }
}

// The fields of a span that are others than wanted, as it is and under the later edition.
fn wrong(
    kind: SpanKind,
    name: &[u8],
    rows: &[Said],
    want: Six,
    later: Six,
) -> ([bool; 6], [bool; 6]) {
    let mut m = [0u8; 2000];
    put_span(&mut m, kind, name, rows);
    let span = SdkSpan::of_ended(&m);
    let reader = SpanExtractArgs::new(&span);
    (
        others(&reader, want),
        others(&LaterEdition::new(reader), later),
    )
}

// The type goes by the exact name, the operation name is in lower case.
#[test]
fn a_database_client(rt: HostRuntime) {
    let want = wanted(b"postgresql.query", b"load", b"db");
    let rows = [on_span(b"db.system", b"PostgreSQL")];
    assert_eq!(rt;
        wrong(SpanKind::Client, b"load", &rows, want, want),
        (NONE, NONE)
    );
}

#[test]
fn a_server_with_a_method_alone(rt: HostRuntime) {
    let want = wanted(b"http.server.request", b"GET", b"web");
    let rows = [on_span(b"http.request.method", b"GET")];
    assert_eq!(rt;
        wrong(SpanKind::Server, b"flash", &rows, want, want),
        (NONE, NONE)
    );
}

// An empty text on the span ends the walk over the keys, so the older method does not count.
#[test]
fn an_empty_method(rt: HostRuntime) {
    let want = wanted(b"http.client.request", b"flash", b"http");
    let rows = [
        on_span(b"http.request.method", b""),
        on_span(b"http.method", b"GET"),
    ];
    assert_eq!(rt;
        wrong(SpanKind::Client, b"flash", &rows, want, want),
        (NONE, NONE)
    );
}

// On the resource it does not.
#[test]
fn an_empty_method_of_the_resource(rt: HostRuntime) {
    let want = wanted(b"http.client.request", b"GET", b"http");
    let rows = [
        on_resource(b"http.request.method", b""),
        on_span(b"http.method", b"GET"),
    ];
    assert_eq!(rt;
        wrong(SpanKind::Client, b"flash", &rows, want, want),
        (NONE, NONE)
    );
}

#[test]
fn a_later_database(rt: HostRuntime) {
    let want = wanted(b"microsoft.sql_server.query", b"load", b"db");
    let later = wanted(b"mssql.query", b"load", b"sql");
    let rows = [on_span(b"db.system.name", b"microsoft.sql_server")];
    assert_eq!(rt;
        wrong(SpanKind::Client, b"load", &rows, want, later),
        (NONE, NONE)
    );
}

// Datadog's own attributes come first, unless they are empty.
#[test]
fn own_attributes(rt: HostRuntime) {
    let code = Said {
        kind: 1,
        ..on_span(b"datadog.http_status_code", b"\xc8\0\0\0\0\0\0\0")
    };
    let rows = [
        on_span(b"datadog.name", b"N"),
        on_span(b"datadog.resource", b"R"),
        on_span(b"datadog.type", b""),
        on_span(b"datadog.service", b"S"),
        on_resource(b"datadog.env", b"E"),
        code,
    ];
    let want = Six {
        name: b"N",
        resource: b"R",
        span_type: b"custom",
        service: b"S",
        env: b"E",
        code: 200,
    };
    assert_eq!(rt;
        wrong(SpanKind::Producer, b"flash", &rows, want, want),
        (NONE, NONE)
    );
}

// A message of a server, with service and environment of the resource.
#[test]
fn a_message(rt: HostRuntime) {
    let rows = [
        on_span(b"messaging.system", b"Kafka"),
        on_span(b"messaging.operation", b"Process"),
        on_span(b"messaging.destination.name", b"orders"),
        on_resource(b"service.name", b"shop"),
        on_resource(b"deployment.environment", b"prod"),
    ];
    let want = Six {
        name: b"kafka.process",
        resource: b"Process orders",
        span_type: b"custom",
        service: b"shop",
        env: b"prod",
        code: 0,
    };
    assert_eq!(rt;
        wrong(SpanKind::Consumer, b"n", &rows, want, want),
        (NONE, NONE)
    );
}

// Another reader, and layers over it.
#[test]
fn a_name_alone(rt: HostRuntime) {
    let bare = Bare { name: b"flash" };
    let want = wanted(b"internal", b"flash", b"custom");
    assert_eq!(rt; others(&bare, want), NONE);
    assert_eq!(rt;
        others(&LaterEdition::new(LaterEdition::new(bare)), want),
        NONE
    );
}
