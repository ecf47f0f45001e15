//! The operation name of a span, at the front of `out`, with nothing cleared behind it but by the last function. Names are
//! tried one after the other by `if let` and `match`: with `unwrap_or_else` the proof did not close, since what its
//! closure leaves in memory is not followed.
ghost use Rattle.std.specs.Prelude.{◌≡◌};
ghost use Rattle.lent_bytes.specs.Memory.{portion};
ghost use Rattle.readers.specs.Places.{operation_name as name_key};
ghost use Rattle.readers.specs.Texts.{Filled, or_absent, span_text};
ghost use Rattle.derived.specs.OperationName.{is_http, graphql_name, request_name, client_name, server_name, message_name, name_by_kind, operation_name};

use crate::composed_names::{
    graphql_name, invoked_name, messaging_name, named_after, protocol_name, query_name,
    rpc_client_name,
};
use crate::texts::{clear_behind, compose};
use blocks::span_kind::SpanKind;
use names::attribute_keys::*;
use readers::otel_util::{OtelSpan, get_attr_str};
use readers::texts::Text;

fn is_http<S: OtelSpan>(span: &S) -> bool
    ensures { result ≡ is_http (S.OtelSpan.reading span.now) }
{
    span.has_attr(HTTP_METHOD) || span.has_attr(HTTP_REQUEST_METHOD)
}

/// What a client and a server fall back on.
fn request_name<S: OtelSpan>(span: &S, request: Text<'_>, out: &mut [u8; 8200]) -> usize
    ensures { portion out.new 0 result ≡ request_name (S.OtelSpan.reading span.now) request.entry.bytes.now }
{
    if let Some(n) = graphql_name(span, out) {
        return n;
    }
    if let Some(n) = protocol_name(span, request, out) {
        return n;
    }
    compose(out, b"", b"", b"", request.bytes)
}

/// A client that speaks no HTTP: a database, a message, a call, a function, and last its protocol.
fn client_name<S: OtelSpan>(span: &S, out: &mut [u8; 8200]) -> usize
    ensures { portion out.new 0 result ≡ client_name (S.OtelSpan.reading span.now) }
{
    if let Some(n) = query_name(span, out) {
        return n;
    }
    if let Some(n) = messaging_name(span, out) {
        return n;
    }
    if let Some(n) = rpc_client_name(span, out) {
        return n;
    }
    if let Some(n) = invoked_name(span, out) {
        return n;
    }
    request_name(
        span,
        Text {
            bytes: b"client.request",
        },
        out,
    )
}

/// A server that speaks no HTTP.
fn server_name<S: OtelSpan>(span: &S, out: &mut [u8; 8200]) -> usize
    ensures { portion out.new 0 result ≡ server_name (S.OtelSpan.reading span.now) }
{
    if let Some(n) = messaging_name(span, out) {
        return n;
    }
    if let Some(n) = named_after(
        span,
        RPC_SYSTEM,
        Text {
            bytes: b".server.request",
        },
        out,
    ) {
        return n;
    }
    if let Some(n) = named_after(span, FAAS_TRIGGER, Text { bytes: b".invoke" }, out) {
        return n;
    }
    request_name(
        span,
        Text {
            bytes: b"server.request",
        },
        out,
    )
}

/// By a GraphQL operation, and else the fallback.
fn graphql_or<S: OtelSpan>(span: &S, fallback: Text<'_>, out: &mut [u8; 8200]) -> usize
    ensures { portion out.new 0 result ≡ or_absent (graphql_name (S.OtelSpan.reading span.now)) fallback.entry.bytes.now }
{
    match graphql_name(span, out) {
        Some(n) => n,
        None => compose(out, b"", b"", b"", fallback.bytes),
    }
}

/// A producer or a consumer of messages.
fn message_name<S: OtelSpan>(span: &S, fallback: Text<'_>, out: &mut [u8; 8200]) -> usize
    ensures { portion out.new 0 result ≡ message_name (S.OtelSpan.reading span.now) fallback.entry.bytes.now }
{
    match messaging_name(span, out) {
        Some(n) => n,
        None => graphql_or(span, fallback, out),
    }
}

/// By the kind of the span and the attributes present.
fn name_by_kind<S: OtelSpan>(span: &S, out: &mut [u8; 8200]) -> usize
    ensures { portion out.new 0 result ≡ name_by_kind (S.OtelSpan.reading span.now) (S.OtelSpan.reading span.now).kind }
{
    match span.span_kind() {
        SpanKind::Client if is_http(span) => compose(out, b"", b"", b"", b"http.client.request"),
        SpanKind::Server if is_http(span) => compose(out, b"", b"", b"", b"http.server.request"),
        SpanKind::Client => client_name(span, out),
        SpanKind::Server => server_name(span, out),
        SpanKind::Producer => message_name(span, Text { bytes: b"producer" }, out),
        SpanKind::Consumer => message_name(span, Text { bytes: b"consumer" }, out),
        SpanKind::Internal => graphql_or(span, Text { bytes: b"internal" }, out),
    }
}

/// The attribute of that name.
fn write_given_name<S: OtelSpan>(span: &S, out: &mut [u8; 8200]) -> usize
    ensures { portion out.new 0 result ≡ span_text (S.OtelSpan.reading span.now) name_key }
{
    let mut memory = [0u8; 4096];
    let n = get_attr_str(span, OPERATION_NAME, &mut memory);
    compose(out, b"", b"", b"", Text::front(&memory, n).bytes)
}

/// The operation name at the front of `out`, with nothing cleared behind it: the attribute of that name, even if empty,
/// or else by the kind of the span and the attributes present.
pub fn write_operation_name<S: OtelSpan>(span: &S, out: &mut [u8; 8200]) -> usize
    ensures { portion out.new 0 result ≡ operation_name (S.OtelSpan.reading span.now) }
{
    if span.has_attr(OPERATION_NAME) {
        return write_given_name(span, out);
    }
    name_by_kind(span, out)
}

/// The operation name, with zeros in all memory behind it.
pub fn get_otel_operation_name_v2<S: OtelSpan>(span: &S, out: &mut [u8; 8200]) -> usize
    ensures { Filled 8200 (operation_name (S.OtelSpan.reading span.now)) result out.new }
{
    let n = write_operation_name(span, out);
    clear_behind(out, n)
}
