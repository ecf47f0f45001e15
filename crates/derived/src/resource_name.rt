//! The resource name of a span. Parameters stay apart, and names are tried one after the other, as in
//! `operation_name`.
ghost use Rattle.std.specs.Prelude.{◌≡◌};
ghost use Rattle.std.specs.Option.{option_map};
ghost use Rattle.lent_bytes.specs.Memory.{portion};
ghost use Rattle.readers.specs.Texts.{Filled, res_span_text, places_of};
ghost use Rattle.derived.specs.ResourceName.{beside, detailed, method_name, route_by, http_resource, messaging_resource, asked_text, database_resource, given_resource, resource_by_use, resource_name};

use crate::texts::{clear_behind, compose};
use blocks::span_kind::SpanKind;
use names::attribute_keys::*;
use readers::otel_util::{OtelSpan, find_res_span_text, res_span_text};
use readers::texts::Text;

/// A text with a detail behind it, if there is one.
fn with_detail(out: &mut [u8; 8200], text: Text<'_>, detail: Text<'_>) -> usize
    ensures { portion out.new 0 result ≡ beside text.entry.bytes.now detail.entry.bytes.now }
{
    if detail.is_empty() {
        return compose(out, b"", b"", b"", text.bytes);
    }
    compose(out, b"", text.bytes, b" ", detail.bytes)
}

/// A text with the text under some keys behind it.
fn with_text_under<S: OtelSpan>(
    span: &S,
    name: Text<'_>,
    details: &[AttributeKey],
    out: &mut [u8; 8200],
) -> usize
    ensures { portion out.new 0 result ≡ beside name.entry.bytes.now (res_span_text (S.OtelSpan.reading span.now) (places_of details.now)) }
{
    let mut memory = [0u8; 4096];
    let detail = res_span_text(span, details, &mut memory);
    with_detail(out, name, detail)
}

/// The text under some keys with the text under others behind it.
fn detailed_name<S: OtelSpan>(
    span: &S,
    keys: &[AttributeKey],
    details: &[AttributeKey],
    memory: &mut [u8; 4096],
    out: &mut [u8; 8200],
) -> Option<usize>
    ensures { option_map (portion out.new 0) result ≡ detailed (res_span_text (S.OtelSpan.reading span.now) (places_of keys.now)) (res_span_text (S.OtelSpan.reading span.now) (places_of details.now)) }
{
    let name = res_span_text(span, keys, memory);
    if name.is_empty() {
        return None;
    }
    Some(with_text_under(span, name, details, out))
}

/// A method by its name.
fn method_name(method: Text<'_>) -> Text<'_>
    ensures { result.bytes.now ≡ method_name method.entry.bytes.now }
{
    if method.bytes == b"_OTHER".as_slice() {
        Text { bytes: b"HTTP" }
    } else {
        method
    }
}

/// A method with the route behind it, which only a server knows.
fn with_route<S: OtelSpan>(span: &S, method: Text<'_>, out: &mut [u8; 8200]) -> usize
    ensures { portion out.new 0 result ≡ beside method.entry.bytes.now (route_by (S.OtelSpan.reading span.now) (S.OtelSpan.reading span.now).kind) }
{
    match span.span_kind() {
        SpanKind::Server => with_text_under(span, method, &[HTTP_ROUTE], out),
        _ => compose(out, b"", b"", b"", method.bytes),
    }
}

fn http_resource<S: OtelSpan>(
    span: &S,
    memory: &mut [u8; 4096],
    out: &mut [u8; 8200],
) -> Option<usize>
    ensures { option_map (portion out.new 0) result ≡ http_resource (S.OtelSpan.reading span.now) }
{
    let method = res_span_text(span, &[HTTP_REQUEST_METHOD, HTTP_METHOD], memory);
    if method.is_empty() {
        return None;
    }
    Some(with_route(span, method_name(method), out))
}

/// What a database was asked.
fn asked_text<'t, S: OtelSpan>(span: &S, memory: &'t mut [u8; 4096]) -> Text<'t>
    ensures { result.bytes.now ≡ asked_text (S.OtelSpan.reading span.now) }
{
    match find_res_span_text(span, &[DB_STATEMENT], memory) {
        Some(n) if n > 0 => Text::front(memory, n),
        _ => res_span_text(span, &[DB_QUERY_TEXT], memory),
    }
}

fn database_resource<S: OtelSpan>(
    span: &S,
    memory: &mut [u8; 4096],
    out: &mut [u8; 8200],
) -> Option<usize>
    ensures { option_map (portion out.new 0) result ≡ database_resource (S.OtelSpan.reading span.now) }
{
    let system = res_span_text(span, &[DB_SYSTEM_NAME, DB_SYSTEM], memory);
    if system.is_empty() {
        return None;
    }
    let asked = asked_text(span, memory);
    if asked.is_empty() {
        return None;
    }
    Some(compose(out, b"", b"", b"", asked.bytes))
}

/// The attribute of that name.
fn given_resource<S: OtelSpan>(
    span: &S,
    memory: &mut [u8; 4096],
    out: &mut [u8; 8200],
) -> Option<usize>
    ensures { option_map (portion out.new 0) result ≡ given_resource (S.OtelSpan.reading span.now) }
{
    let given = res_span_text(span, &[RESOURCE_NAME], memory);
    if given.is_empty() {
        return None;
    }
    Some(compose(out, b"", b"", b"", given.bytes))
}

/// The span's own name.
fn own_name<S: OtelSpan>(span: &S, memory: &mut [u8; 4096], out: &mut [u8; 8200]) -> usize
    ensures { portion out.new 0 result ≡ (S.OtelSpan.reading span.now).name }
{
    let n = span.name(memory);
    compose(out, b"", b"", b"", Text::front(memory, n).bytes)
}

/// By what a span calls or asks, in this order, and else its name.
fn resource_by_use<S: OtelSpan>(span: &S, memory: &mut [u8; 4096], out: &mut [u8; 8200]) -> usize
    ensures { portion out.new 0 result ≡ resource_by_use (S.OtelSpan.reading span.now) }
{
    if let Some(n) = detailed_name(span, &[RPC_METHOD], &[RPC_SERVICE], memory, out) {
        return n;
    }
    if let Some(n) = detailed_name(
        span,
        &[GRAPHQL_OPERATION_TYPE],
        &[GRAPHQL_OPERATION_NAME],
        memory,
        out,
    ) {
        return n;
    }
    if let Some(n) = database_resource(span, memory, out) {
        return n;
    }
    own_name(span, memory, out)
}

fn messaging_resource<S: OtelSpan>(
    span: &S,
    memory: &mut [u8; 4096],
    out: &mut [u8; 8200],
) -> Option<usize>
    ensures { option_map (portion out.new 0) result ≡ messaging_resource (S.OtelSpan.reading span.now) }
{
    detailed_name(
        span,
        &[MESSAGING_OPERATION_TYPE, MESSAGING_OPERATION],
        &[MESSAGING_DESTINATION, MESSAGING_DESTINATION_NAME],
        memory,
        out,
    )
}

/// The resource name at the front of `out`, with nothing cleared behind it: the attribute of that name, or else by what
/// the span worked on, and last the span's own name.
pub fn write_resource_name<S: OtelSpan>(span: &S, out: &mut [u8; 8200]) -> usize
    ensures { portion out.new 0 result ≡ resource_name (S.OtelSpan.reading span.now) }
{
    let mut memory = [0u8; 4096];
    if let Some(n) = given_resource(span, &mut memory, out) {
        return n;
    }
    if let Some(n) = http_resource(span, &mut memory, out) {
        return n;
    }
    if let Some(n) = messaging_resource(span, &mut memory, out) {
        return n;
    }
    resource_by_use(span, &mut memory, out)
}

/// The resource name, with zeros in all memory behind it.
pub fn get_otel_resource_v2<S: OtelSpan>(span: &S, out: &mut [u8; 8200]) -> usize
    ensures { Filled 8200 (resource_name (S.OtelSpan.reading span.now)) result out.new }
{
    let n = write_resource_name(span, out);
    clear_behind(out, n)
}
