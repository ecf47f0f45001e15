//! Names of operations that are composed of texts. Each function writes a name to the front of `out` and clears nothing behind
//! it. A function that needs memory for a text is called only where there may be one, since memory is cleared where a
//! function begins.
ghost use Rattle.std.specs.Prelude.{◌≡◌, ◌++◌, codes};
ghost use Rattle.std.specs.Option.{option_map};
ghost use Rattle.std.specs.Str.{bytes_eq};
ghost use Rattle.lent_bytes.specs.Memory.{portion};
ghost use Rattle.derived.specs.OperationName.{named_after, query_name, messaging_name, aws_name, rpc_client_name, invoked_name, graphql_name, protocol_name};

use crate::texts::{compose, lower_first, lower_text};
use names::attribute_keys::*;
use readers::otel_util::{OtelSpan, get_attr_str};
use readers::texts::Text;

fn compose_query_name<S: OtelSpan>(span: &S, out: &mut [u8; 8200]) -> Option<usize>
    ensures { option_map (portion out.new 0) result ≡ query_name (S.OtelSpan.reading span.now) }
{
    let mut memory = [0u8; 4096];
    let system = lower_first(span, &[DB_SYSTEM, DB_SYSTEM_NAME], &mut memory);
    if system.is_empty() {
        return None;
    }
    Some(compose(out, b"", b"", system.bytes, b".query"))
}

pub(crate) fn query_name<S: OtelSpan>(span: &S, out: &mut [u8; 8200]) -> Option<usize>
    ensures { option_map (portion out.new 0) result ≡ query_name (S.OtelSpan.reading span.now) }
{
    if !span.has_attr(DB_SYSTEM) && !span.has_attr(DB_SYSTEM_NAME) {
        return None;
    }
    compose_query_name(span, out)
}

fn compose_messaging_name<S: OtelSpan>(span: &S, out: &mut [u8; 8200]) -> Option<usize>
    ensures { option_map (portion out.new 0) result ≡ messaging_name (S.OtelSpan.reading span.now) }
{
    let mut memory = [0u8; 4096];
    let system = lower_text(span, MESSAGING_SYSTEM, &mut memory);
    if system.is_empty() {
        return None;
    }
    let mut other = [0u8; 4096];
    let operation = lower_first(
        span,
        &[MESSAGING_OPERATION, MESSAGING_OPERATION_TYPE],
        &mut other,
    );
    if operation.is_empty() {
        return None;
    }
    Some(compose(out, b"", system.bytes, b".", operation.bytes))
}

pub(crate) fn messaging_name<S: OtelSpan>(span: &S, out: &mut [u8; 8200]) -> Option<usize>
    ensures { option_map (portion out.new 0) result ≡ messaging_name (S.OtelSpan.reading span.now) }
{
    if !span.has_attr(MESSAGING_SYSTEM) {
        return None;
    }
    compose_messaging_name(span, out)
}

fn aws_name<S: OtelSpan>(span: &S, memory: &mut [u8; 4096], out: &mut [u8; 8200]) -> usize
    ensures { portion out.new 0 result ≡ aws_name (S.OtelSpan.reading span.now) }
{
    let service = lower_text(span, RPC_SERVICE, memory);
    if service.is_empty() {
        return compose(out, b"", b"", b"", b"aws.client.request");
    }
    compose(out, b"", b"aws.", service.bytes, b".request")
}

/// Whether a call goes to AWS.
fn is_aws(system: Text<'_>) -> bool
    ensures { result ≡ bytes_eq system.entry.bytes.now (codes "aws-api") }
{
    system.bytes == b"aws-api".as_slice()
}

fn compose_rpc_client_name<S: OtelSpan>(span: &S, out: &mut [u8; 8200]) -> Option<usize>
    ensures { option_map (portion out.new 0) result ≡ rpc_client_name (S.OtelSpan.reading span.now) }
{
    let mut memory = [0u8; 4096];
    let n = get_attr_str(span, RPC_SYSTEM, &mut memory);
    if n == 0 {
        return None;
    }
    if is_aws(Text::front(&memory, n)) {
        return Some(aws_name(span, &mut memory, out));
    }
    let system = Text::lower_front(&mut memory, n);
    Some(compose(out, b"", b"", system.bytes, b".client.request"))
}

pub(crate) fn rpc_client_name<S: OtelSpan>(span: &S, out: &mut [u8; 8200]) -> Option<usize>
    ensures { option_map (portion out.new 0) result ≡ rpc_client_name (S.OtelSpan.reading span.now) }
{
    if !span.has_attr(RPC_SYSTEM) {
        return None;
    }
    compose_rpc_client_name(span, out)
}

fn compose_after<S: OtelSpan>(
    span: &S,
    key: AttributeKey,
    word: Text<'_>,
    out: &mut [u8; 8200],
) -> Option<usize>
    ensures { option_map (portion out.new 0) result ≡ named_after (S.OtelSpan.reading span.now) key.idx word.entry.bytes.now }
{
    let mut memory = [0u8; 4096];
    let text = lower_text(span, key, &mut memory);
    if text.is_empty() {
        return None;
    }
    Some(compose(out, b"", b"", text.bytes, word.bytes))
}

/// A text of the span in lower case, if it has one, with a word behind it.
pub(crate) fn named_after<S: OtelSpan>(
    span: &S,
    key: AttributeKey,
    word: Text<'_>,
    out: &mut [u8; 8200],
) -> Option<usize>
    ensures { option_map (portion out.new 0) result ≡ named_after (S.OtelSpan.reading span.now) key.idx word.entry.bytes.now }
{
    if !span.has_attr(key) {
        return None;
    }
    compose_after(span, key, word, out)
}

fn compose_invoked_name<S: OtelSpan>(span: &S, out: &mut [u8; 8200]) -> Option<usize>
    ensures { option_map (portion out.new 0) result ≡ invoked_name (S.OtelSpan.reading span.now) }
{
    let mut memory = [0u8; 4096];
    let provider = lower_text(span, FAAS_INVOKED_PROVIDER, &mut memory);
    if provider.is_empty() {
        return None;
    }
    let mut other = [0u8; 4096];
    let name = lower_text(span, FAAS_INVOKED_NAME, &mut other);
    if name.is_empty() {
        return None;
    }
    Some(compose(out, provider.bytes, b".", name.bytes, b".invoke"))
}

pub(crate) fn invoked_name<S: OtelSpan>(span: &S, out: &mut [u8; 8200]) -> Option<usize>
    ensures { option_map (portion out.new 0) result ≡ invoked_name (S.OtelSpan.reading span.now) }
{
    if !span.has_attr(FAAS_INVOKED_PROVIDER) {
        return None;
    }
    compose_invoked_name(span, out)
}

fn compose_graphql_name<S: OtelSpan>(span: &S, out: &mut [u8; 8200]) -> Option<usize>
    ensures { option_map (portion out.new 0) result ≡ graphql_name (S.OtelSpan.reading span.now) }
{
    let mut memory = [0u8; 4096];
    let n = get_attr_str(span, GRAPHQL_OPERATION_TYPE, &mut memory);
    if n == 0 {
        return None;
    }
    Some(compose(out, b"", b"", b"", b"graphql.server.request"))
}

pub(crate) fn graphql_name<S: OtelSpan>(span: &S, out: &mut [u8; 8200]) -> Option<usize>
    ensures { option_map (portion out.new 0) result ≡ graphql_name (S.OtelSpan.reading span.now) }
{
    if !span.has_attr(GRAPHQL_OPERATION_TYPE) {
        return None;
    }
    compose_graphql_name(span, out)
}

fn compose_protocol_name<S: OtelSpan>(
    span: &S,
    request: Text<'_>,
    out: &mut [u8; 8200],
) -> Option<usize>
    ensures { option_map (portion out.new 0) result ≡ protocol_name (S.OtelSpan.reading span.now) request.entry.bytes.now }
{
    let mut memory = [0u8; 4096];
    let protocol = lower_text(span, NETWORK_PROTOCOL_NAME, &mut memory);
    if protocol.is_empty() {
        return None;
    }
    Some(compose(out, b"", protocol.bytes, b".", request.bytes))
}

/// By the network protocol, with what is asked of a client or a server.
pub(crate) fn protocol_name<S: OtelSpan>(
    span: &S,
    request: Text<'_>,
    out: &mut [u8; 8200],
) -> Option<usize>
    ensures { option_map (portion out.new 0) result ≡ protocol_name (S.OtelSpan.reading span.now) request.entry.bytes.now }
{
    if !span.has_attr(NETWORK_PROTOCOL_NAME) {
        return None;
    }
    compose_protocol_name(span, request, out)
}
