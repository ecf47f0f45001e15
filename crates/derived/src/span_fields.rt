//! The type, the service, the environment and the status code of a span.
ghost use Rattle.std.specs.Prelude.{◌≡◌};
ghost use Rattle.blocks.specs.declared.span_kind.SpanKind.TheVariants.{Client};
ghost use Rattle.readers.specs.Texts.{Filled};
ghost use Rattle.derived.specs.Fields.{type_by_kind, span_type, environment, resource_service, service_name, narrowed, code_under, status_code};

use crate::db_types::check_db_type;
use crate::texts::{fill, given_text};
use blocks::span_kind::SpanKind;
use names::attribute_keys::*;
use readers::first_texts::{find_res_text, get_res_attributes, res_text};
use readers::otel_util::{OtelSpan, find_res_span_text, res_span_text};
use readers::texts::Text;

/// The service of a span whose span and resource name none.
pub const DEFAULT_OTLP_SERVICE_NAME: &[u8] = b"otlpresourcenoservicename";

/// Where a resource says its environment, the later name first.
const DEPLOYMENTS: [AttributeKey; 2] = [DEPLOYMENT_ENVIRONMENT_NAME, DEPLOYMENT_ENVIRONMENT];

/// A client's type: by its database, if it has one.
fn client_type<S: OtelSpan>(span: &S, memory: &mut [u8; 4096]) -> Text<'static>
    ensures { result.bytes.now ≡ type_by_kind (S.OtelSpan.reading span.now) Client }
{
    let system = res_span_text(span, &[DB_SYSTEM_NAME, DB_SYSTEM], memory);
    if system.is_empty() {
        return Text { bytes: b"http" };
    }
    let bytes = check_db_type(system.bytes);
    Text { bytes }
}

/// The type by the kind of the span.
fn type_by_kind<S: OtelSpan>(span: &S, memory: &mut [u8; 4096]) -> Text<'static>
    ensures { result.bytes.now ≡ type_by_kind (S.OtelSpan.reading span.now) (S.OtelSpan.reading span.now).kind }
{
    match span.span_kind() {
        SpanKind::Server => Text { bytes: b"web" },
        SpanKind::Client => client_type(span, memory),
        _ => Text { bytes: b"custom" },
    }
}

/// The type of a span: the attribute of that name, or else by its kind.
pub fn span_type_text<'t, S: OtelSpan>(span: &S, memory: &'t mut [u8; 4096]) -> Text<'t>
    ensures { result.bytes.now ≡ span_type (S.OtelSpan.reading span.now) }
{
    match find_res_span_text(span, &[SPAN_TYPE], memory) {
        Some(n) if n > 0 => Text::front(memory, n),
        _ => type_by_kind(span, memory),
    }
}

/// The type at the front of `out`, with zeros in all memory behind it.
pub fn get_otel_span_type<S: OtelSpan>(span: &S, out: &mut [u8; 4096]) -> usize
    ensures { Filled 4096 (span_type (S.OtelSpan.reading span.now)) result out.new }
{
    match find_res_span_text(span, &[SPAN_TYPE], out) {
        Some(n) if n > 0 => n,
        _ => {
            let text = type_by_kind(span, out);
            fill(out, text)
        }
    }
}

/// The environment: Datadog's own attribute, or else the resource's.
pub fn environment_text<'t, S: OtelSpan>(span: &S, memory: &'t mut [u8; 4096]) -> Text<'t>
    ensures { result.bytes.now ≡ environment (S.OtelSpan.reading span.now) }
{
    match find_res_span_text(span, &[DATADOG_ENV], memory) {
        Some(n) if n > 0 => Text::front(memory, n),
        _ => res_text(span, &DEPLOYMENTS, memory),
    }
}

/// The environment at the front of `out`, with zeros in all memory behind it.
pub fn get_otel_env<S: OtelSpan>(span: &S, out: &mut [u8; 4096]) -> usize
    ensures { Filled 4096 (environment (S.OtelSpan.reading span.now)) result out.new }
{
    match find_res_span_text(span, &[DATADOG_ENV], out) {
        Some(n) if n > 0 => n,
        _ => get_res_attributes(span, &DEPLOYMENTS, out),
    }
}

/// The service of the resource, or else the default.
fn resource_service<'t, S: OtelSpan>(span: &S, memory: &'t mut [u8; 4096]) -> Text<'t>
    ensures { result.bytes.now ≡ resource_service (S.OtelSpan.reading span.now) }
{
    match find_res_text(span, &[SERVICE_NAME], memory) {
        Some(n) if n > 0 => Text::front(memory, n),
        _ => Text {
            bytes: DEFAULT_OTLP_SERVICE_NAME,
        },
    }
}

/// The service: of the span, or else of the resource, or else the default.
pub fn service_text<'t, S: OtelSpan>(span: &S, memory: &'t mut [u8; 4096]) -> Text<'t>
    ensures { result.bytes.now ≡ service_name (S.OtelSpan.reading span.now) }
{
    match given_text(span, SERVICE_NAME, memory) {
        Some(n) => Text::front(memory, n),
        None => resource_service(span, memory),
    }
}

/// The service at the front of `out`, with zeros in all memory behind it.
pub fn get_otel_service<S: OtelSpan>(span: &S, out: &mut [u8; 4096]) -> usize
    ensures { Filled 4096 (service_name (S.OtelSpan.reading span.now)) result out.new }
{
    if let Some(n) = given_text(span, SERVICE_NAME, out) {
        return n;
    }
    if let Some(n) = find_res_text(span, &[SERVICE_NAME], out) {
        return n;
    }
    let text = Text {
        bytes: DEFAULT_OTLP_SERVICE_NAME,
    };
    fill(out, text)
}

/// A number as 32 bits without a sign; none where it does not fit them.
fn narrow(number: Option<i64>) -> Option<u32>
    ensures { result ≡ narrowed number }
{
    u32::try_from(number?).ok()
}

/// The status code under a key.
pub(crate) fn code_under<S: OtelSpan>(span: &S, key: AttributeKey) -> Option<u32>
    ensures { result ≡ code_under (S.OtelSpan.reading span.now) key.idx }
{
    narrow(span.get_attr_num(key))
}

/// The status code of an HTTP response, by the later key and then by the older.
pub fn get_otel_status_code<S: OtelSpan>(span: &S) -> Option<u32>
    ensures { result ≡ status_code (S.OtelSpan.reading span.now) }
{
    code_under(span, HTTP_RESPONSE_STATUS_CODE).or_else(|| code_under(span, HTTP_STATUS_CODE))
}
