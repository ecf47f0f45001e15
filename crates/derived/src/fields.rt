//! The six fields of a Datadog span that are derived from a reading. Datadog's own attributes come
//! before what the other attributes say. A reader, a key and memory go together only through the three functions below,
//! which differ in what they do without the attribute.
ghost use Rattle.std.specs.Prelude.{◌≡◌, ℕ, ◌<◌, ◌≤◌, List, length};
ghost use Rattle.std.specs.Fn.{FnOnceReturnsAtMut};
ghost use Rattle.std.specs.Option.{MatchOption, option_map};
ghost use Rattle.lent_bytes.specs.Memory.{portion};
ghost use Rattle.readers.specs.Texts.{Filled, span_text};
ghost use Rattle.derived.specs.Fields.{own_text, field_name, field_resource, field_type, field_service, field_environment, field_status_code};

use crate::operation_name::write_operation_name;
use crate::resource_name::write_resource_name;
use crate::span_fields::{
    code_under, get_otel_env, get_otel_service, get_otel_span_type, get_otel_status_code,
};
use crate::texts::{clear_behind, compose, given_text};
use names::attribute_keys::*;
use readers::otel_util::{OtelSpan, get_attr_str};
use readers::texts::Text;

/// A span's text at the front of the larger memory, if it is not empty.
fn own_text<S: OtelSpan>(span: &S, key: AttributeKey, out: &mut [u8; 8200]) -> Option<usize>
    ensures { option_map (portion out.new 0) result ≡ own_text (S.OtelSpan.reading span.now) key.idx }
{
    if !span.has_attr(key) {
        return None;
    }
    let mut text = [0u8; 4096];
    let n = get_attr_str(span, key, &mut text);
    if n == 0 {
        return None;
    }
    Some(compose(out, b"", b"", b"", Text::front(&text, n).bytes))
}

/// A span's text at the front of the larger memory, if it is not empty, and else what is derived.
fn own_text_or<S: OtelSpan, F: FnOnce(&mut [u8; 8200]) -> usize>(
    span: &S,
    key: AttributeKey,
    out: &mut [u8; 8200],
    derive: F,
) -> usize
    requires { F.IsAlwaysCallable derive }
    ensures { MatchOption (own_text (S.OtelSpan.reading span.now) key.idx) ((m : List ℕ) × FnOnceReturnsAtMut F.FnOnce derive m result out.new) (λ t. portion out.new 0 result ≡ t) }
{
    // With `unwrap_or_else` the proof did not close: what its closure leaves in memory is not followed.
    match own_text(span, key, out) {
        Some(n) => n,
        None => derive(out),
    }
}

/// The name.
pub fn datadog_name<S: OtelSpan>(span: &S, out: &mut [u8; 8200]) -> usize
    ensures { Filled 8200 (field_name (S.OtelSpan.reading span.now)) result out.new }
{
    let n = own_text_or(
        span,
        DATADOG_NAME,
        out,
        |out| write_operation_name(span, out),
    );
    clear_behind(out, n)
}

/// The resource.
pub fn datadog_resource<S: OtelSpan>(span: &S, out: &mut [u8; 8200]) -> usize
    ensures { Filled 8200 (field_resource (S.OtelSpan.reading span.now)) result out.new }
{
    let n = own_text_or(
        span,
        DATADOG_RESOURCE,
        out,
        |out| write_resource_name(span, out),
    );
    clear_behind(out, n)
}

/// An attribute of Datadog's own, unless it is empty, and else what is derived. Not one function with the above: a bound
/// on a closure may not name the size of its memory as a const parameter.
fn own_or<S: OtelSpan, F: FnOnce(&mut [u8; 4096]) -> usize>(
    span: &S,
    key: AttributeKey,
    out: &mut [u8; 4096],
    derive: F,
) -> usize
    requires { F.IsAlwaysCallable derive }
    ensures own { 0 < length (span_text (S.OtelSpan.reading span.now) key.idx) → Filled 4096 (span_text (S.OtelSpan.reading span.now) key.idx) result out.new }
    ensures derived { length (span_text (S.OtelSpan.reading span.now) key.idx) ≤ 0 → (m : List ℕ) × FnOnceReturnsAtMut F.FnOnce derive m result out.new }
{
    match given_text(span, key, out) {
        Some(n) => n,
        None => derive(out),
    }
}

/// The type.
pub fn datadog_type<S: OtelSpan>(span: &S, out: &mut [u8; 4096]) -> usize
    ensures { Filled 4096 (field_type (S.OtelSpan.reading span.now)) result out.new }
{
    own_or(span, DATADOG_TYPE, out, |out| get_otel_span_type(span, out))
}

/// The service.
pub fn datadog_service<S: OtelSpan>(span: &S, out: &mut [u8; 4096]) -> usize
    ensures { Filled 4096 (field_service (S.OtelSpan.reading span.now)) result out.new }
{
    own_or(span, DATADOG_SERVICE, out, |out| {
        get_otel_service(span, out)
    })
}

/// The environment; the empty text is none.
pub fn datadog_env<S: OtelSpan>(span: &S, out: &mut [u8; 4096]) -> usize
    ensures { Filled 4096 (field_environment (S.OtelSpan.reading span.now)) result out.new }
{
    own_or(span, DATADOG_ENV, out, |out| get_otel_env(span, out))
}

/// The status code of an HTTP response; 0 is none.
pub fn datadog_status_code<S: OtelSpan>(span: &S) -> u32
    ensures { result ≡ field_status_code (S.OtelSpan.reading span.now) }
{
    code_under(span, DATADOG_HTTP_STATUS_CODE)
        .or_else(|| get_otel_status_code(span))
        .unwrap_or(0)
}
