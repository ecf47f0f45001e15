//! What a reader of a span is, and its texts by several keys.
ghost use Rattle.std.specs.Prelude.{◌≡◌, ◌≤◌, length, is_some};
ghost use Rattle.lent_bytes.specs.Memory.{padded};
ghost use Rattle.readers.specs.Reading.{Reading, text_of, number_of, bytes_of, size_of};
ghost use Rattle.readers.specs.Texts.{Filled, Found, Held, span_text, places_of, res_span_opt, res_span_size, res_span_text};

use crate::texts::{Text, or_clear};
use blocks::span_kind::SpanKind;
use names::attribute_keys::AttributeKey;

/// A span as it is read: a name, a kind, and what the span and its resource say under the known keys. Nothing is
/// allocated, so texts go to memory that the caller hands in, and their lengths are answered.
pub trait OtelSpan {
    ghost reading: { Self → Reading };

    /// The span's name.
    fn name(&self, out: &mut [u8; 4096]) -> usize
        ensures { Filled 4096 (reading self.now).name result out.new };

    /// What the span stands for.
    fn span_kind(&self) -> SpanKind
        ensures { result ≡ (reading self.now).kind };

    /// Whether the span has the attribute.
    fn has_attr(&self, key: AttributeKey) -> bool
        ensures { result ≡ is_some ((reading self.now).span key.idx) };

    /// Whether the resource has the attribute.
    fn has_res_attr(&self, key: AttributeKey) -> bool
        ensures { result ≡ is_some ((reading self.now).resource key.idx) };

    /// The text of a span's attribute.
    fn get_attr_str_opt(&self, key: AttributeKey, out: &mut [u8; 4096]) -> Option<usize>
        ensures size { result ≡ size_of (text_of ((reading self.now).span key.idx)) }
        ensures text { out.new ≡ padded 4096 (bytes_of (text_of ((reading self.now).span key.idx))) };

    /// The number of a span's attribute.
    fn get_attr_num(&self, key: AttributeKey) -> Option<i64>
        ensures { result ≡ number_of ((reading self.now).span key.idx) };

    /// The text of a resource's attribute.
    fn get_res_attribute_opt(&self, key: AttributeKey, out: &mut [u8; 4096]) -> Option<usize>
        ensures size { result ≡ size_of ((reading self.now).resource key.idx) }
        ensures text { out.new ≡ padded 4096 (bytes_of ((reading self.now).resource key.idx)) };
}

/// The text of a span's attribute, the empty one where it has none.
pub fn get_attr_str<S: OtelSpan>(span: &S, key: AttributeKey, out: &mut [u8; 4096]) -> usize
    ensures { Filled 4096 (span_text (S.OtelSpan.reading span.now) key.idx) result out.new }
{
    span.get_attr_str_opt(key, out).unwrap_or(0)
}

/// The text of a resource's attribute, if it has one; else memory is not touched.
pub(crate) fn res_text_opt<S: OtelSpan>(
    span: &S,
    key: AttributeKey,
    out: &mut [u8; 4096],
) -> Option<usize>
    ensures { Found 4096 ((S.OtelSpan.reading span.now).resource key.idx) result out.new }
{
    if !span.has_res_attr(key) {
        return None;
    }
    span.get_res_attribute_opt(key, out)
}

/// The text of a span's attribute, if it has one; else memory is not touched.
pub(crate) fn span_text_opt<S: OtelSpan>(
    span: &S,
    key: AttributeKey,
    out: &mut [u8; 4096],
) -> Option<usize>
    ensures { Found 4096 (text_of ((S.OtelSpan.reading span.now).span key.idx)) result out.new }
{
    if !span.has_attr(key) {
        return None;
    }
    span.get_attr_str_opt(key, out)
}

/// The text under one key: of the resource unless empty, else of the span, if it has one.
fn res_span_attribute<S: OtelSpan>(
    span: &S,
    key: AttributeKey,
    out: &mut [u8; 4096],
) -> Option<usize>
    ensures { Found 4096 (res_span_opt (S.OtelSpan.reading span.now) key.idx) result out.new }
{
    match res_text_opt(span, key, out) {
        Some(n) if n > 0 => Some(n),
        _ => span_text_opt(span, key, out),
    }
}

/// The first text under the keys, if there is one: of the resource unless empty, then of the span even if empty. A `for`,
/// since each turn writes to the same memory.
pub fn find_res_span_text<S: OtelSpan>(
    span: &S,
    attributes: &[AttributeKey],
    out: &mut [u8; 4096],
) -> Option<usize>
    ensures size { result ≡ res_span_size (S.OtelSpan.reading span.now) (places_of attributes.now) }
    ensures text { Held 4096 (res_span_text (S.OtelSpan.reading span.now) (places_of attributes.now)) result out.new }
{
    for key in attributes {
        if let Some(n) = res_span_attribute(span, *key, out) {
            return Some(n);
        }
    }
    None
}

/// That text, the empty one where there is none. Memory is touched only where a text goes into it.
pub fn res_span_text<'t, S: OtelSpan>(
    span: &S,
    attributes: &[AttributeKey],
    memory: &'t mut [u8; 4096],
) -> Text<'t>
    ensures { result.bytes.now ≡ res_span_text (S.OtelSpan.reading span.now) (places_of attributes.now) }
{
    match find_res_span_text(span, attributes, memory) {
        Some(n) => Text::front(memory, n),
        None => Text::empty(),
    }
}

/// The same text, with zeros in all memory behind it.
pub fn get_res_span_attributes<S: OtelSpan>(
    span: &S,
    attributes: &[AttributeKey],
    out: &mut [u8; 4096],
) -> usize
    ensures { Filled 4096 (res_span_text (S.OtelSpan.reading span.now) (places_of attributes.now)) result out.new }
{
    or_clear(find_res_span_text(span, attributes, out), out)
}
