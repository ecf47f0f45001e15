//! The first text that is not empty under several keys, on the span or on its resource.
ghost use Rattle.std.specs.Prelude.{◌≡◌, ℕ, List, Option};
ghost use Rattle.readers.specs.Reading.{Reading, text_of, bytes_of};
ghost use Rattle.readers.specs.Texts.{Filled, Found, not_empty, places_of, first_text, first_span_text, first_resource_text};

use crate::otel_util::{OtelSpan, res_text_opt, span_text_opt};
use crate::texts::{Text, or_clear};
use names::attribute_keys::AttributeKey;

/// Where texts are looked for.
trait Side {
    // The text under a key, if there is one.
    ghost text: { Reading → ℕ → Option (List ℕ) };

    // Memory is touched only where there is one.
    fn read<S: OtelSpan>(span: &S, key: AttributeKey, out: &mut [u8; 4096]) -> Option<usize>
        ensures { Found 4096 (text (S.OtelSpan.reading span.now) key.idx) result out.new };
}

/// On the span.
struct OnSpan;

/// On the span's resource.
struct OnResource;

impl Side for OnSpan {
    ghost text = { λ r k. text_of (r.span k) };

    fn read<S: OtelSpan>(span: &S, key: AttributeKey, out: &mut [u8; 4096]) -> Option<usize> {
        span_text_opt(span, key, out)
    }
}

impl Side for OnResource {
    ghost text = { λ r. r.resource };

    fn read<S: OtelSpan>(span: &S, key: AttributeKey, out: &mut [u8; 4096]) -> Option<usize> {
        res_text_opt(span, key, out)
    }
}

/// The first text under the keys that is not empty, if there is one. A `for`, since each turn writes to the same memory.
/// The calls below hand on what they are given.
fn first_on<T: Side, S: OtelSpan>(
    span: &S,
    attributes: &[AttributeKey],
    out: &mut [u8; 4096],
) -> Option<usize>
    ensures { Found 4096 (not_empty (first_text (λ k. bytes_of (T.Side.text (S.OtelSpan.reading span.now) k)) (places_of attributes.now))) result out.new }
{
    for key in attributes {
        match T::read(span, *key, out) {
            Some(n) if n > 0 => return Some(n),
            _ => {}
        }
    }
    None
}

/// The first text of the span under the keys that is not empty, if there is one. Memory is touched only where the span
/// has a text.
pub fn find_span_text<S: OtelSpan>(
    span: &S,
    attributes: &[AttributeKey],
    out: &mut [u8; 4096],
) -> Option<usize>
    ensures { Found 4096 (not_empty (first_span_text (S.OtelSpan.reading span.now) (places_of attributes.now))) result out.new }
{
    first_on::<OnSpan, S>(span, attributes, out)
}

/// The same of the resource.
pub fn find_res_text<S: OtelSpan>(
    span: &S,
    attributes: &[AttributeKey],
    out: &mut [u8; 4096],
) -> Option<usize>
    ensures { Found 4096 (not_empty (first_resource_text (S.OtelSpan.reading span.now) (places_of attributes.now))) result out.new }
{
    first_on::<OnResource, S>(span, attributes, out)
}

/// That text of the resource, the empty one where there is none.
pub fn res_text<'t, S: OtelSpan>(
    span: &S,
    attributes: &[AttributeKey],
    memory: &'t mut [u8; 4096],
) -> Text<'t>
    ensures { result.bytes.now ≡ first_resource_text (S.OtelSpan.reading span.now) (places_of attributes.now) }
{
    match find_res_text(span, attributes, memory) {
        Some(n) => Text::front(memory, n),
        None => Text::empty(),
    }
}

/// The first text of the span under the keys that is not empty, with zeros in all memory behind it.
pub fn get_span_attributes<S: OtelSpan>(
    span: &S,
    attributes: &[AttributeKey],
    out: &mut [u8; 4096],
) -> usize
    ensures { Filled 4096 (first_span_text (S.OtelSpan.reading span.now) (places_of attributes.now)) result out.new }
{
    or_clear(find_span_text(span, attributes, out), out)
}

/// The same of the resource.
pub fn get_res_attributes<S: OtelSpan>(
    span: &S,
    attributes: &[AttributeKey],
    out: &mut [u8; 4096],
) -> usize
    ensures { Filled 4096 (first_resource_text (S.OtelSpan.reading span.now) (places_of attributes.now)) result out.new }
{
    or_clear(find_res_text(span, attributes, out), out)
}
