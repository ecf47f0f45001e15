//! Texts composed at the front of memory that holds them whole.
ghost use Rattle.std.specs.Prelude.{◌≡◌, ◌+◌, ◌<◌, ◌≤◌, ◌++◌, length};
ghost use Rattle.lent_bytes.specs.Memory.{portion, padded};
ghost use Rattle.readers.specs.Reading.{size_of};
ghost use Rattle.readers.specs.Texts.{Filled, span_text, first_span_text, places_of};
ghost use Rattle.derived.specs.OperationName.{lowered};
ghost use Rattle.derived.specs.Fields.{own_text};

use lent_bytes::texts::{TextWriter, write_text};
use names::attribute_keys::AttributeKey;
use readers::first_texts::find_span_text;
use readers::otel_util::{OtelSpan, get_attr_str};
use readers::texts::Text;

/// A span's text at the front of `out`, if it is not empty; memory is written only if there may be one.
pub(crate) fn given_text<S: OtelSpan>(
    span: &S,
    key: AttributeKey,
    out: &mut [u8; 4096],
) -> Option<usize>
    ensures size { result ≡ size_of (own_text (S.OtelSpan.reading span.now) key.idx) }
    ensures text { 0 < length (span_text (S.OtelSpan.reading span.now) key.idx) → out.new ≡ padded 4096 (span_text (S.OtelSpan.reading span.now) key.idx) }
{
    if !span.has_attr(key) {
        return None;
    }
    let n = get_attr_str(span, key, out);
    if n > 0 { Some(n) } else { None }
}

/// A span's text in lower case, the empty one where it has none; memory is written only if it has one.
pub(crate) fn lower_text<'t, S: OtelSpan>(
    span: &S,
    key: AttributeKey,
    memory: &'t mut [u8; 4096],
) -> Text<'t>
    ensures { result.bytes.now ≡ lowered (span_text (S.OtelSpan.reading span.now) key.idx) }
{
    if !span.has_attr(key) {
        return Text::empty();
    }
    let n = get_attr_str(span, key, memory);
    Text::lower_front(memory, n)
}

/// The first text of the span under the keys that is not empty, in lower case; memory is written only if there may be
/// one.
pub(crate) fn lower_first<'t, S: OtelSpan>(
    span: &S,
    keys: &[AttributeKey],
    memory: &'t mut [u8; 4096],
) -> Text<'t>
    ensures { result.bytes.now ≡ lowered (first_span_text (S.OtelSpan.reading span.now) (places_of keys.now)) }
{
    match find_span_text(span, keys, memory) {
        Some(n) => Text::lower_front(memory, n),
        None => Text::empty(),
    }
}

/// Four texts one behind the other at the front of `out`; some may be empty. Nothing is cleared behind them. Not a slice
/// of texts: the borrow checker does not cover an array of references to memory of several owners.
pub(crate) fn compose(out: &mut [u8; 8200], a: &[u8], b: &[u8], c: &[u8], d: &[u8]) -> usize
    requires { length a.now + length b.now + length c.now + length d.now ≤ 8200 }
    ensures { portion out.new 0 result ≡ a.now ++ (b.now ++ (c.now ++ d.now)) }
{
    let mut text = TextWriter::new(out);
    text.push(a);
    text.push(b);
    text.push(c);
    text.push(d);
    text.len()
}

/// Zeros behind the first `n` bytes.
pub(crate) fn clear_behind(out: &mut [u8; 8200], n: usize) -> usize
    ensures { Filled 8200 (portion out.old 0 n) result out.new }
{
    TextWriter::behind(out, n).finish()
}

/// A text at the front of `out`, with zeros in all memory behind it.
pub(crate) fn fill(out: &mut [u8; 4096], text: Text<'_>) -> usize
    ensures { Filled 4096 text.entry.bytes.now result out.new }
{
    write_text(out, text.bytes)
}
