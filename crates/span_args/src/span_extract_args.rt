//! A span in a block, with the rows of the known keys noted.
ghost use Rattle.std.specs.Prelude.{◌≡◌, ℕ, List, None, is_some, slice_index_or};
ghost use Rattle.std.specs.Option.{option_map};
ghost use Rattle.lent_bytes.specs.Memory.{Placed, clip, padded};
ghost use Rattle.names.specs.Keys.{key_at, known};
ghost use Rattle.names.specs.Places.{noted};
ghost use Rattle.values.specs.Atoms.{Datum};
ghost use Rattle.values.specs.Format.{meant};
ghost use Rattle.values.specs.Shown.{display, string_repr};
ghost use Rattle.blocks.specs.Facts.{facts, fact_of};
ghost use Rattle.readers.specs.Reading.{size_of, bytes_of, text_of, number_of};
ghost use Rattle.span_args.specs.ReadingOf.{list_key, datum_at, shown_by, span_known, resource_shown, row_in, reading_by, reading_of};

use blocks::header::{kind, name, row_count};
use blocks::lists::List;
use blocks::questions::numbered_row;
use blocks::row::Row;
use blocks::sdk_span::SdkSpan;
use blocks::span_kind::SpanKind;
use lent_bytes::texts::{TextWriter, write_text};
use names::attribute_indices::AttributeIndices;
use names::attribute_keys::AttributeKey;
use readers::otel_util::OtelSpan;
use values::kinds::ValueKind;
use values::show::{display_text, otel_value_string_repr};
use values::value::Value;

/// The block of a span, with the number of the last row of each known key, of the span's attributes and of
/// the resource's. It holds the block's bytes and not the span, which a conversion takes.
#[derive(Clone, Copy)]
pub struct SpanExtractArgs<'a> {
    block: &'a [u8],
    span_attrs: AttributeIndices,
    res_attrs: AttributeIndices,
}

/// The value of a row; none where its kind's number names no kind.
fn value_of<'a>(row: &Row<'a>) -> Option<Value<'a>>
    ensures { option_map meant result ≡ datum_at (fact_of row.now) }
{
    let kind = ValueKind::try_from(row.kind).ok()?;
    Some(Value::new(kind, row.value))
}

/// What a value says, as a text.
trait Shown {
    ghost text: { Datum → List ℕ };

    fn show(value: &Value<'_>, out: &mut [u8; 4096]) -> usize
        ensures { Placed 4096 (text (meant value.now)) result out.new };
}

/// On a span.
struct OnSpan;

/// On a resource.
struct OnResource;

impl Shown for OnSpan {
    ghost text = { string_repr };

    fn show(value: &Value<'_>, out: &mut [u8; 4096]) -> usize {
        otel_value_string_repr(value, out)
    }
}

impl Shown for OnResource {
    ghost text = { display };

    fn show(value: &Value<'_>, out: &mut [u8; 4096]) -> usize {
        display_text(value, out)
    }
}

/// What a row says.
fn row_text<T: Shown>(row: &Row<'_>, out: &mut [u8; 4096]) -> usize
    ensures { Placed 4096 (shown_by T.Shown.text (datum_at (fact_of row.now))) result out.new }
{
    match value_of(row) {
        Some(value) => T::show(&value, out),
        None => write_text(out, b""),
    }
}

/// What a row says, if there is one; else the memory is all zeros.
fn row_text_opt<T: Shown>(row: Option<Row<'_>>, out: &mut [u8; 4096]) -> Option<usize>
    ensures size { result ≡ size_of (option_map (λ f. clip 4096 (shown_by T.Shown.text (datum_at f))) (option_map fact_of row.entry)) }
    ensures text { out.new ≡ padded 4096 (bytes_of (option_map (λ f. clip 4096 (shown_by T.Shown.text (datum_at f))) (option_map fact_of row.entry))) }
{
    match row {
        Some(row) => Some(row_text::<T>(&row, out)),
        None => {
            TextWriter::new(out).finish();
            None
        }
    }
}

/// The row that was noted for a key.
fn noted_row<'a>(block: &'a [u8], indices: &AttributeIndices, key: AttributeKey) -> Option<Row<'a>>
    ensures { option_map fact_of result ≡ row_in block.now (slice_index_or indices.now.places key.idx None) }
{
    match indices.get(key) {
        Some(i) if i < row_count(block) as usize => numbered_row(block, i as u16).ok(),
        _ => None,
    }
}

/// Whether a row was noted for a key.
fn is_noted(block: &[u8], indices: &AttributeIndices, key: AttributeKey) -> bool
    ensures { result ≡ is_some (row_in block.now (slice_index_or indices.now.places key.idx None)) }
{
    match indices.get(key) {
        Some(i) => i < row_count(block) as usize,
        None => false,
    }
}

/// Notes the row `i` under the span's attributes or the resource's, by its list.
fn note_row(
    row: &Row<'_>,
    i: u16,
    span_attrs: &mut AttributeIndices,
    res_attrs: &mut AttributeIndices,
)
    ensures span { span_attrs.new.places ≡ noted (option_map key_at (known (list_key 0 (fact_of row.now)))) i span_attrs.old.places }
    ensures resource { res_attrs.new.places ≡ noted (option_map key_at (known (list_key 1 (fact_of row.now)))) i res_attrs.old.places }
{
    match List::try_from(row.list) {
        Ok(List::Span) => span_attrs.note(row.key, i as usize),
        Ok(List::Resource) => res_attrs.note(row.key, i as usize),
        _ => {}
    }
}

impl<'a> SpanExtractArgs<'a> {
    /// The reader of the span in a block.
    fn of_block(block: &'a [u8]) -> SpanExtractArgs<'a>
        ensures block { result.block.now ≡ block.now }
        ensures reading { reading_by result.block.now result.span_attrs.places result.res_attrs.places ≡ reading_of (facts block.now) }
    {
        let mut span_attrs = AttributeIndices::default();
        let mut res_attrs = AttributeIndices::default();
        // By number, since the number is what is noted.
        for i in 0..row_count(block) {
            if let Ok(row) = numbered_row(block, i) {
                note_row(&row, i, &mut span_attrs, &mut res_attrs);
            }
        }
        SpanExtractArgs {
            block,
            span_attrs,
            res_attrs,
        }
    }

    /// The reader of a span: its reading is that of the span's facts.
    pub fn new(span: &SdkSpan<'a>) -> SpanExtractArgs<'a>
        ensures block { result.block.now ≡ span.now.block.now }
        ensures reading { reading_by result.block.now result.span_attrs.places result.res_attrs.places ≡ reading_of (facts span.now.block.now) }
    {
        SpanExtractArgs::of_block(span.block())
    }
}

impl<'a> OtelSpan for SpanExtractArgs<'a> {
    ghost reading = { λ s. reading_by s.block.now s.span_attrs.places s.res_attrs.places };

    fn name(&self, out: &mut [u8; 4096]) -> usize {
        write_text(out, name(self.block))
    }

    fn span_kind(&self) -> SpanKind {
        kind(self.block)
    }

    fn has_attr(&self, key: AttributeKey) -> bool {
        is_noted(self.block, &self.span_attrs, key)
    }

    fn has_res_attr(&self, key: AttributeKey) -> bool {
        is_noted(self.block, &self.res_attrs, key)
    }

    fn get_attr_str_opt(&self, key: AttributeKey, out: &mut [u8; 4096]) -> Option<usize> {
        row_text_opt::<OnSpan>(noted_row(self.block, &self.span_attrs, key), out)
    }

    fn get_attr_num(&self, key: AttributeKey) -> Option<i64> {
        let row = noted_row(self.block, &self.span_attrs, key)?;
        let value = value_of(&row)?;
        value.number()
    }

    fn get_res_attribute_opt(&self, key: AttributeKey, out: &mut [u8; 4096]) -> Option<usize> {
        row_text_opt::<OnResource>(noted_row(self.block, &self.res_attrs, key), out)
    }
}
