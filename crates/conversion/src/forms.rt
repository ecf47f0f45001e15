//! The forms in which rows of a block go into a span.
ghost use Rattle.std.specs.Prelude.{◌≡◌, ◌++◌, [], codes};
ghost use Rattle.readers.specs.DatadogKeys.{datadog_key};
ghost use Rattle.lent_bytes.specs.Memory.{clip};
ghost use Rattle.values.specs.Shown.{display, dd_string, datum_text};
ghost use Rattle.conversion.specs.Spans.{quoted, placed, lent};
ghost use Rattle.std.specs.Option.{option_map};
ghost use Rattle.blocks.specs.Facts.{facts, fact_at, header_text};
ghost use Rattle.blocks.specs.Layout.{raw_of};
ghost use Rattle.blocks.specs.Lists.{list_number};
ghost use Rattle.span_args.specs.ReadingOf.{datum_at, last_row_of};
ghost use Rattle.values.specs.Format.{meant};
ghost use Rattle.conversion.specs.Forms.{option_datum, string_form, number_form, shown_form, display_form, header_key, key_form, metric_form, number_in};
ghost use Rattle.conversion.specs.Constants.{status_word};
ghost use Rattle.conversion.specs.Steps.{is_error, described};
ghost use Rattle.conversion.specs.Pieces.{given_text, form_text, key_text};

use crate::constants::Constant;
use crate::pieces::{Form, Given, Key};
use blocks::header;
use blocks::layout::{RawRow, is_in, raw_row};
use blocks::lists::List;
use blocks::span_kind::StatusCode;
use lent_bytes::fields::Number;
use lent_bytes::memory::part;
use lent_bytes::texts::TextWriter;
use readers::dd_keys::{DdKey, http_place, plain_key};
use values::doubles::whole_number;
use values::kinds::ValueKind;
use values::show::{TEXT_BYTES, dd_value_to_string, display_text};
use values::value::{Scalar, Value};

/// The value of a row; none where its kind's number names no kind.
pub(crate) fn value_of(block: &[u8], row: RawRow) -> Option<Value<'_>>
    ensures { option_map meant result ≡ datum_at (fact_at block.now (raw_of row)) }
{
    let kind = ValueKind::try_from(row.kind).ok()?;
    Some(Value::new(kind, row.value(block)))
}

/// The number of a row.
pub(crate) fn number_of(block: &[u8], row: RawRow) -> Option<i64>
    ensures { result ≡ number_in (datum_at (fact_at block.now (raw_of row))) }
{
    value_of(block, row)?.number()
}

/// The pattern of a row's number.
pub(crate) fn metric_of(block: &[u8], row: RawRow) -> Option<u64>
    ensures { result ≡ metric_form (datum_at (fact_at block.now (raw_of row))) }
{
    value_of(block, row)?.metric()
}

/// A value's display text, written to `out`.
fn in_quotes<'t>(value: &Value<'_>, out: &'t mut [u8; TEXT_BYTES]) -> &'t [u8]
    ensures { result.now ≡ clip 4096 (display (meant value.now)) }
{
    let n = display_text(value, out);
    part(out, 0, n)
}

/// The same with no quotes around the strings of an array.
fn unquoted<'t>(value: &Value<'_>, out: &'t mut [u8; TEXT_BYTES]) -> &'t [u8]
    ensures { result.now ≡ clip 4096 (dd_string (meant value.now)) }
{
    let n = dd_value_to_string(value, out);
    part(out, 0, n)
}

/// A value's display text, written to `out`: with quotes around the strings of an array, if asked for.
pub(crate) fn written<'t>(
    value: &Value<'_>,
    quotes: bool,
    out: &'t mut [u8; TEXT_BYTES],
) -> &'t [u8]
    ensures { result.now ≡ clip 4096 (datum_text quotes (meant value.now)) }
{
    match quotes {
        true => in_quotes(value, out),
        false => unquoted(value, out),
    }
}

/// A number that is 0 or 1 is quoted, and another's text is to be written.
fn number_form<'t>(number: Option<i64>, value: Value<'t>) -> Form<'t>
    ensures { form_text [] result ≡ number_form number (display (meant value.entry)) }
{
    match number {
        Some(0) => Form::Ready(Given::Quoted(Constant::Zero)),
        Some(1) => Form::Ready(Given::Quoted(Constant::One)),
        _ => Form::Shown {
            value,
            quotes: true,
        },
    }
}

/// A row's value as a text: 0, 1, true and false are quoted, a string is a part of the block, and other values are to be
/// written.
pub(crate) fn string_form<'t>(block: &'t [u8], row: RawRow) -> Form<'t>
    ensures { form_text block.now result ≡ string_form (datum_at (fact_at block.now (raw_of row))) }
{
    let Some(value) = value_of(block, row) else {
        return Form::Ready(Given::Quoted(Constant::Empty));
    };
    match value {
        Value::Scalar(Scalar::Bool(flag)) => Form::Ready(Given::Quoted(Constant::Flag(flag))),
        Value::Scalar(Scalar::I64(number)) => number_form(Some(number), value),
        Value::Scalar(Scalar::F64(double)) => number_form(whole_number(double.pattern), value),
        Value::Scalar(Scalar::String(_)) => Form::Ready(Given::Lent {
            place: row.value_place,
            len: row.value_length,
        }),
        Value::Array(_) => Form::Shown {
            value,
            quotes: true,
        },
    }
}

/// A row's value as a text that is to be written, unless it is a string: with quotes around the strings of an array, if
/// asked for.
pub(crate) fn shown_form<'t>(block: &'t [u8], row: RawRow, quotes: bool) -> Form<'t>
    ensures { form_text block.now result ≡ shown_form quotes (datum_at (fact_at block.now (raw_of row))) }
{
    let Some(value) = value_of(block, row) else {
        return Form::Ready(Given::Quoted(Constant::Empty));
    };
    match value {
        Value::Scalar(Scalar::String(_)) => Form::Ready(Given::Lent {
            place: row.value_place,
            len: row.value_length,
        }),
        Value::Scalar(Scalar::Bool(_)) => Form::Shown { value, quotes },
        Value::Scalar(Scalar::I64(_)) => Form::Shown { value, quotes },
        Value::Scalar(Scalar::F64(_)) => Form::Shown { value, quotes },
        Value::Array(_) => Form::Shown { value, quotes },
    }
}

/// A header's key, written to `out`.
pub(crate) fn header_key<'t>(name: &[u8], out: &'t mut [u8; TEXT_BYTES]) -> &'t [u8]
    ensures { result.now ≡ header_key name.now }
{
    let mut text = TextWriter::new(out);
    text.push(b"http.request.headers.");
    text.push(name);
    let n = text.finish();
    part(out, 0, n)
}

/// The key under which an attribute goes to Datadog: a name of its own is quoted, a header's is to be written, and another
/// is its own.
pub(crate) fn key_form<'t>(block: &'t [u8], row: RawRow) -> Key<'t>
    ensures { key_text block.now result ≡ key_form (datadog_key (fact_at block.now (raw_of row)).key) }
{
    let key = row.key(block);
    if let Some(place) = http_place(key) {
        return Key::Ready(Given::Quoted(Constant::Http(place)));
    }
    match plain_key(key) {
        DdKey::Mapped(_) => Key::Ready(Given::Quoted(Constant::Empty)),
        DdKey::Header(name) => Key::Header(name),
        DdKey::Dropped => Key::Ready(Given::Quoted(Constant::Empty)),
        DdKey::Kept(_) => Key::Ready(Given::Lent {
            place: row.key_place,
            len: row.key_length as u32,
        }),
    }
}

/// The last row of a list with a key.
pub(crate) fn last_row(block: &[u8], list: List, key: &[u8]) -> Option<RawRow>
    ensures { option_map (λ r. fact_at block.now (raw_of r)) result ≡ last_row_of (list_number list) key.now (facts block.now).rows }
{
    let mut last = None;
    for i in 0..u16::read(block, 2) {
        if is_in(block, list, i) {
            let row = raw_row(block, i);
            if row.key(block) == key {
                last = Some(row);
            }
        }
    }
    last
}

/// The value of the last row of a list with a key, as a text.
pub(crate) fn last_string<'t>(block: &'t [u8], list: List, key: &[u8]) -> Form<'t>
    ensures { form_text block.now result ≡ string_form (option_datum (last_row_of (list_number list) key.now (facts block.now).rows)) }
{
    match last_row(block, list, key) {
        Some(row) => string_form(block, row),
        None => Form::Ready(Given::Quoted(Constant::Empty)),
    }
}

/// The value of the last row of a list with a key, as a text that is to be written, unless it is a string.
pub(crate) fn last_display<'t>(block: &'t [u8], list: List, key: &[u8]) -> Form<'t>
    ensures { form_text block.now result ≡ display_form (option_datum (last_row_of (list_number list) key.now (facts block.now).rows)) }
{
    match last_row(block, list, key) {
        Some(row) => shown_form(block, row, true),
        None => Form::Ready(Given::Quoted(Constant::Empty)),
    }
}

/// A text of the header, by where its place and length stand.
pub(crate) fn header_form(block: &[u8], at: u8) -> Given<'static>
    ensures { given_text block.now result ≡ lent (header_text block.now at) }
{
    let at = at as usize;
    Given::Lent {
        place: u32::read(block, at),
        len: u32::read(block, at + 4),
    }
}

pub(crate) fn is_error(status: StatusCode) -> bool
    ensures { result ≡ is_error status }
{
    matches!(status, StatusCode::Error)
}

/// The word of the status.
pub(crate) fn status_form(block: &[u8]) -> Given<'static>
    ensures { given_text block.now result ≡ quoted (status_word (facts block.now).status) }
{
    Given::Quoted(Constant::Status(header::status(block)))
}

/// The description, which only an error has.
pub(crate) fn description_form(block: &[u8]) -> Given<'static>
    ensures { given_text block.now result ≡ lent (described (facts block.now)) }
{
    if is_error(header::status(block)) {
        header_form(block, 112)
    } else {
        Given::Lent { place: 0, len: 0 }
    }
}
