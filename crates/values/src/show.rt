//! What a value shows: its display text, its string form, and its text without quotes.
ghost use Rattle.std.specs.Prelude.{◌≡◌, true, false, [], ◌∷◌, ◌++◌, map, length};
ghost use Rattle.lent_bytes.specs.Memory.{Placed};
ghost use Rattle.lent_bytes.specs.Writing.{Wrote};
ghost use Rattle.values.specs.Format.{atom_of, elements_in, meant};
ghost use Rattle.values.specs.Shown.{quoted, atom_text, comma, bracketed, datum_text, display, dd_string, string_repr};

use crate::doubles::whole_number;
use crate::elements::first_element;
use crate::value::{Array, Scalar, Value};
use lent_bytes::memory::after;
use lent_bytes::texts::{TextWriter, write_text};

/// The most bytes that a text of a value takes.
pub const TEXT_BYTES: usize = 4096;

fn push_quoted(out: &mut TextWriter<'_>, text: &[u8], quotes: bool)
    ensures { Wrote out.old out.new (quoted quotes text.now) }
{
    if !quotes {
        return out.push(text);
    }
    out.push(b"\"");
    out.push(text);
    out.push(b"\"");
}

/// A scalar's text; a string in quotes, if asked for.
fn push_scalar(out: &mut TextWriter<'_>, scalar: Scalar<'_>, quotes: bool)
    ensures { Wrote out.old out.new (atom_text quotes (atom_of scalar.entry)) }
{
    match scalar {
        Scalar::Bool(true) => out.push(b"true"),
        Scalar::Bool(false) => out.push(b"false"),
        Scalar::I64(i) => out.push_signed(i),
        Scalar::F64(double) => out.push(double.text),
        Scalar::String(text) => push_quoted(out, text, quotes),
    }
}

/// The comma before an element that is not the first.
fn push_comma(out: &mut TextWriter<'_>, first: bool)
    ensures { Wrote out.old out.new (comma first) }
{
    if first {
        return;
    }
    out.push(b",");
}

/// An element with the comma before it.
fn push_item(out: &mut TextWriter<'_>, first: bool, item: Scalar<'_>, quotes: bool)
    ensures { Wrote out.old out.new (comma first ++ atom_text quotes (atom_of item.entry)) }
{
    push_comma(out, first);
    push_scalar(out, item, quotes);
}

/// An array in brackets.
fn push_array(out: &mut TextWriter<'_>, array: Array<'_>, quotes: bool)
    ensures { Wrote out.old out.new (bracketed (map (atom_text quotes) (elements_in array.entry.kind array.entry.bytes.now))) }
{
    let kind = array.kind;
    let mut left = array.bytes;
    out.push(b"[");
    let mut first = true;
    while let Some(element) = first_element(kind, left) {
        push_item(out, first, element.value, quotes);
        first = false;
        left = after(left, element.size);
    }
    out.push(b"]");
}

/// A value's text; the strings of an array in quotes, if asked for.
pub(crate) fn push_value(out: &mut TextWriter<'_>, value: Value<'_>, quotes: bool)
    ensures { Wrote out.old out.new (datum_text quotes (meant value.entry)) }
{
    match value {
        Value::Scalar(scalar) => push_scalar(out, scalar, false),
        Value::Array(array) => push_array(out, array, quotes),
    }
}

/// A value's text at the front of `out`, clipped, zeros behind; answers its length.
fn write_value(value: &Value<'_>, out: &mut [u8; 4096], quotes: bool) -> usize
    ensures { Placed 4096 (datum_text quotes (meant value.now)) result out.new }
{
    let mut text = TextWriter::new(out);
    push_value(&mut text, *value, quotes);
    text.finish()
}

/// The display text at the front of `out`, clipped, zeros behind; answers its length.
pub fn display_text(value: &Value<'_>, out: &mut [u8; 4096]) -> usize
    ensures { Placed 4096 (display (meant value.now)) result out.new }
{
    write_value(value, out, true)
}

/// The display text with no quotes around the strings of an array.
pub fn dd_value_to_string(value: &Value<'_>, out: &mut [u8; 4096]) -> usize
    ensures { Placed 4096 (dd_string (meant value.now)) result out.new }
{
    write_value(value, out, false)
}

/// The display text, but `0` for either double zero and `1` for the double one.
pub fn otel_value_string_repr(value: &Value<'_>, out: &mut [u8; 4096]) -> usize
    ensures { Placed 4096 (string_repr (meant value.now)) result out.new }
{
    match value {
        Value::Scalar(Scalar::F64(double)) => {
            let text = match whole_number(double.pattern) {
                Some(0) => b"0",
                Some(1) => b"1",
                _ => double.text,
            };
            write_text(out, text)
        }
        _ => display_text(value, out),
    }
}
