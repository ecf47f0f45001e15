//! What stands at a side of a row. Texts stand in quotes with their quotes escaped, and doubles with their patterns, so
//! that values that differ are printed differently.
use conversion_sides::fields::FieldValue;
use escape::Whole;
use lent_bytes::memory::after;
use std::alloc::Global;
use values::elements::first_element;
use values::value::{Array, Scalar, Value};

/// A text with its quotes escaped.
fn push_escaped(heap: Global, out: &mut String, text: &[u8]) -> anyhow::Result<()> {
    if text.is_empty() {
        return Ok(());
    }
    let escaped = format!(in heap; "{}", Whole(text))?;
    for c in escaped.as_str().chars() {
        if c == '"' {
            out.push('\\')?;
        }
        out.push(c)?;
    }
    Ok(())
}

/// A text in quotes.
pub(crate) fn push_text(heap: Global, out: &mut String, text: &[u8]) -> anyhow::Result<()> {
    out.push('"')?;
    push_escaped(heap, out, text)?;
    out.push('"')?;
    Ok(())
}

/// A key, in quotes only if it is empty.
pub(crate) fn push_key(heap: Global, out: &mut String, key: &[u8]) -> anyhow::Result<()> {
    if key.is_empty() {
        return push_text(heap, out, key);
    }
    push_escaped(heap, out, key)
}

/// A text in quotes.
pub(crate) fn text_cell(heap: Global, text: &[u8]) -> anyhow::Result<String> {
    let mut out = String::new(heap);
    push_text(heap, &mut out, text)?;
    Ok(out)
}

/// The pattern of a double.
pub(crate) fn pattern_cell(heap: Global, pattern: u64) -> anyhow::Result<String> {
    Ok(format!(in heap; "0x{pattern:016x}")?)
}

/// What a field holds.
pub(crate) fn field_cell(heap: Global, value: FieldValue<'_>) -> anyhow::Result<String> {
    match value {
        FieldValue::Text(text) => text_cell(heap, text),
        FieldValue::Id(id) => Ok(format!(in heap; "{id:016x}")?),
        FieldValue::Number(number) => Ok(format!(in heap; "{number}")?),
    }
}

fn push_scalar(heap: Global, out: &mut String, scalar: Scalar<'_>) -> anyhow::Result<()> {
    match scalar {
        Scalar::Bool(true) => out.push_str("true")?,
        Scalar::Bool(false) => out.push_str("false")?,
        Scalar::I64(number) => write!(out, "{number}")?,
        Scalar::F64(double) => {
            let pattern = double.pattern;
            write!(out, "0x{pattern:016x} ")?;
            push_text(heap, out, double.text)?;
        }
        Scalar::String(text) => push_text(heap, out, text)?,
    }
    Ok(())
}

/// The elements of an array in brackets, up to a broken one.
fn push_array(heap: Global, out: &mut String, array: Array<'_>) -> anyhow::Result<()> {
    let kind = array.kind;
    let mut left = array.bytes;
    let mut is_first = true;
    out.push('[')?;
    while let Some(first) = first_element(kind, left) {
        if !is_first {
            out.push_str(", ")?;
        }
        push_scalar(heap, out, first.value)?;
        is_first = false;
        left = after(left, first.size);
    }
    out.push(']')?;
    Ok(())
}

/// A value with its kind; none where the kind's number names no kind.
pub(crate) fn push_value(
    heap: Global,
    out: &mut String,
    value: Option<Value<'_>>,
) -> anyhow::Result<()> {
    let Some(value) = value else {
        out.push_str("no kind")?;
        return Ok(());
    };
    let kind = value.kind();
    write!(out, "{kind} ")?;
    match value {
        Value::Scalar(scalar) => push_scalar(heap, out, scalar),
        Value::Array(array) => push_array(heap, out, array),
    }
}
