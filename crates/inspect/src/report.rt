//! What is printed of an attribute: a label and a value in each row.
use escape::Escaped;
use names::attribute_keys::get_attribute_idx;
use notation::report::write_row;
use std::fmt;
use values::check::ValueFault;
use values::kinds::ValueKind;
use values::show::{dd_value_to_string, display_text, otel_value_string_repr};
use values::value::Value;

fn write_known<W: fmt::Write>(f: &mut fmt::Formatter<W>, key: &[u8]) -> fmt::Result {
    match get_attribute_idx(key).map(|known| known.place()) {
        Some(place) => write_row(f, "known", format_args!("yes, at place {place}")),
        None => write_row(f, "known", "no"),
    }
}

fn write_kind<W: fmt::Write>(f: &mut fmt::Formatter<W>, number: u8) -> fmt::Result {
    match ValueKind::try_from(number) {
        Ok(kind) => write_row(f, "kind", kind),
        Err(_) => write_row(f, "kind", format_args!("none has the number {number}")),
    }
}

fn write_texts<W: fmt::Write>(f: &mut fmt::Formatter<W>, value: &Value<'_>) -> fmt::Result {
    let mut text = [0u8; 4096];
    let len = display_text(value, &mut text);
    write_row(
        f,
        "display",
        Escaped(lent_bytes::memory::part(&text, 0, len)),
    )?;
    let len = otel_value_string_repr(value, &mut text);
    write_row(
        f,
        "string form",
        Escaped(lent_bytes::memory::part(&text, 0, len)),
    )?;
    let len = dd_value_to_string(value, &mut text);
    write_row(
        f,
        "without quotes",
        Escaped(lent_bytes::memory::part(&text, 0, len)),
    )
}

fn write_numbers<W: fmt::Write>(f: &mut fmt::Formatter<W>, value: &Value<'_>) -> fmt::Result {
    match value.number() {
        Some(number) => write_row(f, "number", number)?,
        None => write_row(f, "number", "none")?,
    }
    match value.metric() {
        Some(pattern) => write_row(f, "metric", format_args!("0x{pattern:016x}")),
        None => write_row(f, "metric", "none"),
    }
}

fn write_refusal<W: fmt::Write>(f: &mut fmt::Formatter<W>, fault: ValueFault) -> fmt::Result {
    let number = u8::from(fault);
    write_row(f, "refused", format_args!("{number}: {fault}"))
}

/// An attribute, and what the check of its value answered. Its kind is the number that the line names.
#[derive(Clone, Copy)]
pub struct Report<'a> {
    pub line: u64,
    pub key: &'a [u8],
    pub kind: u8,
    pub outcome: Result<Value<'a>, ValueFault>,
}

impl fmt::Display for Report<'_> {
    fn fmt<W: fmt::Write>(&self, f: &mut fmt::Formatter<W>) -> fmt::Result {
        let line = self.line;
        let key = Escaped(self.key);
        writeln!(f, "line {line:<11} {key}")?;
        write_known(f, self.key)?;
        write_kind(f, self.kind)?;
        match self.outcome {
            Ok(value) => {
                write_texts(f, &value)?;
                write_numbers(f, &value)
            }
            Err(fault) => write_refusal(f, fault),
        }
    }
}
