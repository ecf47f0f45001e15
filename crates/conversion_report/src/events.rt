//! Events, each with its time and name, and its attributes below it.
use crate::entries::key_column;
use conversion::dd_span::DdSpan;
use escape::Whole;
use lent_bytes::memory::part;
use notation::report::write_row;
use std::fmt;
use values::show::display_text;
use values::value::Value;

/// The value of an attribute, with its kind; none where the kind's number names no kind.
#[derive(Clone, Copy)]
struct OfKind<'s>(Option<Value<'s>>);

impl fmt::Display for OfKind<'_> {
    fn fmt<W: fmt::Write>(&self, f: &mut fmt::Formatter<W>) -> fmt::Result {
        let Some(value) = self.0 else {
            return f.write_str("no kind");
        };
        let kind = value.kind();
        let mut text = [0u8; 4096];
        let len = display_text(&value, &mut text);
        let shown = Whole(part(&text, 0, len));
        write!(f, "{kind:<8} {shown}")
    }
}

fn write_attributes<W: fmt::Write>(
    f: &mut fmt::Formatter<W>,
    span: &DdSpan<'_, '_, '_>,
    n: u16,
) -> fmt::Result {
    for i in 0..span.event_attribute_count(n).unwrap_or(0) {
        if let Ok(entry) = span.event_attribute(n, i) {
            let key = key_column(entry.key);
            let value = OfKind(entry.value);
            write_row(f, "  attribute", format_args!("{key} {value}"))?;
        }
    }
    Ok(())
}

#[derive(Clone, Copy)]
pub struct Events<'s, 'b, 'm, 'a> {
    pub span: &'s DdSpan<'b, 'm, 'a>,
}

impl fmt::Display for Events<'_, '_, '_, '_> {
    fn fmt<W: fmt::Write>(&self, f: &mut fmt::Formatter<W>) -> fmt::Result {
        for n in 0..self.span.event_count() {
            if let Ok(event) = self.span.event(n) {
                let time = event.time;
                let name = Whole(event.name);
                write_row(f, "event", format_args!("{time} {name}"))?;
                write_attributes(f, self.span, n)?;
            }
        }
        Ok(())
    }
}
