//! Links, each with what it points to, and its attributes below it.
use crate::entries::key_column;
use conversion::dd_span::DdSpan;
use conversion::link_questions::LinkItem;
use escape::Whole;
use notation::report::write_row;
use std::fmt;

fn write_link<W: fmt::Write>(f: &mut fmt::Formatter<W>, link: LinkItem<'_>) -> fmt::Result {
    let high = link.ids.trace_id_high;
    let low = link.ids.trace_id_low;
    let span = link.ids.span_id;
    let flags = link.ids.flags;
    let state = Whole(link.trace_state);
    write_row(
        f,
        "link",
        format_args!("{high:016x}{low:016x} {span:016x} flags {flags:02x} state {state}"),
    )
}

fn write_attributes<W: fmt::Write>(
    f: &mut fmt::Formatter<W>,
    span: &DdSpan<'_, '_, '_>,
    n: u16,
) -> fmt::Result {
    for i in 0..span.link_attribute_count(n).unwrap_or(0) {
        if let Ok(entry) = span.link_attribute(n, i) {
            let key = key_column(entry.key);
            let text = Whole(entry.value);
            write_row(f, "  attribute", format_args!("{key} {text}"))?;
        }
    }
    Ok(())
}

#[derive(Clone, Copy)]
pub struct Links<'s, 'b, 'm, 'a> {
    pub span: &'s DdSpan<'b, 'm, 'a>,
}

impl fmt::Display for Links<'_, '_, '_, '_> {
    fn fmt<W: fmt::Write>(&self, f: &mut fmt::Formatter<W>) -> fmt::Result {
        for n in 0..self.span.link_count() {
            if let Ok(link) = self.span.link(n) {
                write_link(f, link)?;
                write_attributes(f, self.span, n)?;
            }
        }
        Ok(())
    }
}
