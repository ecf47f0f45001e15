//! What is printed of a span's header: a label and a value in each row.
use blocks::sdk_span::SdkSpan;
use escape::Escaped;
use notation::report::write_row;
use std::fmt;

fn write_ids<W: fmt::Write>(f: &mut fmt::Formatter<W>, span: &SdkSpan<'_>) -> fmt::Result {
    let high = span.trace_id_high();
    let low = span.trace_id_low();
    write_row(f, "trace id", format_args!("{high:016x}{low:016x}"))?;
    let id = span.span_id();
    write_row(f, "span id", format_args!("{id:016x}"))?;
    let parent = span.parent_id();
    write_row(f, "parent id", format_args!("{parent:016x}"))
}

fn write_course<W: fmt::Write>(f: &mut fmt::Formatter<W>, span: &SdkSpan<'_>) -> fmt::Result {
    write_row(f, "start", span.start_time())?;
    write_row(f, "end", span.end_time())?;
    write_row(f, "kind", span.kind())?;
    write_row(f, "status", span.status())
}

fn write_texts<W: fmt::Write>(f: &mut fmt::Formatter<W>, span: &SdkSpan<'_>) -> fmt::Result {
    write_row(f, "name", Escaped(span.name()))?;
    write_row(f, "trace state", Escaped(span.trace_state()))?;
    write_row(f, "scope name", Escaped(span.scope_name()))?;
    write_row(f, "scope version", Escaped(span.scope_version()))?;
    write_row(f, "description", Escaped(span.description()))
}

fn write_counts<W: fmt::Write>(f: &mut fmt::Formatter<W>, span: &SdkSpan<'_>) -> fmt::Result {
    let attributes = span.dropped_attributes();
    let events = span.dropped_events();
    let links = span.dropped_links();
    write_row(
        f,
        "dropped",
        format_args!("attributes {attributes}, events {events}, links {links}"),
    )?;
    write_row(f, "rows", span.row_count())
}

/// A span, but for its rows.
#[derive(Clone, Copy)]
pub struct Header<'s, 'a> {
    pub span: &'s SdkSpan<'a>,
}

impl fmt::Display for Header<'_, '_> {
    fn fmt<W: fmt::Write>(&self, f: &mut fmt::Formatter<W>) -> fmt::Result {
        write_ids(f, self.span)?;
        write_course(f, self.span)?;
        write_texts(f, self.span)?;
        write_counts(f, self.span)
    }
}
