//! The fields of a Datadog span but for its meta and metrics: a label and a value in each row.
use conversion::dd_span::DdSpan;
use escape::Whole;
use notation::report::write_row;
use std::fmt;

#[derive(Clone, Copy)]
pub struct Head<'s, 'b, 'm, 'a> {
    pub span: &'s DdSpan<'b, 'm, 'a>,
}

fn write_id<W: fmt::Write>(f: &mut fmt::Formatter<W>, label: &str, id: u64) -> fmt::Result {
    write_row(f, label, format_args!("{id:016x}"))
}

impl fmt::Display for Head<'_, '_, '_, '_> {
    fn fmt<W: fmt::Write>(&self, f: &mut fmt::Formatter<W>) -> fmt::Result {
        let span = self.span;
        write_row(f, "service", Whole(span.service()))?;
        write_row(f, "name", Whole(span.name()))?;
        write_row(f, "resource", Whole(span.resource()))?;
        write_row(f, "type", Whole(span.span_type()))?;
        write_id(f, "trace id", span.trace_id())?;
        write_id(f, "span id", span.span_id())?;
        write_id(f, "parent id", span.parent_id())?;
        write_row(f, "start", span.start())?;
        write_row(f, "duration", span.duration())?;
        write_row(f, "error", span.error())
    }
}
