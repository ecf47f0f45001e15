//! Meta and metrics, an entry in each row: its key and its text, or its key and the pattern of its double.
use conversion::dd_span::DdSpan;
use escape::Whole;
use notation::report::write_row;
use span_report::columns::InColumn;
use std::fmt;

/// How many characters a key has at least.
const KEY_WIDTH: usize = 28;

/// A key at the left of its column.
pub(crate) fn key_column(key: &[u8]) -> InColumn<Whole<'_>> {
    InColumn {
        value: Whole(key),
        width: KEY_WIDTH,
    }
}

#[derive(Clone, Copy)]
pub struct Meta<'s, 'b, 'm, 'a> {
    pub span: &'s DdSpan<'b, 'm, 'a>,
}

impl fmt::Display for Meta<'_, '_, '_, '_> {
    fn fmt<W: fmt::Write>(&self, f: &mut fmt::Formatter<W>) -> fmt::Result {
        for i in 0..self.span.meta_count() {
            if let Ok(entry) = self.span.meta(i) {
                let key = key_column(entry.key);
                let text = Whole(entry.value);
                write_row(f, "meta", format_args!("{key} {text}"))?;
            }
        }
        Ok(())
    }
}

#[derive(Clone, Copy)]
pub struct Metrics<'s, 'b, 'm, 'a> {
    pub span: &'s DdSpan<'b, 'm, 'a>,
}

impl fmt::Display for Metrics<'_, '_, '_, '_> {
    fn fmt<W: fmt::Write>(&self, f: &mut fmt::Formatter<W>) -> fmt::Result {
        for i in 0..self.span.metrics_count() {
            if let Ok(entry) = self.span.metric(i) {
                let key = key_column(entry.key);
                let pattern = entry.pattern;
                write_row(f, "metric", format_args!("{key} 0x{pattern:016x}"))?;
            }
        }
        Ok(())
    }
}
