//! What is printed of a row: its number, list and key in columns, and what its list gives it.
use crate::columns::InColumn;
use blocks::lists::List;
use blocks::row::Row;
use blocks::sdk_span::SdkSpan;
use escape::Escaped;
use notation::hex::Hex;
use std::fmt;
use values::kinds::ValueKind;
use values::show::display_text;
use values::value::Value;

/// What a row has besides its key, by its list.
#[derive(Clone, Copy)]
struct Content<'a> {
    list: Option<List>,
    row: Row<'a>,
}

fn write_value<W: fmt::Write>(f: &mut fmt::Formatter<W>, row: Row<'_>) -> fmt::Result {
    let Ok(kind) = ValueKind::try_from(row.kind) else {
        let number = row.kind;
        return write!(f, "no kind has the number {number}");
    };
    let mut text = [0u8; 4096];
    let len = display_text(&Value::new(kind, row.value), &mut text);
    let shown = Escaped(lent_bytes::memory::part(&text, 0, len));
    write!(f, "{kind:<8} {shown}")
}

impl fmt::Display for Content<'_> {
    fn fmt<W: fmt::Write>(&self, f: &mut fmt::Formatter<W>) -> fmt::Result {
        let row = self.row;
        match self.list {
            Some(List::Event) => {
                let time = row.time;
                write!(f, "at       {time}")
            }
            Some(List::Link) => {
                let bytes = Hex(row.value);
                write!(f, "to       {bytes}")
            }
            _ => write_value(f, row),
        }
    }
}

/// The name of a row's list, where there is such a list.
#[derive(Clone, Copy)]
struct ListName(Option<List>);

impl fmt::Display for ListName {
    fn fmt<W: fmt::Write>(&self, f: &mut fmt::Formatter<W>) -> fmt::Result {
        match self.0 {
            Some(list) => list.fmt(f),
            None => f.pad("no list"),
        }
    }
}

/// A row, and its number.
#[derive(Clone, Copy)]
struct Numbered<'a> {
    number: u16,
    row: Row<'a>,
}

impl fmt::Display for Numbered<'_> {
    fn fmt<W: fmt::Write>(&self, f: &mut fmt::Formatter<W>) -> fmt::Result {
        let number = self.number;
        let row = self.row;
        let list = List::try_from(row.list).ok();
        let name = ListName(list);
        let key = InColumn {
            value: Escaped(row.key),
            width: 28,
        };
        let content = Content { list, row };
        write!(f, "  {number:>5} {name:<15} {key} {content}")
    }
}

/// The rows of a span, each on a line.
#[derive(Clone, Copy)]
pub struct Rows<'s, 'a> {
    pub span: &'s SdkSpan<'a>,
}

impl fmt::Display for Rows<'_, '_> {
    fn fmt<W: fmt::Write>(&self, f: &mut fmt::Formatter<W>) -> fmt::Result {
        // By number, since it is printed.
        for number in 0..self.span.row_count() {
            if let Ok(row) = self.span.row(number) {
                writeln!(f, "{}", Numbered { number, row })?;
            }
        }
        Ok(())
    }
}
