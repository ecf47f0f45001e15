//! All that is printed of a span: its header, a label and a value in each row, and its rows, each on a line.
use crate::header::Header;
use crate::rows::Rows;
use blocks::sdk_span::SdkSpan;
use std::fmt;

#[derive(Clone, Copy)]
pub struct Facts<'s, 'a> {
    pub span: &'s SdkSpan<'a>,
}

impl fmt::Display for Facts<'_, '_> {
    fn fmt<W: fmt::Write>(&self, f: &mut fmt::Formatter<W>) -> fmt::Result {
        let span = self.span;
        write!(f, "{}{}", Header { span }, Rows { span })
    }
}
