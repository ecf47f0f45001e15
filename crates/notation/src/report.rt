//! What is printed of a line: a label and a value in each row.
use crate::fault::LineFault;
use std::fmt;
use std::fmt::Display;

/// A label and a value, in columns.
pub fn write_row<W: fmt::Write, D: Display + Drop>(
    f: &mut fmt::Formatter<W>,
    label: &str,
    value: D,
) -> fmt::Result {
    writeln!(f, "  {label:<14} {value}")
}

/// A line that is not read.
#[derive(Clone, Copy)]
pub struct NotRead {
    pub line: u64,
    pub fault: LineFault,
}

impl fmt::Display for NotRead {
    fn fmt<W: fmt::Write>(&self, f: &mut fmt::Formatter<W>) -> fmt::Result {
        let line = self.line;
        let fault = self.fault;
        writeln!(f, "line {line:<11} not read: {fault}")
    }
}
