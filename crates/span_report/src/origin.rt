//! Where a block stands.
use std::fmt;

/// A line of standard input, or a file.
#[derive(Clone, Copy)]
pub enum Origin<'a> {
    Line(u64),
    File(&'a str),
}

impl fmt::Display for Origin<'_> {
    fn fmt<W: fmt::Write>(&self, f: &mut fmt::Formatter<W>) -> fmt::Result {
        match self {
            Origin::Line(number) => write!(f, "line {number:<11}"),
            Origin::File(name) => write!(f, "file {name:<11}"),
        }
    }
}
