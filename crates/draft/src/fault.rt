//! Why a line is no call.
use notation::fault::LineFault;
use std::fmt;

#[derive(Clone, Copy)]
pub enum CallFault {
    /// The first word names none.
    Unknown,
    /// Something is missing at the end.
    Missing,
    /// Something follows the last thing that the call takes.
    Behind,
    NotMemory,
    NotRows,
    NotSpanKind,
    NotTraceId,
    NotSpanId,
    NotTime,
    NotList,
    NotStatus,
    /// A text or a value is not read.
    Text(LineFault),
}

impl From<LineFault> for CallFault {
    fn from(fault: LineFault) -> CallFault {
        CallFault::Text(fault)
    }
}

impl fmt::Display for CallFault {
    fn fmt<W: fmt::Write>(&self, f: &mut fmt::Formatter<W>) -> fmt::Result {
        match self {
            CallFault::Unknown => f.pad("no such call"),
            CallFault::Missing => f.pad("something is missing at the end"),
            CallFault::Behind => f.pad("something behind the end of the call"),
            CallFault::NotMemory => f.pad("not a number of bytes: 0 to 1,048,576"),
            CallFault::NotRows => f.pad("not a number of rows: 0 to 65,535"),
            CallFault::NotSpanKind => f.pad("not a kind of span: a word or 0 to 255"),
            CallFault::NotTraceId => f.pad("a trace id must be 32 hex digits"),
            CallFault::NotSpanId => f.pad("the id of a span must be 16 hex digits"),
            CallFault::NotTime => f.pad("not a time: -2^63 to 2^63 - 1"),
            CallFault::NotList => f.pad("not a list: a word or 0 to 255"),
            CallFault::NotStatus => f.pad("not a status: a word or 0 to 255"),
            CallFault::Text(fault) => fault.fmt(f),
        }
    }
}
