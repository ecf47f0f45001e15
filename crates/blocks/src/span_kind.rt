//! The kind and the status of a span.
ghost use Rattle.std.specs.Prelude.{◌≡◌, Some};
ghost use Rattle.blocks.specs.Facts.{span_kind_number, span_kind_of, status_number, status_of};
ghost use Rattle.blocks.specs.Names.{kind_name, status_name};

use std::fmt;

/// What a span stands for.
#[derive(Clone, Copy, PartialEq, Eq, Debug)]
pub enum SpanKind {
    Internal = 1,
    Server = 2,
    Client = 3,
    Producer = 4,
    Consumer = 5,
}

/// The kind with a number; internal for a number that names none.
impl From<u8> for SpanKind {
    ghost from_gives = { λ n kind. kind ≡ span_kind_of n };

    fn from(n: u8) -> SpanKind {
        match n {
            2 => SpanKind::Server,
            3 => SpanKind::Client,
            4 => SpanKind::Producer,
            5 => SpanKind::Consumer,
            _ => SpanKind::Internal,
        }
    }
}

impl From<SpanKind> for u8 {
    ghost from_gives = { λ kind n. n ≡ span_kind_number kind };

    fn from(kind: SpanKind) -> u8 {
        kind as u8
    }
}

/// How a span ended.
#[derive(Clone, Copy, PartialEq, Eq, Debug)]
pub enum StatusCode {
    Unset,
    Ok,
    Error,
}

/// The status with a number; unset for a number that names none.
impl From<u8> for StatusCode {
    ghost from_gives = { λ n status. status ≡ status_of n };

    fn from(n: u8) -> StatusCode {
        match n {
            1 => StatusCode::Ok,
            2 => StatusCode::Error,
            _ => StatusCode::Unset,
        }
    }
}

impl From<StatusCode> for u8 {
    ghost from_gives = { λ status n. n ≡ status_number status };

    fn from(status: StatusCode) -> u8 {
        status as u8
    }
}

impl fmt::Display for SpanKind {
    ghost output = { λ k. Some (kind_name k) };

    fn fmt<W: fmt::Write>(&self, f: &mut fmt::Formatter<W>) -> fmt::Result {
        f.pad(match self {
            SpanKind::Internal => "internal",
            SpanKind::Server => "server",
            SpanKind::Client => "client",
            SpanKind::Producer => "producer",
            SpanKind::Consumer => "consumer",
        })
    }
}

impl fmt::Display for StatusCode {
    ghost output = { λ s. Some (status_name s) };

    fn fmt<W: fmt::Write>(&self, f: &mut fmt::Formatter<W>) -> fmt::Result {
        f.pad(match self {
            StatusCode::Unset => "unset",
            StatusCode::Ok => "ok",
            StatusCode::Error => "error",
        })
    }
}
