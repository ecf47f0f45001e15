//! Why a line is not read.
ghost use Rattle.std.specs.Prelude.{◌≡◌};
ghost use Rattle.notation.specs.declared.fault.LineFault.TheVariants.{NoMemory};

use std::alloc::{AllocError, AllocFailed};
use std::fmt;

#[derive(Clone, Copy)]
pub enum LineFault {
    NoKind,
    UnknownKind,
    NotBool,
    NotInteger,
    BadPattern,
    NoColon,
    NoQuote,
    AfterQuote,
    UnknownEscape,
    BadByteEscape,
    LongText,
    NotKindNumber,
    NoBytes,
    NotHex,
    OddHex,
    NotCount,
    TooManyBytes,
    NoMemory,
}

impl From<AllocError> for LineFault {
    ghost from_gives = { λ _ r. r ≡ NoMemory };

    fn from(_e: AllocError) -> LineFault {
        LineFault::NoMemory
    }
}

impl<T: Drop> From<AllocFailed<T>> for LineFault {
    ghost from_gives = { λ _ r. r ≡ NoMemory };

    fn from(_e: AllocFailed<T>) -> LineFault {
        LineFault::NoMemory
    }
}

impl fmt::Display for LineFault {
    fn fmt<W: fmt::Write>(&self, f: &mut fmt::Formatter<W>) -> fmt::Result {
        f.pad(match self {
            LineFault::NoKind => "no kind after the key",
            LineFault::UnknownKind => "an unknown kind",
            LineFault::NotBool => "not a bool: true or false",
            LineFault::NotInteger => "not a whole number from -2^63 to 2^63 - 1",
            LineFault::BadPattern => "a pattern must be 16 hex digits",
            LineFault::NoColon => "no colon after the pattern",
            LineFault::NoQuote => "a missing quote",
            LineFault::AfterQuote => "something behind the closing quote",
            LineFault::UnknownEscape => "an unknown escape: \\\\, \\\", \\n and \\xHH are known",
            LineFault::BadByteEscape => "two hex digits must follow \\x",
            LineFault::LongText => "a text over 65,535 bytes in an array",
            LineFault::NotKindNumber => "not a kind's number: 0 to 255",
            LineFault::NoBytes => "no bytes: - stands for none",
            LineFault::NotHex => "not a hex digit",
            LineFault::OddHex => "an odd number of hex digits",
            LineFault::NotCount => "not a count",
            LineFault::TooManyBytes => "over 1,048,576 bytes",
            LineFault::NoMemory => "no memory left",
        })
    }
}
