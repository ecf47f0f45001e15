//! The kinds of value, and the numbers by which blocks name them.
ghost use Rattle.std.specs.Prelude.{◌≡◌, Some};
ghost use Rattle.values.specs.Kinds.{kind_number, NamesKind};
ghost use Rattle.values.specs.KindNames.{name_of_kind};

use std::fmt;

/// The kind of a value that is no array, and of an array's elements.
#[derive(Clone, Copy, PartialEq, Eq, Debug)]
pub enum ScalarKind {
    Bool,
    I64,
    F64,
    String,
}

/// The kind of a value: a scalar, or an array of scalars of one kind.
#[derive(Clone, Copy, PartialEq, Eq, Debug)]
pub enum ValueKind {
    Scalar(ScalarKind),
    Array(ScalarKind),
}

/// A number that names no kind.
#[derive(Clone, Copy, PartialEq, Eq, Debug)]
pub struct UnknownKind(pub u8);

impl TryFrom<u8> for ValueKind {
    type Error = UnknownKind;

    ghost try_from_gives = { NamesKind };

    /// The kind that a block's number names; none from 8 on.
    fn try_from(n: u8) -> Result<ValueKind, UnknownKind> {
        match n {
            0 => Ok(ValueKind::Scalar(ScalarKind::Bool)),
            1 => Ok(ValueKind::Scalar(ScalarKind::I64)),
            2 => Ok(ValueKind::Scalar(ScalarKind::F64)),
            3 => Ok(ValueKind::Scalar(ScalarKind::String)),
            4 => Ok(ValueKind::Array(ScalarKind::Bool)),
            5 => Ok(ValueKind::Array(ScalarKind::I64)),
            6 => Ok(ValueKind::Array(ScalarKind::F64)),
            7 => Ok(ValueKind::Array(ScalarKind::String)),
            _ => Err(UnknownKind(n)),
        }
    }
}

impl From<ValueKind> for u8 {
    ghost from_gives = { λ kind n. n ≡ kind_number kind };

    /// The number by which a block names this kind.
    fn from(kind: ValueKind) -> u8 {
        match kind {
            ValueKind::Scalar(kind) => kind as u8,
            ValueKind::Array(kind) => 4 + kind as u8,
        }
    }
}

impl ValueKind {
    /// The word that names this kind, where values are written and printed.
    pub fn name(self) -> &'static str
        ensures { result.now ≡ name_of_kind self }
    {
        match self {
            ValueKind::Scalar(ScalarKind::Bool) => "bool",
            ValueKind::Scalar(ScalarKind::I64) => "int",
            ValueKind::Scalar(ScalarKind::F64) => "double",
            ValueKind::Scalar(ScalarKind::String) => "string",
            ValueKind::Array(ScalarKind::Bool) => "bools",
            ValueKind::Array(ScalarKind::I64) => "ints",
            ValueKind::Array(ScalarKind::F64) => "doubles",
            ValueKind::Array(ScalarKind::String) => "strings",
        }
    }
}

impl fmt::Display for ValueKind {
    ghost output = { λ k. Some (name_of_kind k) };

    fn fmt<W: fmt::Write>(&self, f: &mut fmt::Formatter<W>) -> fmt::Result {
        f.pad(self.name())
    }
}
