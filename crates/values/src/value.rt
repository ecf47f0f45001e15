//! A value over its bytes.
ghost use Rattle.std.specs.Prelude.{◌≡◌};
ghost use Rattle.values.specs.Format.{alone, atom_of, atom_kind, datum_in, datum_kind, meant};
ghost use Rattle.values.specs.Shown.{number_of, metric_of};

use crate::doubles::{nearest_pattern, whole_number};
use crate::kinds::{ScalarKind, ValueKind};
use lent_bytes::fields::Number;
use lent_bytes::memory::{after, byte};

/// A double: its IEEE 754 binary64 pattern, and the text that it came with.
#[derive(Clone, Copy)]
pub struct Double<'a> {
    pub pattern: u64,
    pub text: &'a [u8],
}

/// A value that is no array.
#[derive(Clone, Copy)]
pub enum Scalar<'a> {
    Bool(bool),
    I64(i64),
    F64(Double<'a>),
    String(&'a [u8]),
}

/// An array, over the bytes of its elements.
#[derive(Clone, Copy)]
pub struct Array<'a> {
    pub kind: ScalarKind,
    pub bytes: &'a [u8],
}

/// A value: a scalar, or an array of scalars of one kind.
#[derive(Clone, Copy)]
pub enum Value<'a> {
    Scalar(Scalar<'a>),
    Array(Array<'a>),
}

impl<'a> Scalar<'a> {
    /// The scalar that `bytes` are as a whole value, whatever they are: a missing byte is 0.
    fn new(kind: ScalarKind, bytes: &'a [u8]) -> Scalar<'a>
        ensures { atom_of result ≡ alone kind bytes.now }
    {
        match kind {
            ScalarKind::Bool => Scalar::Bool(byte(bytes, 0) == 1),
            ScalarKind::I64 => Scalar::I64(i64::read(bytes, 0)),
            ScalarKind::F64 => {
                let pattern = u64::read(bytes, 0);
                let text = after(bytes, 8);
                Scalar::F64(Double { pattern, text })
            }
            ScalarKind::String => Scalar::String(bytes),
        }
    }

    /// The kind of this scalar.
    pub fn kind(&self) -> ScalarKind
        ensures { result ≡ atom_kind (atom_of self.now) }
    {
        match self {
            Scalar::Bool(_) => ScalarKind::Bool,
            Scalar::I64(_) => ScalarKind::I64,
            Scalar::F64(_) => ScalarKind::F64,
            Scalar::String(_) => ScalarKind::String,
        }
    }
}

impl<'a> Value<'a> {
    /// The value of this kind in `bytes`, whatever they are: `check` says whether they have its form.
    pub fn new(kind: ValueKind, bytes: &'a [u8]) -> Value<'a>
        ensures { meant result ≡ datum_in kind bytes.now }
    {
        match kind {
            ValueKind::Scalar(kind) => Value::Scalar(Scalar::new(kind, bytes)),
            ValueKind::Array(kind) => Value::Array(Array { kind, bytes }),
        }
    }

    /// The kind of this value.
    pub fn kind(&self) -> ValueKind
        ensures { result ≡ datum_kind (meant self.now) }
    {
        match self {
            Value::Scalar(scalar) => ValueKind::Scalar(scalar.kind()),
            Value::Array(array) => ValueKind::Array(array.kind),
        }
    }

    /// The whole number that the value is: an integer, or a double that is whole and from -2^63 to
    /// below 2^63.
    pub fn number(&self) -> Option<i64>
        ensures { result ≡ number_of (meant self.now) }
    {
        match self {
            Value::Scalar(Scalar::I64(i)) => Some(*i),
            Value::Scalar(Scalar::F64(double)) => whole_number(double.pattern),
            _ => None,
        }
    }

    /// The binary64 pattern of a number: that of the nearest double for an integer, ties to even,
    /// and a double's own.
    pub fn metric(&self) -> Option<u64>
        ensures { result ≡ metric_of (meant self.now) }
    {
        match self {
            Value::Scalar(Scalar::I64(i)) => Some(nearest_pattern(*i)),
            Value::Scalar(Scalar::F64(double)) => Some(double.pattern),
            _ => None,
        }
    }
}
