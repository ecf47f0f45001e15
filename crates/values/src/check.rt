//! Whether bytes are a value of their kind.
ghost use Rattle.std.specs.Prelude.{◌≡◌, length, IfOk, Some, nat_lt};
ghost use Rattle.std.specs.Result.{result_err};
ghost use Rattle.std.specs.Fmt.{signed_decimal};
ghost use Rattle.values.specs.Faults.{fault_number, fault_message, value_fault};
ghost use Rattle.values.specs.Format.{alone_formed, formed, meant, value_of};
ghost use Rattle.values.specs.Shown.{display, datum_readable};
ghost use Rattle.values.specs.declared.check.ValueFault.TheVariants.{Form};

use crate::elements::{DOUBLE_TEXT, are_readable, fill, is_readable};
use crate::kinds::{ScalarKind, UnknownKind, ValueKind};
use crate::show::{TEXT_BYTES, push_value};
use crate::value::{Scalar, Value};
use lent_bytes::memory::byte;
use lent_bytes::texts::TextWriter;
use std::fmt;

/// What is wrong with bytes that are no value of their kind.
#[derive(Clone, Copy, PartialEq, Eq, Debug)]
pub enum ValueFault {
    /// The bytes have not the form of the kind, or the number names no kind.
    Form,
    /// A text in the value is not UTF-8.
    NotUtf8,
    /// The display text has over 4,096 bytes.
    TooLong,
}

impl From<ValueFault> for u8 {
    ghost from_gives = { λ fault n. n ≡ fault_number fault };

    /// The number under which a fault is answered.
    fn from(fault: ValueFault) -> u8 {
        match fault {
            ValueFault::Form => 8,
            ValueFault::NotUtf8 => 5,
            ValueFault::TooLong => 9,
        }
    }
}

impl From<UnknownKind> for ValueFault {
    ghost from_gives = { λ _ fault. fault ≡ Form };

    fn from(_kind: UnknownKind) -> ValueFault {
        Self::Form
    }
}

fn is_formed_scalar(kind: ScalarKind, bytes: &[u8]) -> bool
    ensures { result ≡ alone_formed kind bytes.now }
{
    match kind {
        ScalarKind::Bool => bytes.len() == 1 && byte(bytes, 0) < 2,
        ScalarKind::I64 => bytes.len() == 8,
        ScalarKind::F64 => bytes.len() > 8 && bytes.len() <= 8 + DOUBLE_TEXT,
        ScalarKind::String => true,
    }
}

/// Whether bytes have the form of a kind, an array in each of its elements.
pub(crate) fn is_formed(kind: ValueKind, bytes: &[u8]) -> bool
    ensures { result ≡ formed kind bytes.now }
{
    match kind {
        ValueKind::Scalar(kind) => is_formed_scalar(kind, bytes),
        ValueKind::Array(kind) => fill(kind, bytes),
    }
}

fn has_utf8_texts(value: Value<'_>) -> bool
    ensures { result ≡ datum_readable (meant value.entry) }
{
    match value {
        Value::Scalar(scalar) => is_readable(scalar),
        Value::Array(array) => are_readable(array.kind, array.bytes),
    }
}

/// Whether the display text is written over the limit: it then fills one byte more.
fn is_written_too_long(value: Value<'_>) -> bool
    ensures { result ≡ nat_lt 4096 (length (display (meant value.entry))) }
{
    let mut scratch = [0u8; TEXT_BYTES + 1];
    let mut text = TextWriter::new(&mut scratch);
    push_value(&mut text, value, true);
    text.len() > TEXT_BYTES
}

/// An integer's text never is too long: it has at most 20 bytes.
fn is_integer_too_long(number: i64) -> bool
    ensures { result ≡ nat_lt 4096 (length (signed_decimal number)) }
{
    let _ = number;
    false
}

/// Whether the display text has over 4,096 bytes. Only an array's is written to find out.
fn is_too_long(value: Value<'_>) -> bool
    ensures { result ≡ nat_lt 4096 (length (display (meant value.entry))) }
{
    match value {
        Value::Scalar(Scalar::Bool(_)) => false,
        Value::Scalar(Scalar::I64(number)) => is_integer_too_long(number),
        Value::Scalar(Scalar::F64(double)) => double.text.len() > TEXT_BYTES,
        Value::Scalar(Scalar::String(text)) => text.len() > TEXT_BYTES,
        Value::Array(_) => is_written_too_long(value),
    }
}

/// The value that `bytes` are under a kind's number, or what is wrong with them: first their form,
/// then the texts in them, then the length of the display text. It takes the number that a dashboard sent, since one
/// that names no kind is a fault of the form.
pub fn check(kind: u8, bytes: &[u8]) -> Result<Value<'_>, ValueFault>
    ensures fault { result_err result ≡ value_fault kind bytes.now }
    ensures value { IfOk result (λ v. value_of kind bytes.now ≡ Some (meant v)) }
{
    let kind = ValueKind::try_from(kind)?;
    if !is_formed(kind, bytes) {
        return Err(ValueFault::Form);
    }
    let value = Value::new(kind, bytes);
    if !has_utf8_texts(value) {
        return Err(ValueFault::NotUtf8);
    }
    if is_too_long(value) {
        return Err(ValueFault::TooLong);
    }
    Ok(value)
}

impl fmt::Display for ValueFault {
    ghost output = { λ f. Some (fault_message f) };

    fn fmt<W: fmt::Write>(&self, f: &mut fmt::Formatter<W>) -> fmt::Result {
        f.pad(match self {
            ValueFault::Form => "the bytes do not have the form of the kind",
            ValueFault::NotUtf8 => "a text in the value is not UTF-8",
            ValueFault::TooLong => "the display text has over 4,096 bytes",
        })
    }
}
