//! Values as they are written, put into the bytes of their kind.
ghost use Rattle.std.specs.Prelude.{◌≡◌, ◌<◌, ◌++◌, length, IfSome, IfOk, Ok, OnOk};
ghost use Rattle.lent_bytes.specs.Fields.{bytes2};
ghost use Rattle.notation.specs.Scalars.{bool_in, WritesDouble};

use crate::cut::cut;
use crate::fault::LineFault;
use crate::hex;
use crate::quoted::Quoted;
use std::alloc::Global;
use std::str::{FromStr, from_utf8};
use values::kinds::{ScalarKind, ValueKind};
use values::value::Double;

fn bool_of(text: &[u8]) -> Result<u8, LineFault>
    ensures { result ≡ bool_in text.now }
{
    if text == b"true".as_slice() {
        Ok(1)
    } else if text == b"false".as_slice() {
        Ok(0)
    } else {
        Err(LineFault::NotBool)
    }
}

/// The number that `text` writes, the fault where it writes none of its type.
pub fn number_of<T: FromStr + Drop>(text: &[u8], fault: LineFault) -> Result<T, LineFault>
where
    T::Err: Drop,
    ensures { IfOk result (λ number. T.from_str_gives text.now (Ok number)) }
{
    let text = from_utf8(text).or(Err(fault))?;
    text.parse::<T>().or(Err(fault))
}

/// A double as it is written.
fn double_of(text: &[u8]) -> Result<Double<'_>, LineFault>
    ensures { IfOk result (λ d. WritesDouble text.now d.pattern d.text.now) }
{
    let (digits, text) = cut(text, b':');
    let pattern = hex::pattern(digits).ok_or(LineFault::BadPattern)?;
    let text = text.ok_or(LineFault::NoColon)?;
    Ok(Double { pattern, text })
}

/// The bytes of a value that is being read, and where memory for its texts comes from.
#[derive(Drop)]
struct ValueBytes {
    heap: Global,
    bytes: Vec<u8>,
}

impl ValueBytes {
    /// A text behind its length in two bytes.
    fn push_sized(&mut self, text: &[u8]) -> Result<(), LineFault>
        ensures { OnOk result (self.new.bytes.items ≡ self.old.bytes.items ++ (bytes2 (length text.now) ++ text.now)) }
    {
        let len = u16::try_from(text.len()).or(Err(LineFault::LongText))?;
        self.bytes.extend_from_slice(&len.to_le_bytes())?;
        self.bytes.extend_from_slice(text)?;
        Ok(())
    }

    /// The whole number that `text` writes.
    fn push_integer(&mut self, text: &[u8]) -> Result<(), LineFault> {
        let number = number_of::<i64>(text, LineFault::NotInteger)?;
        self.bytes.extend_from_slice(&number.to_le_bytes())?;
        Ok(())
    }

    /// A value that is no array, alone in `text`.
    fn push_scalar(&mut self, kind: ScalarKind, text: &[u8]) -> Result<(), LineFault> {
        match kind {
            ScalarKind::Bool => self.bytes.push(bool_of(text)?)?,
            ScalarKind::I64 => self.push_integer(text)?,
            ScalarKind::F64 => {
                let double = double_of(text)?;
                self.bytes.extend_from_slice(&double.pattern.to_le_bytes())?;
                self.bytes.extend_from_slice(double.text)?;
            }
            ScalarKind::String => {
                let string = Quoted::parse(self.heap, text)?;
                if !string.rest.is_empty() {
                    return Err(LineFault::AfterQuote);
                }
                self.bytes.extend_from_slice(string.bytes.as_slice())?;
            }
        }
        Ok(())
    }

    /// A string of an array at the front of `text`; answers what follows its comma.
    fn push_string<'a>(&mut self, text: &'a [u8]) -> Result<Option<&'a [u8]>, LineFault>
        ensures { IfOk result (λ o. IfSome o (λ t. length t.now < length text.now)) }
    {
        let string = Quoted::parse(self.heap, text)?;
        self.push_sized(string.bytes.as_slice())?;
        match string.rest {
            [] => Ok(None),
            [b',', rest @ ..] => Ok(Some(rest)),
            _ => Err(LineFault::AfterQuote),
        }
    }

    /// The first element of an array's `text`; answers what follows its comma.
    fn push_element<'a>(
        &mut self,
        kind: ScalarKind,
        text: &'a [u8],
    ) -> Result<Option<&'a [u8]>, LineFault>
        ensures { IfOk result (λ o. IfSome o (λ t. length t.now < length text.now)) }
    {
        let (first, rest) = cut(text, b',');
        match kind {
            ScalarKind::Bool => self.bytes.push(bool_of(first)?)?,
            ScalarKind::I64 => self.push_integer(first)?,
            ScalarKind::F64 => {
                let double = double_of(first)?;
                self.bytes.extend_from_slice(&double.pattern.to_le_bytes())?;
                self.push_sized(double.text)?;
            }
            // A string may have commas of its own.
            ScalarKind::String => return self.push_string(text),
        }
        Ok(rest)
    }

    fn push_array(&mut self, kind: ScalarKind, text: &[u8]) -> Result<(), LineFault> {
        let mut left = Some(text).filter(|text| !text.is_empty());
        while let Some(text) = left {
            left = self.push_element(kind, text)?;
        }
        Ok(())
    }
}

/// The bytes of the value of a kind that `text` writes.
pub fn value_bytes(heap: Global, kind: ValueKind, text: &[u8]) -> Result<Vec<u8>, LineFault> {
    let bytes = Vec::new(heap);
    let mut value = ValueBytes { heap, bytes };
    match kind {
        ValueKind::Scalar(kind) => value.push_scalar(kind, text)?,
        ValueKind::Array(kind) => value.push_array(kind, text)?,
    }
    Ok(value.bytes)
}
