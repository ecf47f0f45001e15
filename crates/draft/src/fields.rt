//! What stands in a line, field by field.
ghost use Rattle.std.specs.Prelude.{◌≡◌, IfSome, Ok};

use crate::fault::CallFault;
use notation::cut::word;
use notation::element::number_of;
use notation::fault::LineFault;
use notation::hex::pattern;
use notation::quoted::Quoted;
use notation::raw::{counted, raw_bytes};
use notation::written::Written;
use std::alloc::Global;
use std::str::FromStr;

/// The number that a word names, or else that it writes.
pub fn coded(named: Option<u8>, word: &[u8], fault: CallFault) -> Result<u8, CallFault>
    ensures { IfSome named (λ n. result ≡ Ok n) }
{
    match named {
        Some(number) => Ok(number),
        None => number_in(word, fault),
    }
}

/// The number that a word writes.
fn number_in<T: FromStr + Drop>(word: &[u8], fault: CallFault) -> Result<T, CallFault>
where
    T::Err: Drop,
{
    number_of(word, LineFault::NotInteger).or(Err(fault))
}

/// The fields of a line that are not read yet.
#[derive(Drop)]
pub struct Fields<'a> {
    heap: Global,
    rest: &'a [u8],
}

impl<'a> Fields<'a> {
    pub fn new(heap: Global, rest: &'a [u8]) -> Fields<'a> {
        Fields { heap, rest }
    }

    /// The next word.
    pub fn word(&mut self) -> Result<&'a [u8], CallFault> {
        if self.rest.is_empty() {
            return Err(CallFault::Missing);
        }
        let (first, rest) = word(self.rest);
        self.rest = rest;
        Ok(first)
    }

    pub fn number<T: FromStr + Drop>(&mut self, fault: CallFault) -> Result<T, CallFault>
    where
        T::Err: Drop,
    {
        number_in(self.word()?, fault)
    }

    pub fn time(&mut self) -> Result<i64, CallFault> {
        self.number(CallFault::NotTime)
    }

    /// The upper and the lower half of a trace id.
    pub fn trace_id(&mut self) -> Result<(u64, u64), CallFault> {
        let digits = self.word()?;
        let (high, low) = digits.split_at_checked(16).ok_or(CallFault::NotTraceId)?;
        let high = pattern(high).ok_or(CallFault::NotTraceId)?;
        let low = pattern(low).ok_or(CallFault::NotTraceId)?;
        Ok((high, low))
    }

    pub fn span_id(&mut self) -> Result<u64, CallFault> {
        pattern(self.word()?).ok_or(CallFault::NotSpanId)
    }

    /// A text in quotes, repeated where `*COUNT` stands behind it.
    pub fn text(&mut self) -> Result<Vec<u8>, CallFault> {
        if self.rest.is_empty() {
            return Err(CallFault::Missing);
        }
        let string = Quoted::parse(self.heap, self.rest)?;
        let (behind, rest) = word(string.rest);
        self.rest = rest;
        match behind.strip_prefix(b"*") {
            Some(count) => Ok(counted(self.heap, string.bytes.as_slice(), count)?),
            None if behind.is_empty() => Ok(string.bytes),
            None => Err(CallFault::Text(LineFault::AfterQuote)),
        }
    }

    /// Bytes in hex digits.
    pub fn bytes(&mut self) -> Result<Vec<u8>, CallFault> {
        Ok(raw_bytes(self.heap, self.word()?)?)
    }

    /// A key: a word as it is, or a text in quotes.
    pub fn key(&mut self) -> Result<Vec<u8>, CallFault> {
        if self.rest.first() == Some(&b'"') {
            return self.text();
        }
        let word = self.word()?;
        let mut key = Vec::new(self.heap);
        key.extend_from_slice(word).map_err(LineFault::from)?;
        Ok(key)
    }

    /// The value that is left.
    pub fn value(self) -> Result<Written, CallFault> {
        Ok(Written::parse(self.heap, self.rest)?)
    }

    /// Nothing may be left.
    pub fn finish(self) -> Result<(), CallFault> {
        if self.rest.is_empty() {
            Ok(())
        } else {
            Err(CallFault::Behind)
        }
    }
}
