//! A value as a line writes it, whatever it is a value of.
use crate::cut::word;
use crate::element::{number_of, value_bytes};
use crate::fault::LineFault;
use crate::named::Notation;
use crate::raw::raw_bytes;
use std::alloc::Global;

/// The number of a value's kind, and its bytes. The kind is a number, since a line may name one that no kind has.
#[derive(Drop)]
pub struct Written {
    pub kind: u8,
    pub bytes: Vec<u8>,
}

impl Written {
    /// The value that a text writes as `KIND VALUE` or `raw NUMBER BYTES`.
    pub fn parse(heap: Global, text: &[u8]) -> Result<Written, LineFault> {
        if text.is_empty() {
            return Err(LineFault::NoKind);
        }
        let (name, value) = word(text);
        match Notation::named(name) {
            Some(Notation::Typed(kind)) => Ok(Written {
                kind: u8::from(kind),
                bytes: value_bytes(heap, kind, value)?,
            }),
            Some(Notation::Raw) => {
                let (number, bytes) = word(value);
                Ok(Written {
                    kind: number_of(number, LineFault::NotKindNumber)?,
                    bytes: raw_bytes(heap, bytes)?,
                })
            }
            None => Err(LineFault::UnknownKind),
        }
    }
}
