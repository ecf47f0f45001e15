//! A value with its type, as one word: `s:TEXT`, `i:NUMBER`, `d:PATTERN`, `b:true`, or such in brackets.
use lent_bytes::memory::after;
use reading_report::token::Token;
use std::fmt;
use values::elements::first_element;
use values::value::{Array, Scalar, Value};

/// A value; none where the kind's number names no kind.
#[derive(Clone, Copy)]
pub struct Typed<'s>(pub Option<Value<'s>>);

fn write_scalar<W: fmt::Write>(f: &mut fmt::Formatter<W>, scalar: Scalar<'_>) -> fmt::Result {
    match scalar {
        Scalar::Bool(flag) => write!(f, "b:{flag}"),
        Scalar::I64(number) => write!(f, "i:{number}"),
        Scalar::F64(double) => {
            let pattern = double.pattern;
            write!(f, "d:{pattern:016x}")
        }
        Scalar::String(text) => write!(f, "s:{}", Token(text)),
    }
}

fn write_array<W: fmt::Write>(f: &mut fmt::Formatter<W>, array: Array<'_>) -> fmt::Result {
    f.write_str("[")?;
    let mut left = array.bytes;
    let mut first = true;
    // An element takes a byte at least.
    for _ in 0..array.bytes.len() {
        let Some(element) = first_element(array.kind, left) else {
            break;
        };
        if !first {
            f.write_str(",")?;
        }
        first = false;
        write_scalar(f, element.value)?;
        left = after(left, element.size);
    }
    f.write_str("]")
}

impl fmt::Display for Typed<'_> {
    fn fmt<W: fmt::Write>(&self, f: &mut fmt::Formatter<W>) -> fmt::Result {
        match self.0 {
            Some(Value::Scalar(scalar)) => write_scalar(f, scalar),
            Some(Value::Array(array)) => write_array(f, array),
            None => f.write_str("none"),
        }
    }
}
