//! The elements of arrays, as they stand one behind the other in bytes.
ghost use Rattle.std.specs.Prelude.{◌≡◌, length, ◌==◌};
ghost use Rattle.std.specs.Option.{option_map};
ghost use Rattle.values.specs.Format.{element, element_of, atom_of, elements_in, sizes_of};
ghost use Rattle.values.specs.Shown.{readable, all_readable};

use crate::kinds::ScalarKind;
use crate::utf8::is_text;
use crate::value::{Double, Scalar};
use lent_bytes::fields::Number;
use lent_bytes::memory::{after, byte, part};

/// An element, and how many bytes it takes.
#[derive(Clone, Copy)]
pub struct Element<'a> {
    pub value: Scalar<'a>,
    pub size: usize,
}

/// The longest text of a double, in bytes.
pub const DOUBLE_TEXT: usize = 400;

/// The element at the front of an array's bytes; none where there is none, or a broken one. The walks over arrays call
/// it in a `while let` and keep the bytes that are left: an iterator would hide them, and `fill` asks for them.
pub fn first_element(kind: ScalarKind, bytes: &[u8]) -> Option<Element<'_>>
    ensures { option_map element_of result ≡ element kind bytes.now }
{
    match kind {
        ScalarKind::Bool => {
            if bytes.is_empty() || byte(bytes, 0) > 1 {
                return None;
            }
            let value = Scalar::Bool(byte(bytes, 0) == 1);
            Some(Element { value, size: 1 })
        }
        ScalarKind::I64 => {
            if bytes.len() < 8 {
                return None;
            }
            let value = Scalar::I64(i64::read(bytes, 0));
            Some(Element { value, size: 8 })
        }
        ScalarKind::F64 => {
            let n = u16::read(bytes, 8) as usize;
            if n == 0 || n > DOUBLE_TEXT || bytes.len() < 10 + n {
                return None;
            }
            let pattern = u64::read(bytes, 0);
            let text = part(bytes, 10, n);
            let value = Scalar::F64(Double { pattern, text });
            Some(Element {
                value,
                size: 10 + n,
            })
        }
        ScalarKind::String => {
            let n = u16::read(bytes, 0) as usize;
            if bytes.len() < 2 + n {
                return None;
            }
            let value = Scalar::String(part(bytes, 2, n));
            Some(Element { value, size: 2 + n })
        }
    }
}

/// Whether the elements of an array fill its bytes, so that none is broken.
pub(crate) fn fill(kind: ScalarKind, bytes: &[u8]) -> bool
    ensures { result ≡ (sizes_of (elements_in kind bytes.now) == length bytes.now) }
{
    let mut left = bytes;
    while let Some(first) = first_element(kind, left) {
        left = after(left, first.size);
    }
    left.is_empty()
}

/// Whether the texts in a scalar are UTF-8.
pub(crate) fn is_readable(scalar: Scalar<'_>) -> bool
    ensures { result ≡ readable (atom_of scalar.entry) }
{
    match scalar {
        Scalar::Bool(_) | Scalar::I64(_) => true,
        Scalar::F64(double) => is_text(double.text),
        Scalar::String(text) => is_text(text),
    }
}

/// Whether the texts in an array's elements are UTF-8.
pub(crate) fn are_readable(kind: ScalarKind, bytes: &[u8]) -> bool
    ensures { result ≡ all_readable (elements_in kind bytes.now) }
{
    let mut left = bytes;
    while let Some(first) = first_element(kind, left) {
        if !is_readable(first.value) {
            return false;
        }
        left = after(left, first.size);
    }
    true
}
