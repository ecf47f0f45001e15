//! Whether two values of attributes are the same. Arrays are compared element by element, up to a broken one.
ghost use Rattle.std.specs.Prelude.{◌≡◌, Decides};
ghost use Rattle.std.specs.Option.{option_map};
ghost use Rattle.values.specs.Format.{atom_of, meant};
ghost use Rattle.conversion_sides.specs.Values.{same_atom, same_atoms, same_datum, same_value, elements_of};

use lent_bytes::memory::after;
use values::elements::first_element;
use values::value::{Array, Scalar, Value};

fn same_scalar(a: Scalar<'_>, b: Scalar<'_>) -> bool
    ensures { result ≡ same_atom (atom_of a.entry) (atom_of b.entry) }
{
    match (a, b) {
        (Scalar::Bool(x), Scalar::Bool(y)) => x == y,
        (Scalar::I64(x), Scalar::I64(y)) => x == y,
        (Scalar::F64(x), Scalar::F64(y)) => x.pattern == y.pattern && x.text == y.text,
        (Scalar::String(x), Scalar::String(y)) => x == y,
        _ => false,
    }
}

/// Whether the elements of two arrays are the same, one after the other.
fn same_elements(a: Array<'_>, b: Array<'_>) -> bool
    ensures { result ≡ same_atoms (elements_of a.entry) (elements_of b.entry) }
{
    let of_a = a.kind;
    let of_b = b.kind;
    let mut left = a.bytes;
    let mut right = b.bytes;
    while let Some(x) = first_element(of_a, left) {
        match first_element(of_b, right) {
            Some(y) => {
                if !same_scalar(x.value, y.value) {
                    return false;
                }
                left = after(left, x.size);
                right = after(right, y.size);
            }
            None => return false,
        }
    }
    first_element(of_b, right).is_none()
}

/// Whether two values are the same.
pub fn same_value(a: Value<'_>, b: Value<'_>) -> bool
    ensures { Decides result (meant a.entry ≡ meant b.entry) }
{
    same_datum(a, b)
}

/// The same by the test of the definitions.
fn same_datum(a: Value<'_>, b: Value<'_>) -> bool
    ensures { result ≡ same_datum (meant a.entry) (meant b.entry) }
{
    match (a, b) {
        (Value::Scalar(x), Value::Scalar(y)) => same_scalar(x, y),
        (Value::Array(x), Value::Array(y)) => {
            x.kind as u8 == y.kind as u8 && same_elements(x, y)
        }
        _ => false,
    }
}

/// The same of values of which each may be absent.
pub(crate) fn same_value_or_none(a: Option<Value<'_>>, b: Option<Value<'_>>) -> bool
    ensures { result ≡ same_value (option_map meant a.entry) (option_map meant b.entry) }
{
    match (a, b) {
        (Some(x), Some(y)) => same_datum(x, y),
        (None, None) => true,
        _ => false,
    }
}
