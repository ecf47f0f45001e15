//! The words that name the kinds of values.
ghost use Rattle.std.specs.Prelude.{◌≡◌};
ghost use Rattle.notation.specs.Kinds.{kind_in, NamesReadBack};

use values::kinds::{ScalarKind, ValueKind};

/// The kinds in the order of their numbers.
const KINDS: [ValueKind; 8] = [
    ValueKind::Scalar(ScalarKind::Bool),
    ValueKind::Scalar(ScalarKind::I64),
    ValueKind::Scalar(ScalarKind::F64),
    ValueKind::Scalar(ScalarKind::String),
    ValueKind::Array(ScalarKind::Bool),
    ValueKind::Array(ScalarKind::I64),
    ValueKind::Array(ScalarKind::F64),
    ValueKind::Array(ScalarKind::String),
];

/// The kind that a word names; the name of each kind is read as that kind.
pub fn kind_named(name: &[u8]) -> Option<ValueKind>
    ensures value { result ≡ kind_in name.now }
    ensures back { NamesReadBack }
{
    KINDS
        .iter()
        .find(|kind| kind.name().as_bytes() == name)
        .copied()
}
