//! How a line names the kind of a value.
ghost use Rattle.std.specs.Prelude.{◌≡◌};
ghost use Rattle.notation.specs.Notations.{notation_of, NamesReadBack};

use crate::kinds::kind_named;
use values::kinds::ValueKind;

/// How a value is written: as one of its kind, or by its bytes. Not an `Option`, whose `None` would not say by what.
#[derive(Clone, Copy)]
pub enum Notation {
    Typed(ValueKind),
    Raw,
}

impl Notation {
    /// The notation that a word names; the name of each kind is read as that kind.
    pub fn named(name: &[u8]) -> Option<Notation>
        ensures value { result ≡ notation_of name.now }
        ensures back { NamesReadBack }
    {
        if name == b"raw".as_slice() {
            return Some(Notation::Raw);
        }
        kind_named(name).map(Notation::Typed)
    }
}
