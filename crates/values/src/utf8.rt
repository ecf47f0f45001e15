//! UTF-8, as RFC 3629 has it.
ghost use Rattle.std.specs.Prelude.{◌≡◌, IsUtf8, Decides};
ghost use Rattle.values.specs.Unicode.{is_text};

use std::str::from_utf8;

/// Whether `b` is the encoding of a list of Unicode scalar values.
pub fn is_text(b: &[u8]) -> bool
    ensures meaning { Decides result (IsUtf8 b.now) }
    ensures test { result ≡ is_text b.now }
{
    decoded(b)
}

fn decoded(b: &[u8]) -> bool
    ensures { Decides result (IsUtf8 b.now) }
{
    from_utf8(b).is_ok()
}
