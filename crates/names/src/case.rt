//! Lower case of ASCII letters.
ghost use Rattle.std.specs.Prelude.{◌≡◌, map, length};
ghost use Rattle.std.specs.Char.{to_ascii_lowercase};

/// A to Z become a to z, and every other byte stays.
pub fn to_lower_case(text: &mut [u8])
    ensures lowered { text.new ≡ map to_ascii_lowercase text.old }
    ensures len { length text.new ≡ length text.old }
{
    text.make_ascii_lowercase();
}
