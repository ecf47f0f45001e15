//! Numbers as text.
ghost use Rattle.std.specs.Prelude.{◌≡◌, ◌<◌, decimal};
ghost use Rattle.std.specs.Fmt.{signed_decimal};
ghost use Rattle.std.specs.List.{flat_map};
ghost use Rattle.lent_bytes.specs.Digits.{hex_digit, hex_pair};

use crate::texts::TextWriter;

fn hex_digit(d: u8) -> u8
    requires { d < 16 }
    ensures { result ≡ hex_digit d }
{
    if d < 10 { 48 + d } else { 87 + d }
}

impl TextWriter<'_> {
    ghost use Rattle.lent_bytes.specs.Writing.{Wrote};

    /// Writes the shortest decimal of `x`.
    pub fn push_decimal(&mut self, x: u64)
        ensures { Wrote self.old self.new (decimal x) }
    {
        if x < 10 {
            return self.push(&[48 + x as u8]);
        }
        self.push_decimal(x / 10);
        self.push(&[48 + (x % 10) as u8]);
    }

    /// Writes the shortest decimal of `z` with its sign.
    pub fn push_signed(&mut self, z: i64)
        ensures { Wrote self.old self.new (signed_decimal z) }
    {
        if z >= 0 {
            return self.push_decimal(z.unsigned_abs());
        }
        self.push(b"-");
        self.push_decimal(z.unsigned_abs());
    }

    /// Writes two hex digits for each byte.
    pub fn push_hex(&mut self, bytes: &[u8])
        ensures { Wrote self.old self.new (flat_map hex_pair bytes.now) }
    {
        for b in bytes {
            self.push(&[hex_digit(*b / 16), hex_digit(*b % 16)]);
        }
    }
}
