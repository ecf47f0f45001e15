//! Hex digits: read in either case, printed in lower case.
ghost use Rattle.std.specs.Prelude.{◌≡◌, ◌<◌, [], IfSome, None, Ok, Err, MatchResult};
ghost use Rattle.notation.specs.Faults.{OrMemory};
ghost use Rattle.notation.specs.Hex.{digit_value, more, pattern_of};
ghost use Rattle.notation.specs.Reading.{bytes_from};

use crate::fault::LineFault;
use std::alloc::Global;
use std::fmt;

/// The value of a hex digit. `char::to_digit` answers a `u32`, and what follows counts in bytes.
pub fn digit(b: u8) -> Option<u8>
    ensures value { result ≡ digit_value b }
    ensures bound { IfSome result (λ d. d < 16) }
{
    match b {
        b'0'..=b'9' => Some(b - b'0'),
        b'a'..=b'f' => Some(b - b'a' + 10),
        b'A'..=b'F' => Some(b - b'A' + 10),
        _ => None,
    }
}

/// The byte of two hex digits.
pub fn byte(high: u8, low: u8) -> Option<u8>
    ensures { result ≡ more (digit_value high) (digit_value low) }
{
    Some(digit(high)? * 16 + digit(low)?)
}

/// The number of 16 hex digits, the most significant first.
pub fn pattern(digits: &[u8]) -> Option<u64>
    ensures { result ≡ pattern_of digits.now }
{
    if digits.len() != 16 {
        return None;
    }
    let mut number = 0;
    for b in digits {
        number = number * 16 + digit(*b)? as u64;
    }
    Some(number)
}

/// The bytes of pairs of hex digits; spaces count for nothing.
pub fn read_bytes(heap: Global, digits: &[u8]) -> Result<Vec<u8>, LineFault>
    ensures { MatchResult result (λ v. bytes_from None [] digits.now ≡ Ok v.items) (λ f. OrMemory f (bytes_from None [] digits.now ≡ Err f)) }
{
    let mut out = Vec::new(heap);
    // The first digit of a byte, while its second is to come.
    let mut first = None;
    for b in digits {
        if *b == b' ' {
            continue;
        }
        match first {
            None => {
                digit(*b).ok_or(LineFault::NotHex)?;
                first = Some(*b);
            }
            Some(high) => {
                out.push(byte(high, *b).ok_or(LineFault::NotHex)?)?;
                first = None;
            }
        }
    }
    match first {
        None => Ok(out),
        Some(_) => Err(LineFault::OddHex),
    }
}

/// Bytes to print as hex digits.
#[derive(Clone, Copy)]
pub struct Hex<'a>(pub &'a [u8]);

impl fmt::Display for Hex<'_> {
    fn fmt<W: fmt::Write>(&self, f: &mut fmt::Formatter<W>) -> fmt::Result {
        for b in self.0 {
            write!(f, "{b:02x}")?;
        }
        Ok(())
    }
}
