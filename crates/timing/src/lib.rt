//! How long a piece of work takes, for the programs that measure.
#![tactic(auto)]

ghost use Rattle.std.specs.Prelude.{◌≡◌, ◌/◌, ◌++◌, max, Some, codes};
ghost use Rattle.std.specs.Duration.{as_nanos};
ghost use Rattle.timing.specs.Times.{tenths_a_byte, with_one_place};

use std::fmt;
use std::time::Duration;

/// The nanoseconds that each of so many turns took, rounded down.
pub fn nanos_a_turn(took: Duration, turns: u32) -> u128
    ensures { result ≡ as_nanos took / max turns 1 }
{
    took.as_nanos() / turns.max(1) as u128
}

/// The tenths of a nanosecond that each of so many bytes took, rounded down.
fn tenths_a_byte(nanos: u128, bytes: usize) -> u128
    ensures { result ≡ tenths_a_byte nanos bytes }
{
    nanos.saturating_mul(10) / bytes.max(1) as u128
}

/// A time in nanoseconds, as what each of so many bytes took, with one decimal place.
#[derive(Clone, Copy)]
pub struct PerByte {
    pub nanos: u128,
    pub bytes: usize,
}

impl fmt::Display for PerByte {
    ghost output = { λ p. Some (with_one_place (tenths_a_byte p.nanos p.bytes) ++ codes " ns a byte") };

    fn fmt<W: fmt::Write>(&self, f: &mut fmt::Formatter<W>) -> fmt::Result {
        let tenths = tenths_a_byte(self.nanos, self.bytes);
        let whole = tenths / 10;
        let tenth = tenths % 10;
        write!(f, "{whole}.{tenth} ns a byte")
    }
}
