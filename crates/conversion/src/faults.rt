//! Why a span is not converted.
ghost use Rattle.std.specs.Prelude.{◌≡◌, Some};
ghost use Rattle.conversion.specs.Faults.{fault_number, fault_message};

use std::fmt;

/// What is wrong with the memory that a conversion is lent.
#[derive(Clone, Copy, PartialEq, Eq, Debug)]
pub enum ConvertFault {
    /// The meta table has fewer than 398 rows.
    TableTooSmall,
    /// The arena has more than 65,536 bytes.
    ArenaTooLarge,
    /// The texts that are placed do not fit the arena.
    ArenaTooSmall,
}

/// The number under which this fault is answered.
impl From<ConvertFault> for u8 {
    ghost from_gives = { λ f n. n ≡ fault_number f };

    fn from(fault: ConvertFault) -> u8 {
        match fault {
            ConvertFault::TableTooSmall => 30,
            ConvertFault::ArenaTooLarge => 31,
            ConvertFault::ArenaTooSmall => 32,
        }
    }
}

impl fmt::Display for ConvertFault {
    ghost output = { λ f. Some (fault_message f) };

    fn fmt<W: fmt::Write>(&self, f: &mut fmt::Formatter<W>) -> fmt::Result {
        f.pad(match self {
            ConvertFault::TableTooSmall => "the meta table has fewer than 398 rows",
            ConvertFault::ArenaTooLarge => "the arena has more than 65,536 bytes",
            ConvertFault::ArenaTooSmall => "the texts that are placed do not fit the arena",
        })
    }
}
