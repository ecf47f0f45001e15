//! What a draft's calls answer.
ghost use Rattle.std.specs.Prelude.{◌≡◌};
ghost use Rattle.drafts.specs.Refused.{applied_number, refusal_number, answer_number, start_number};
ghost use Rattle.drafts.specs.declared.refusal.Refusal.TheVariants.{Value, Text};
ghost use Rattle.drafts.specs.declared.refusal.StartFault.TheVariants.{Text as StartText};

use blocks::faults::TextFault;
use values::check::ValueFault;

/// What a call that was not refused did.
#[derive(Clone, Copy, PartialEq, Eq, Debug)]
pub enum Applied {
    /// The draft holds what was said.
    Changed,
    /// A status that changes nothing: Ok is final, and Unset replaces nothing.
    Unchanged,
}

/// The number under which this is answered.
impl From<Applied> for u8 {
    ghost from_gives = { λ a r. r ≡ applied_number a };

    fn from(applied: Applied) -> u8 {
        match applied {
            Applied::Changed => 0,
            Applied::Unchanged => 1,
        }
    }
}

/// Why a call is refused.
#[derive(Clone, Copy, PartialEq, Eq, Debug)]
pub enum Refusal {
    /// The list is none that attributes go to.
    List,
    /// There is no event, or no link, that the attribute would belong to.
    Owner,
    /// The key is empty or has over 255 bytes.
    Key,
    /// The key is not UTF-8.
    KeyNotUtf8,
    /// The value is none of its kind, or a link's has not 25 bytes.
    Value(ValueFault),
    /// A name, a trace state or a description is too long or not UTF-8.
    Text(TextFault),
    /// The list has 128 rows, under the newest owner for attributes of events and links.
    ListFull,
    /// Every row is in use.
    RowsFull,
    /// The new text does not fit.
    NoRoom,
    /// The status is above 2.
    Status,
}

/// The number under which this refusal is answered.
impl From<Refusal> for u8 {
    ghost from_gives = { λ f r. r ≡ refusal_number f };

    fn from(refusal: Refusal) -> u8 {
        match refusal {
            Refusal::List => 20,
            Refusal::Owner => 21,
            Refusal::Key => 7,
            Refusal::KeyNotUtf8 => 5,
            Refusal::Value(fault) => u8::from(fault),
            Refusal::Text(fault) => u8::from(fault),
            Refusal::ListFull => 22,
            Refusal::RowsFull => 23,
            Refusal::NoRoom => 13,
            Refusal::Status => 24,
        }
    }
}

/// The number of an answer: 0 applied, 1 nothing changed, and each refusal's own. No `impl From`, since
/// neither `Result` nor `u8` is a type of this crate.
pub fn answer_number(answer: Result<Applied, Refusal>) -> u8
    ensures { result ≡ answer_number answer }
{
    match answer {
        Ok(applied) => u8::from(applied),
        Err(refusal) => u8::from(refusal),
    }
}

/// Why a draft does not start.
#[derive(Clone, Copy, PartialEq, Eq, Debug)]
pub enum StartFault {
    /// The kind is none from 1 to 5.
    Kind,
    /// The memory has not from 120 to 65,536 bytes, or not so many rows, or there are over 1,024 of them.
    Memory,
    /// A text is too long or not UTF-8.
    Text(TextFault),
    /// The texts do not fit behind the rows.
    NoRoom,
}

/// The number under which this fault is answered.
impl From<StartFault> for u8 {
    ghost from_gives = { λ f r. r ≡ start_number f };

    fn from(fault: StartFault) -> u8 {
        match fault {
            StartFault::Kind => 11,
            StartFault::Memory => 12,
            StartFault::Text(fault) => u8::from(fault),
            StartFault::NoRoom => 13,
        }
    }
}

impl From<ValueFault> for Refusal {
    ghost from_gives = { λ f r. r ≡ Value f };

    fn from(fault: ValueFault) -> Refusal {
        Refusal::Value(fault)
    }
}

impl From<TextFault> for Refusal {
    ghost from_gives = { λ f r. r ≡ Text f };

    fn from(fault: TextFault) -> Refusal {
        Refusal::Text(fault)
    }
}

impl From<TextFault> for StartFault {
    ghost from_gives = { λ f r. r ≡ StartText f };

    fn from(fault: TextFault) -> StartFault {
        StartFault::Text(fault)
    }
}
