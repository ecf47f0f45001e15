//! What answers mean, in words.
ghost use Rattle.std.specs.Prelude.{◌≡◌, Some};
ghost use Rattle.drafts.specs.Messages.{applied_message, text_meaning, refusal_message, start_message};

use crate::refusal::{Applied, Refusal, StartFault};
use blocks::faults::TextFault;
use std::fmt;
use values::check::ValueFault;

/// What is wrong with a text that was handed in. A block's own words speak of its place as well.
fn text_meaning(fault: TextFault) -> &'static str
    ensures { result.now ≡ text_meaning fault }
{
    match fault {
        TextFault::Place => "the text is too long",
        TextFault::NotUtf8 => "the text is not UTF-8",
    }
}

impl fmt::Display for Applied {
    ghost output = { λ a. Some (applied_message a) };

    fn fmt<W: fmt::Write>(&self, f: &mut fmt::Formatter<W>) -> fmt::Result {
        f.pad(match self {
            Applied::Changed => "applied",
            Applied::Unchanged => "nothing changed",
        })
    }
}

impl fmt::Display for Refusal {
    ghost output = { λ a. Some (refusal_message a) };

    fn fmt<W: fmt::Write>(&self, f: &mut fmt::Formatter<W>) -> fmt::Result {
        f.pad(match self {
            Refusal::List => "no attributes go to this list",
            Refusal::Owner => "no event or link that it would belong to",
            Refusal::Key => "the key does not have 1 to 255 bytes",
            Refusal::KeyNotUtf8 => "the key is not UTF-8",
            // Of a call this fault says more than of bytes alone.
            Refusal::Value(ValueFault::Form) => {
                "the value does not have the form of its kind, or a link's value not 25 bytes"
            }
            Refusal::Value(fault) => return fault.fmt(f),
            Refusal::Text(fault) => text_meaning(*fault),
            Refusal::ListFull => "the list has 128 rows",
            Refusal::RowsFull => "every row is in use",
            Refusal::NoRoom => "the new text does not fit",
            Refusal::Status => "the status is above 2",
        })
    }
}

impl fmt::Display for StartFault {
    ghost output = { λ a. Some (start_message a) };

    fn fmt<W: fmt::Write>(&self, f: &mut fmt::Formatter<W>) -> fmt::Result {
        f.pad(match self {
            StartFault::Kind => "the kind is not from 1 to 5",
            StartFault::Memory =>
                "the memory does not have 120 to 65,536 bytes, or no place for so many rows",
            StartFault::Text(fault) => text_meaning(*fault),
            StartFault::NoRoom => "the texts do not fit behind the rows",
        })
    }
}
