//! What is printed of a call and of its answer.
ghost use Rattle.std.specs.Prelude.{◌≡◌, ◌↔◌, All, IsTrue};

use blocks::faults::BlockFault;
use blocks::sdk_span::{SdkSpan, open};
use drafts::refusal::{Applied, Refusal, StartFault};
use notation::hex::Hex;
use std::fmt::Display;
use std::{fmt, io};

/// The answer of a call.
#[derive(Clone, Copy)]
pub struct Answer(pub Result<Applied, Refusal>);

impl fmt::Display for Answer {
    fn fmt<W: fmt::Write>(&self, f: &mut fmt::Formatter<W>) -> fmt::Result {
        match self.0 {
            Ok(applied) => write!(f, "{applied}"),
            Err(refusal) => {
                let number = u8::from(refusal);
                write!(f, "refused {number}: {refusal}")
            }
        }
    }
}

/// The answer of a start that is refused.
#[derive(Clone, Copy)]
pub struct NotStarted(pub StartFault);

impl fmt::Display for NotStarted {
    fn fmt<W: fmt::Write>(&self, f: &mut fmt::Formatter<W>) -> fmt::Result {
        let fault = self.0;
        let number = u8::from(fault);
        write!(f, "refused {number}: {fault}")
    }
}

/// What open says of a block.
#[derive(Clone, Copy)]
struct Opened(Option<BlockFault>);

impl fmt::Display for Opened {
    fn fmt<W: fmt::Write>(&self, f: &mut fmt::Formatter<W>) -> fmt::Result {
        match self.0 {
            None => f.write_str("accepted"),
            Some(fault) => {
                let number = u8::from(fault);
                write!(f, "refused {number}: {fault}")
            }
        }
    }
}

/// Whether each byte is this one.
pub fn is_filled(memory: &[u8], byte: u8) -> bool
    ensures { IsTrue result ↔ All (λ b. b ≡ byte) memory.now }
{
    memory.iter().all(|b| *b == byte)
}

/// A label and a value, in columns.
pub fn print_row<D: Display + Drop>(rt: &HostRuntime, label: &str, value: D) -> io::Result<()> {
    println!(rt; "  {label:<14} {value}")
}

/// The whole block of an ended span, and what open says of it.
pub fn print_block(rt: &HostRuntime, block: &[u8]) -> io::Result<()> {
    print_row(rt, "block", Hex(block))?;
    print_row(rt, "open", Opened(open(block).err()))
}
