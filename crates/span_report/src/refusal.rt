//! What is printed of a block that is refused.
use crate::origin::Origin;
use blocks::faults::BlockFault;
use notation::report::write_row;
use std::fmt;

/// A block that is refused, and where it stands.
#[derive(Clone, Copy)]
pub struct Refusal<'a> {
    pub origin: Origin<'a>,
    pub fault: BlockFault,
}

impl fmt::Display for Refusal<'_> {
    fn fmt<W: fmt::Write>(&self, f: &mut fmt::Formatter<W>) -> fmt::Result {
        let origin = self.origin;
        let fault = self.fault;
        writeln!(f, "{origin} refused")?;
        let number = u8::from(fault);
        write_row(f, "number", format_args!("{number}: {fault}"))?;
        match fault.row() {
            Some(row) => write_row(f, "row", row)?,
            None => write_row(f, "row", "none")?,
        }
        let part = fault.part();
        let number = u8::from(part);
        write_row(f, "part", format_args!("{number}: {part}"))
    }
}
