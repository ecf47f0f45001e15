//! Which rows are printed, and where.
use crate::mark::Mark;
use crate::row::Row;
use std::alloc::Global;

/// All rows, or only those that are not the same.
#[derive(Clone, Copy, PartialEq, Eq, Debug)]
pub(crate) enum Rows {
    All,
    Apart,
}

/// What prints rows.
#[derive(Clone, Copy)]
pub(crate) struct Printer<'r> {
    pub(crate) rt: &'r HostRuntime,
    pub(crate) rows: Rows,
}

impl Printer<'_> {
    /// What rows are made in.
    pub(crate) fn heap(self) -> Global {
        self.rt.alloc()
    }

    /// Whether a row with this mark is printed.
    pub(crate) fn shows(self, mark: Mark) -> bool {
        self.rows == Rows::All || mark != Mark::Same
    }

    /// Prints a row.
    pub(crate) fn print(self, row: &Row) -> anyhow::Result<()> {
        let rt = self.rt;
        print!(rt; "{row}")?;
        Ok(())
    }
}
