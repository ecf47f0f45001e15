//! The checks of rows.
ghost use Rattle.std.specs.Prelude.{◌≡◌, ◌+◌, IfOk, nat_le};
ghost use Rattle.std.specs.Result.{result_err};
ghost use Rattle.blocks.specs.Lists.{list_number};
ghost use Rattle.blocks.specs.Layout.{raw_of, row_at, row_place, rows_in, used_in};
ghost use Rattle.blocks.specs.Faults.{least_key, longest_key, event_value, link_value, attribute_value, key_fault, list_in, row_value, resource_key, said, twice_fault, content_fault, aboves, row_fault, row_at_fault};
ghost use Rattle.blocks.specs.First.{first_from};

use crate::counts::{Counts, count_row, is_list_refused};
use crate::faults::{RowAt, RowFault};
use crate::frame::{is_inside, is_within};
use crate::layout::{RawRow, is_in, raw_row};
use crate::limits::LINK_BYTES;
use crate::lists::List;
use lent_bytes::fields::Number;
use values::check::{ValueFault, check};
use values::utf8::is_text;

/// A row that is checked: its number, its list and where its key and value stand in the block.
#[derive(Clone, Copy)]
struct Candidate<'a> {
    block: &'a [u8],
    number: u16,
    list: List,
    row: RawRow,
}

fn key_limits(list: List) -> (u32, u32)
    ensures { result ≡ (least_key (list_number list), longest_key (list_number list)) }
{
    match list {
        List::Event => (0, 255),
        List::Link => (0, 512),
        _ => (1, 255),
    }
}

impl Candidate<'_> {
    fn check_key(&self) -> Result<(), RowFault>
        ensures { result_err result ≡ key_fault self.now.block.now (list_number self.now.list) (raw_of self.now.row) }
    {
        let (least, most) = key_limits(self.list);
        let n = self.row.key_length as u32;
        if n < least || !is_within(self.block, self.row.key_place, n, most) {
            return Err(RowFault::Key);
        }
        if !is_text(self.row.key(self.block)) {
            return Err(RowFault::KeyNotUtf8);
        }
        Ok(())
    }

    /// Whether the value lies within the text used.
    fn is_value_within(&self) -> bool
        ensures { result ≡ nat_le ((raw_of self.now.row).value_place + (raw_of self.now.row).value_length) (used_in self.now.block.now) }
    {
        is_inside(self.block, self.row.value_place, self.row.value_length)
    }

    fn check_attribute(&self) -> Result<(), ValueFault>
        ensures { result_err result ≡ attribute_value self.now.block.now (raw_of self.now.row) }
    {
        if self.row.time != 0 || !self.is_value_within() {
            return Err(ValueFault::Form);
        }
        check(self.row.kind, self.row.value(self.block))?;
        Ok(())
    }

    fn check_event(&self) -> Result<(), ValueFault>
        ensures { result_err result ≡ event_value (raw_of self.now.row) }
    {
        if self.row.kind != 0 || self.row.value_length != 0 || self.row.value_place != 0 {
            return Err(ValueFault::Form);
        }
        Ok(())
    }

    fn check_link(&self) -> Result<(), ValueFault>
        ensures { result_err result ≡ link_value self.now.block.now (raw_of self.now.row) }
    {
        if self.row.kind != 0
            || self.row.time != 0
            || self.row.value_length != LINK_BYTES
            || !self.is_value_within()
        {
            return Err(ValueFault::Form);
        }
        Ok(())
    }

    fn check_value(&self) -> Result<(), ValueFault>
        ensures { result_err result ≡ row_value self.now.block.now (list_number self.now.list) (raw_of self.now.row) }
    {
        match self.list {
            List::Event => self.check_event(),
            List::Link => self.check_link(),
            _ => self.check_attribute(),
        }
    }

    /// Whether this row is an attribute of the resource whose key stands in a row above.
    fn check_twice(&self) -> Result<(), RowFault>
        ensures { result_err result ≡ twice_fault self.now.block.now self.now.number (list_number self.now.list) (raw_of self.now.row) }
    {
        let key = self.row.key(self.block);
        if self.list == List::Resource && is_said(self.block, key, self.number) {
            return Err(RowFault::Twice);
        }
        Ok(())
    }

    /// The first fault of a row but for its list: its key, its value, and whether the resource has its
    /// key already.
    fn check(&self) -> Result<(), RowFault>
        ensures { result_err result ≡ content_fault self.now.block.now self.now.number (list_number self.now.list) (raw_of self.now.row) }
    {
        self.check_key()?;
        self.check_value()?;
        self.check_twice()
    }
}

/// Whether the row `j` is a resource attribute with this key.
fn is_resource_key(block: &[u8], key: &[u8], j: u16) -> bool
    ensures { result ≡ resource_key block.now key.now j }
{
    is_in(block, List::Resource, j) && raw_row(block, j).key(block) == key
}

/// Whether the resource has this key in a row above the row `i`.
fn is_said(block: &[u8], key: &[u8], i: u16) -> bool
    ensures { result ≡ said block.now key.now i }
{
    (0..i).any(|j| is_resource_key(block, key, j))
}

/// The list of a row, or its first fault.
fn check_row(block: &[u8], i: u16, counts: &Counts) -> Result<List, RowFault>
    requires { counts.now ≡ aboves block.now i }
    ensures fault { result_err result ≡ row_fault block.now i (list_in block.now i) (row_at block.now (row_place i)) }
    ensures list { IfOk result (λ l. list_number l ≡ list_in block.now i) }
{
    let row = raw_row(block, i);
    let list = List::try_from(row.list)?;
    if is_list_refused(counts, list) {
        return Err(RowFault::List);
    }
    let candidate = Candidate {
        block,
        number: i,
        list,
        row,
    };
    candidate.check()?;
    Ok(list)
}

/// The list of a row, or its first fault with its number.
fn check_row_at(block: &[u8], i: u16, counts: &Counts) -> Result<List, RowAt>
    requires { counts.now ≡ aboves block.now i }
    ensures fault { result_err result ≡ row_at_fault block.now i }
    ensures list { IfOk result (λ l. list_number l ≡ list_in block.now i) }
{
    check_row(block, i, counts).map_err(|fault| RowAt { row: i, fault })
}

/// The first fault of the rows, one after the other.
pub(crate) fn check_rows(block: &[u8]) -> Result<(), RowAt>
    ensures { result_err result ≡ first_from (row_at_fault block.now) 0 (rows_in block.now) }
{
    let mut counts = [0; 7];
    let rows = u16::read(block, 2);
    // Each row is checked by what the rows above it left, so this stays a loop.
    for i in 0..rows {
        let list = check_row_at(block, i, &counts)?;
        counts = count_row(&counts, list);
    }
    Ok(())
}
