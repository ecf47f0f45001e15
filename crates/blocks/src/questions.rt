//! Questions on the rows of a span, by number and list by list. Items are counted from 0.
ghost use Rattle.std.specs.Prelude.{◌≡◌, length, if◌then◌else◌, nat_lt, Some, None};
ghost use Rattle.std.specs.Result.{result_ok};
ghost use Rattle.std.specs.List.{slice_get};
ghost use Rattle.blocks.specs.Facts.{row_facts, row_fact};
ghost use Rattle.blocks.specs.Layout.{rows_in};
ghost use Rattle.blocks.specs.Lists.{list_number, plain_number};
ghost use Rattle.blocks.specs.Projections.{of_list, owned_by, nth_head, nth_count, nth_under};
ghost use Rattle.blocks.specs.Places.{run_rows};
ghost use Rattle.blocks.specs.Questions.{question_number, answered_row};

use crate::header::row_count;
use crate::lists::{List, Owner, PlainList};
use crate::row::{Row, row_at};
use crate::sdk_span::SdkSpan;
use crate::search::{all, count_in, find, run_under};
use std::ops::Range;

/// Why a question has no answer.
#[derive(Clone, Copy, PartialEq, Eq, Debug)]
pub enum QuestionFault {
    /// There are not as many rows, attributes, events or links.
    NoSuchItem,
}

/// The number under which this fault is answered.
impl From<QuestionFault> for u8 {
    ghost from_gives = { λ f n. n ≡ question_number f };

    fn from(fault: QuestionFault) -> u8 {
        match fault {
            QuestionFault::NoSuchItem => 40,
        }
    }
}

/// The n-th row of a list in a run.
fn item(block: &[u8], list: List, run: Range<u16>, n: u16) -> Result<Row<'_>, QuestionFault>
    ensures { answered_row result ≡ slice_get (of_list (list_number list) (run_rows block.now run)) n }
{
    find(block, list, run, n)
        .map(|i| row_at(block, i))
        .ok_or(QuestionFault::NoSuchItem)
}

/// The row with a number, of any bytes.
pub fn numbered_row(block: &[u8], i: u16) -> Result<Row<'_>, QuestionFault>
    ensures row { answered_row result ≡ slice_get (row_facts block.now) i }
    ensures by_number { answered_row result ≡ (if nat_lt i (rows_in block.now) then Some (row_fact block.now i) else None) }
{
    if i < row_count(block) {
        Ok(row_at(block, i))
    } else {
        Err(QuestionFault::NoSuchItem)
    }
}

/// How many rows of a list there are, of any bytes, under all owners.
pub fn list_count(block: &[u8], list: List) -> u16
    ensures { result ≡ length (of_list (list_number list) (row_facts block.now)) }
{
    count_in(block, list, all(block))
}

/// The n-th event or link, of any bytes.
pub fn owner_row(block: &[u8], owner: Owner, n: u16) -> Result<Row<'_>, QuestionFault>
    ensures { answered_row result ≡ nth_head (owned_by owner (row_facts block.now)) n }
{
    item(block, owner.list(), all(block), n)
}

impl<'a> SdkSpan<'a> {
    /// The row with a number.
    pub fn row(&self, i: u16) -> Result<Row<'a>, QuestionFault>
        ensures row { answered_row result ≡ slice_get (row_facts self.now.block.now) i }
        ensures by_number { answered_row result ≡ (if nat_lt i (rows_in self.now.block.now) then Some (row_fact self.now.block.now i) else None) }
    {
        numbered_row(self.block, i)
    }

    /// How many rows of a list there are, under all owners.
    pub fn count(&self, list: List) -> u16
        ensures { result ≡ length (of_list (list_number list) (row_facts self.now.block.now)) }
    {
        list_count(self.block, list)
    }

    /// The n-th attribute of the span, the resource or the scope.
    pub fn attribute(&self, list: PlainList, n: u16) -> Result<Row<'a>, QuestionFault>
        ensures { answered_row result ≡ slice_get (of_list (plain_number list) (row_facts self.now.block.now)) n }
    {
        item(self.block, List::from(list), all(self.block), n)
    }

    /// The n-th event or link.
    pub fn owner(&self, owner: Owner, n: u16) -> Result<Row<'a>, QuestionFault>
        ensures { answered_row result ≡ nth_head (owned_by owner (row_facts self.now.block.now)) n }
    {
        owner_row(self.block, owner, n)
    }

    /// How many attributes the n-th event or link has.
    pub fn owned_count(&self, owner: Owner, n: u16) -> Result<u16, QuestionFault>
        ensures { result_ok result ≡ nth_count (owned_by owner (row_facts self.now.block.now)) n }
    {
        run_under(self.block, owner, n)
            .map(|run| count_in(self.block, owner.owned(), run))
            .ok_or(QuestionFault::NoSuchItem)
    }

    /// The k-th attribute of the n-th event or link.
    pub fn owned(&self, owner: Owner, n: u16, k: u16) -> Result<Row<'a>, QuestionFault>
        ensures { answered_row result ≡ nth_under (owned_by owner (row_facts self.now.block.now)) n k }
    {
        let run = run_under(self.block, owner, n).ok_or(QuestionFault::NoSuchItem)?;
        item(self.block, owner.owned(), run, k)
    }
}
