//! Where the rows of a list stand.
ghost use Rattle.std.specs.Prelude.{◌≡◌, ◌-◌, ◌<◌, ◌≤◌, length, IfSome};
ghost use Rattle.std.specs.Option.{option_map};
ghost use Rattle.std.specs.List.{slice_get};
ghost use Rattle.blocks.specs.Lists.{list_number, owner_list, owned_list};
ghost use Rattle.blocks.specs.Facts.{row_facts};
ghost use Rattle.blocks.specs.Projections.{of_list, owned_by};
ghost use Rattle.blocks.specs.Places.{places_of, all_rows, run_rows, attributes_of, Behind};

use crate::layout::is_in;
use crate::lists::{List, Owner};
use lent_bytes::fields::Number;
use std::ops::Range;

/// The numbers of all rows of a block.
pub(crate) fn all(block: &[u8]) -> Range<u16>
    ensures { result ≡ all_rows block.now }
{
    0..u16::read(block, 2)
}

/// How many rows of a list a run has.
pub(crate) fn count_in(block: &[u8], list: List, run: Range<u16>) -> u16
    ensures { result ≡ length (of_list (list_number list) (run_rows block.now run)) }
{
    run.filter(|&i| is_in(block, list, i)).count() as u16
}

/// The number of the row of a list in a run before which `n` others of that list stand there.
pub(crate) fn find(block: &[u8], list: List, run: Range<u16>, n: u16) -> Option<u16>
    ensures place { result ≡ slice_get (places_of block.now (list_number list) run.start (run.end - run.start)) n }
    ensures within { IfSome result (λ j. (run.start ≤ j) × (j < run.end)) }
{
    run.filter(|&i| is_in(block, list, i)).nth(n as usize)
}

/// The rows behind the n-th event or link and above the next; none where there are not as many.
pub fn run_under(block: &[u8], owner: Owner, n: u16) -> Option<Range<u16>>
    ensures run { option_map (λ u. of_list (owned_list owner) (run_rows block.now u)) result ≡ option_map attributes_of (slice_get (owned_by owner (row_facts block.now)) n) }
    ensures behind { IfSome result (Behind block.now (owner_list owner)) }
{
    let list = owner.list();
    let rows = u16::read(block, 2);
    let from = find(block, list, all(block), n)? + 1;
    let to = find(block, list, from..rows, 0).unwrap_or(rows);
    Some(from..to)
}
