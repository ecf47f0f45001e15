//! Attributes of an event or a link by key. Of several rows with one key the first says the place and the last the
//! value.
ghost use Rattle.std.specs.Prelude.{◌≡◌, ◌<◌, ◌≤◌, length, IfSome};
ghost use Rattle.std.specs.Option.{option_map};
ghost use Rattle.std.specs.List.{slice_get};
ghost use Rattle.blocks.specs.Facts.{row_fact, fact_at};
ghost use Rattle.blocks.specs.Faults.{list_in};
ghost use Rattle.blocks.specs.Layout.{raw_of};
ghost use Rattle.blocks.specs.Lists.{owned_list};
ghost use Rattle.conversion.specs.ByKey.{attributes_in, owners_in, has_key, is_first, key_at, keys_once, last_with, count_by_key, nth_by_key, IsUnder};

use blocks::layout::{RawRow, is_in, raw_row};
use blocks::lists::Owner;
use blocks::search::run_under;
use std::ops::Range;

/// Whether the row `i` is an attribute with a key.
fn has_key(block: &[u8], owner: Owner, i: u16, key: &[u8]) -> bool
    ensures { result ≡ has_key (owned_list owner) key.now (row_fact block.now i) }
{
    is_in(block, owner.owned(), i) && raw_row(block, i).key(block) == key
}

/// Whether the row `i` is an attribute whose key no attribute has from the row `start` on and above it.
fn is_first(block: &[u8], owner: Owner, start: u16, i: u16) -> bool
    ensures { result ≡ is_first block.now (owned_list owner) start i }
{
    let key = raw_row(block, i).key(block);
    is_in(block, owner.owned(), i) && !(start..i).any(|j| has_key(block, owner, j, key))
}

/// How many keys the attributes in a run have.
pub(crate) fn key_count(block: &[u8], owner: Owner, run: Range<u16>) -> u16
    ensures { result ≡ length (keys_once (attributes_in block.now owner run)) }
{
    let start = run.start;
    run.filter(|&i| is_first(block, owner, start, i)).count() as u16
}

/// The number of the row in a run at which the n-th key comes first.
pub(crate) fn first_with_key(block: &[u8], owner: Owner, run: Range<u16>, n: u16) -> Option<u16>
    ensures key { option_map (key_at block.now) result ≡ slice_get (keys_once (attributes_in block.now owner run)) n }
    ensures within { IfSome result (λ j. (run.start ≤ j) × (j < run.end)) }
    ensures list { IfSome result (λ j. list_in block.now j ≡ owned_list owner) }
{
    let start = run.start;
    run.filter(|&i| is_first(block, owner, start, i))
        .nth(n as usize)
}

/// The number of the last row in a run with a key.
pub(crate) fn last_with_key(block: &[u8], owner: Owner, run: Range<u16>, key: &[u8]) -> Option<u16>
    ensures row { option_map (row_fact block.now) result ≡ last_with key.now (attributes_in block.now owner run) }
    ensures within { IfSome result (λ j. (run.start ≤ j) × (j < run.end)) }
    ensures list { IfSome result (λ j. list_in block.now j ≡ owned_list owner) }
{
    let mut last = None;
    for i in run.start..run.end {
        if has_key(block, owner, i, key) {
            last = Some(i);
        }
    }
    last
}

/// How many keys the attributes of the n-th event or link have.
pub(crate) fn count_by_key(block: &[u8], owner: Owner, n: u16) -> Option<u16>
    ensures { result ≡ count_by_key (owners_in block.now owner) n }
{
    Some(key_count(block, owner, run_under(block, owner, n)?))
}

/// The number of the last row with the i-th key among the attributes of the n-th event or link.
pub(crate) fn place_by_key(block: &[u8], owner: Owner, n: u16, i: u16) -> Option<u16>
    ensures row { option_map (row_fact block.now) result ≡ nth_by_key (owners_in block.now owner) n i }
    ensures under { IfSome result (IsUnder block.now owner) }
{
    let run = run_under(block, owner, n)?;
    let first = first_with_key(block, owner, run.start..run.end, i)?;
    let key = raw_row(block, first).key(block);
    Some(last_with_key(block, owner, run, key).unwrap_or(first))
}

/// The last row with the i-th key among the attributes of the n-th event or link.
pub(crate) fn row_by_key(block: &[u8], owner: Owner, n: u16, i: u16) -> Option<RawRow>
    ensures { option_map (λ r. fact_at block.now (raw_of r)) result ≡ nth_by_key (owners_in block.now owner) n i }
{
    place_by_key(block, owner, n, i).map(|j| raw_row(block, j))
}
