//! Searches over the rows in use.
ghost use Rattle.std.specs.Prelude.{◌≡◌, ℕ, ◌+◌, ◌<◌, ◌≤◌, ◌&&◌, List as Texts, drop, ◌==◌};
ghost use Rattle.std.specs.Str.{bytes_eq};
ghost use Rattle.blocks.specs.Lists.{list_number};
ghost use Rattle.blocks.specs.Layout.{rows_in};
ghost use Rattle.blocks.specs.Faults.{list_in};
ghost use Rattle.blocks.specs.Facts.{row_fact, row_facts};
ghost use Rattle.blocks.specs.Faults.{owns, counted, above};
ghost use Rattle.drafts.specs.Search.{count as rows_of, place_from};
ghost use Rattle.drafts.specs.Code.{plain_from};

use blocks::layout::{raw_row, text};
use blocks::lists::List;
use lent_bytes::fields::Number;
use lent_bytes::memory::byte;

/// The number of the list of the row `i`.
fn list_at(m: &[u8], i: u16) -> u8
    ensures { result ≡ list_in m.now i }
{
    byte(m, 120 + 24 * i as usize)
}

/// Whether a row of the list with this number begins a new run of the other: an event of its attributes, a
/// link of its. The first is a number, since memory may name no list there.
fn begins(list: u8, run: List) -> bool
    ensures { result ≡ owns list (list_number run) }
{
    match run {
        List::EventAttribute => list == u8::from(List::Event),
        List::LinkAttribute => list == u8::from(List::Link),
        _ => false,
    }
}

/// The count of `run` behind one more row, of the list with this number. Blocks count likewise, all lists at
/// once and lists that are known: one function for both crates would be a public one that asks something of its
/// callers, that the count does not overflow, and no public call here does.
fn next(n: u16, list: u8, run: List) -> u16
    requires { n < 65535 }
    ensures next { result ≡ counted n list (list_number run) }
    ensures most { result ≤ n + 1 }
{
    if begins(list, run) {
        return 0;
    }
    if list == u8::from(run) { n + 1 } else { n }
}

/// How many rows of a list there are: of the attributes of events and links, behind the newest owner. A `for`, since an
/// owner's row begins the count anew.
pub(crate) fn count_rows(m: &[u8], list: List) -> u16
    ensures { result ≡ above m.now (list_number list) (rows_in m.now) }
{
    let rows = u16::read(m, 2);
    let mut n = 0;
    for i in 0..rows {
        n = next(n, list_at(m, i), list);
    }
    n
}

/// Whether the row `i` has this list and key.
fn is_row(m: &[u8], i: u16, list: List, key: &[u8]) -> bool
    ensures { result ≡ ((row_fact m.now i).list == list_number list && bytes_eq (row_fact m.now i).key key.now) }
{
    let row = raw_row(m, i);
    row.list == u8::from(list) && row.key(m) == key
}

/// The place behind the last row of a list, 0 where there is none.
fn behind_last(m: &[u8], list: List) -> u16
    ensures within { result ≤ rows_in m.now }
    ensures none { rows_of (list_number list) (drop result (row_facts m.now)) ≡ 0 }
    ensures some { (j : ℕ) → j < result → 0 < rows_of (list_number list) (drop j (row_facts m.now)) }
{
    for i in (0..u16::read(m, 2)).rev() {
        if list_at(m, i) == u8::from(list) {
            return i + 1;
        }
    }
    0
}

/// The row from which on a key of this list is looked for: behind the newest event or link for what belongs
/// to one, and else the first.
fn run_start(m: &[u8], list: List) -> u16
    ensures within { result ≤ rows_in m.now }
    ensures same { (k : Texts ℕ) → plain_from (list_number list) k result (drop result (row_facts m.now)) ≡ place_from (list_number list) k 0 (row_facts m.now) }
{
    match list {
        List::Event | List::EventAttribute => behind_last(m, List::Event),
        List::Link | List::LinkAttribute => behind_last(m, List::Link),
        _ => 0,
    }
}

/// The row that an attribute replaces: the one with its key in its list, under the newest owner for what
/// belongs to an event or a link.
pub(crate) fn find(m: &[u8], list: List, key: &[u8]) -> Option<u16>
    ensures { result ≡ place_from (list_number list) key.now 0 (row_facts m.now) }
{
    (run_start(m, list)..u16::read(m, 2)).find(|i| is_row(m, *i, list, key))
}
