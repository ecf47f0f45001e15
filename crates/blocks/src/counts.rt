//! How many rows of each list stand above a row: for the attributes of events and links, behind the
//! nearest event or link.
ghost use Rattle.std.specs.Prelude.{◌≡◌, ◌<◌};
ghost use Rattle.blocks.specs.Lists.{list_number};
ghost use Rattle.blocks.specs.Faults.{owns, counted, counted_all, list_fault_by, FewRows};

use crate::limits::LIST_ROWS;
use crate::lists::List;

/// The counts, list by list, in memory of a fixed size that the enum's numbers index.
pub(crate) type Counts = [u32; 7];

const LISTS: [List; 7] = [
    List::Span,
    List::Resource,
    List::Scope,
    List::Event,
    List::EventAttribute,
    List::Link,
    List::LinkAttribute,
];

/// Whether a row of this list begins a new run of the other: an event of its attributes, a link of its.
fn begins(list: List, run: List) -> bool
    ensures { result ≡ owns (list_number list) (list_number run) }
{
    match list {
        List::Event => run == List::EventAttribute,
        List::Link => run == List::LinkAttribute,
        _ => false,
    }
}

fn next(count: u32, list: List, run: List) -> u32
    requires { count < 65536 }
    ensures { result ≡ counted count (list_number list) (list_number run) }
{
    if begins(list, run) {
        return 0;
    }
    if list == run { count + 1 } else { count }
}

/// The counts behind a row of this list.
pub(crate) fn count_row(counts: &Counts, list: List) -> Counts
    requires { FewRows counts.now }
    ensures { result ≡ counted_all counts.now (list_number list) }
{
    LISTS.map(|run| next(counts[run as usize], list, run))
}

/// Whether a row of this list has no owner above, or 128 rows of its list.
pub(crate) fn is_list_refused(counts: &Counts, list: List) -> bool
    ensures { result ≡ list_fault_by counts.now (list_number list) }
{
    let ownerless = match list {
        List::EventAttribute => counts[List::Event as usize] == 0,
        List::LinkAttribute => counts[List::Link as usize] == 0,
        _ => false,
    };
    ownerless || counts[list as usize] >= LIST_ROWS
}
