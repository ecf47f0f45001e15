//! What calls do to memory: rows, counts and the status. The memory is handed on as bytes and has no type of
//! its own, since it may hold anything and no fact stands of it.
ghost use Rattle.std.specs.Prelude.{◌≡◌, [], if◌then◌else◌, Some, None, nat_eq};
ghost use Rattle.std.specs.Result.{result_err};
ghost use Rattle.blocks.specs.Lists.{list_number};
ghost use Rattle.blocks.specs.Facts.{status_of};
ghost use Rattle.blocks.specs.Layout.{status_in};
ghost use Rattle.drafts.specs.declared.refusal.Applied.TheVariants.{Changed};
ghost use Rattle.drafts.specs.Refused.{accepted};
ghost use Rattle.drafts.specs.Code.{content_of, numbers_of, is_full};
ghost use Rattle.drafts.specs.Writes.{new_row, stored, drop_more, status_written};
ghost use Rattle.drafts.specs.Memory.{head_refusal, answered};

use crate::checks::{Place, check_head};
use crate::refusal::{Applied, Refusal};
use crate::write::{Entry, RowNumbers, count_one, put_head, put_row};
use blocks::layout::raw_row;
use blocks::lists::List;
use blocks::span_kind::StatusCode;
use lent_bytes::fields::Number;
use lent_bytes::memory::{byte, write};

/// Where a value is placed: an event has none, and its place is 0.
fn value_place(list: List, behind: usize) -> usize
    ensures { result ≡ (if nat_eq (list_number list) 3 then 0 else behind) }
{
    match list {
        List::Event => 0,
        _ => behind,
    }
}

/// A new row, with its key and then its value behind the text in use.
fn new_row(used: u32, list: List, entry: &Entry<'_>) -> RowNumbers
    ensures { numbers_of result ≡ new_row used (list_number list) entry.now.key.now (content_of entry.now) }
{
    let used = used as usize;
    RowNumbers {
        list: u8::from(list),
        kind: entry.kind,
        key_length: entry.key.len(),
        key_place: used,
        value_length: entry.value.len(),
        value_place: value_place(list, used + entry.key.len()),
        time: entry.time,
    }
}

/// Appends a row with its key and value.
pub(crate) fn append(m: &mut [u8], list: List, entry: &Entry<'_>)
    ensures { m.new ≡ stored m.old None (list_number list) entry.now.key.now (content_of entry.now) }
{
    let rows = u16::read(m, 2);
    let row = new_row(u32::read(m, 12), list, entry);
    put_row(m, rows, rows as usize + 1, row, entry.key, entry.value);
}

/// Puts another kind and value into the row `i`.
fn replace(m: &mut [u8], i: u16, entry: &Entry<'_>)
    ensures { m.new ≡ stored m.old (Some i) 0 [] (content_of entry.now) }
{
    let old = raw_row(m, i);
    let rows = u16::read(m, 2) as usize;
    let row = RowNumbers {
        list: old.list,
        kind: entry.kind,
        key_length: old.key_length as usize,
        key_place: old.key_place as usize,
        value_length: entry.value.len(),
        value_place: u32::read(m, 12) as usize,
        time: entry.time,
    };
    put_row(m, i, rows, row, b"", entry.value);
}

/// Puts an attribute where it goes.
pub(crate) fn put_attribute(m: &mut [u8], place: Place, entry: &Entry<'_>)
    ensures { m.new ≡ stored m.old place.row (list_number place.list) entry.now.key.now (content_of entry.now) }
{
    match place.row {
        None => append(m, place.list, entry),
        Some(i) => replace(m, i, entry),
    }
}

/// Counts a call that was refused since its list is full, and hands its answer on.
pub(crate) fn counting<T>(
    checked: Result<T, Refusal>,
    m: &mut [u8],
    at: usize,
) -> Result<T, Refusal>
    ensures same { result ≡ checked }
    ensures counted { m.new ≡ (if is_full (result_err checked) then drop_more m.old at else m.old) }
{
    if let Err(Refusal::ListFull) = &checked {
        count_one(m, at);
    }
    checked
}

/// Counts an attribute of the span that was refused since their list is full, and hands the answer on. The list is the
/// number that was sent.
pub(crate) fn counting_attribute<T>(
    checked: Result<T, Refusal>,
    m: &mut [u8],
    list: u8,
) -> Result<T, Refusal>
    ensures same { result ≡ checked }
    ensures counted { m.new ≡ (if is_full (result_err checked) then (if nat_eq list 0 then drop_more m.old 64 else m.old) else m.old) }
{
    if list == u8::from(List::Span) {
        counting(checked, m, 64)
    } else {
        checked
    }
}

/// The status held.
pub(crate) fn held_status(m: &[u8]) -> StatusCode
    ensures { result ≡ status_of (status_in m.now) }
{
    StatusCode::from(byte(m, 11))
}

/// Holds Ok, with no description.
pub(crate) fn put_ok(m: &mut [u8])
    ensures { m.new ≡ status_written m.old 1 [] }
{
    write(m, 112, &[0; 8]);
    write(m, 11, &[u8::from(StatusCode::Ok)]);
}

/// Holds Error, with a description, if it fits.
pub(crate) fn put_error(m: &mut [u8], description: &[u8]) -> Result<Applied, Refusal>
    ensures answer { result ≡ answered (head_refusal m.old 1024 description.now) Changed }
    ensures after { m.new ≡ (if accepted result then status_written m.old 2 description.now else m.old) }
{
    check_head(m, 1024, description)?;
    put_head(m, 112, description);
    write(m, 11, &[u8::from(StatusCode::Error)]);
    Ok(Applied::Changed)
}
