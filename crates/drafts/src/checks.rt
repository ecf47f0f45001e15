//! The checks of calls, each answering the first refusal.
ghost use Rattle.std.specs.Prelude.{◌≡◌, ◌≤◌, length, IfOk, OnOk};
ghost use Rattle.std.specs.Result.{result_err};
ghost use Rattle.blocks.specs.Lists.{list_number};
ghost use Rattle.blocks.specs.Facts.{row_facts};
ghost use Rattle.drafts.specs.Search.{place_from};
ghost use Rattle.drafts.specs.Memory.{text_refusal, key_refusal, fits, text_room, row_room, room_of_set, event_refusal, link_refusal, head_refusal};
ghost use Rattle.drafts.specs.Code.{list_refusal, owner_refusal, content_refusal, set_chain};

use crate::refusal::Refusal;
use crate::rows::{count_rows, find};
use crate::write::Entry;
use blocks::faults::TextFault;
use blocks::limits::{LINK_BYTES, LIST_ROWS, MOST};
use blocks::lists::List;
use lent_bytes::fields::Number;
use values::check::{ValueFault, check};
use values::utf8::is_text;

/// Whether a text has at most so many bytes and is UTF-8.
pub(crate) fn check_text(text: &[u8], most: usize) -> Result<(), TextFault>
    ensures fault { result_err result ≡ text_refusal most text.now }
    ensures short { OnOk result (length text.now ≤ most) }
{
    if text.len() > most {
        return Err(TextFault::Place);
    }
    if !is_text(text) {
        return Err(TextFault::NotUtf8);
    }
    Ok(())
}

fn check_key(key: &[u8]) -> Result<(), Refusal>
    ensures { result_err result ≡ key_refusal key.now }
{
    if key.len() < 1 || key.len() > 255 {
        return Err(Refusal::Key);
    }
    if !is_text(key) {
        return Err(Refusal::KeyNotUtf8);
    }
    Ok(())
}

/// Whether `n` more bytes of text fit behind the text in use.
fn is_room(m: &[u8], n: usize) -> bool
    ensures { result ≡ fits m.now n }
{
    let end = u32::read(m, 4) as usize + u32::read(m, 12) as usize;
    let most = m.len().min(MOST);
    end <= most && n <= most - end
}

pub(crate) fn check_room(m: &[u8], n: usize) -> Result<(), Refusal>
    ensures { result_err result ≡ text_room m.now n }
{
    if !is_room(m, n) {
        return Err(Refusal::NoRoom);
    }
    Ok(())
}

/// Whether one more row of a list fits, with `n` bytes of text.
fn check_row(m: &[u8], list: List, n: usize) -> Result<(), Refusal>
    ensures { result_err result ≡ row_room m.now (list_number list) n }
{
    if count_rows(m, list) as u32 >= LIST_ROWS {
        return Err(Refusal::ListFull);
    }
    if u16::read(m, 2) >= u16::read(m, 8) {
        return Err(Refusal::RowsFull);
    }
    check_room(m, n)
}

/// The list with a number, as it was sent, if attributes go to it.
fn check_list(list: u8) -> Result<List, Refusal>
    ensures fault { result_err result ≡ list_refusal list }
    ensures list { IfOk result (λ l. list_number l ≡ list) }
{
    // Two of the lists are refused besides, so this is no `map_err`.
    match List::try_from(list) {
        Err(_) | Ok(List::Event | List::Link) => Err(Refusal::List),
        Ok(list) => Ok(list),
    }
}

/// Whether there is an event or a link for an attribute that belongs to one.
fn check_owner(m: &[u8], list: List) -> Result<(), Refusal>
    ensures { result_err result ≡ owner_refusal m.now (list_number list) }
{
    let is_missing = match list {
        List::EventAttribute => count_rows(m, List::Event) == 0,
        List::LinkAttribute => count_rows(m, List::Link) == 0,
        _ => false,
    };
    if is_missing {
        return Err(Refusal::Owner);
    }
    Ok(())
}

/// Where an attribute goes: its list, and the row that has its key there, none for a new one.
#[derive(Clone, Copy)]
pub(crate) struct Place {
    pub list: List,
    pub row: Option<u16>,
}

/// Whether an attribute fits: only its value where it replaces that of a row.
fn check_place(m: &[u8], place: Place, entry: &Entry<'_>) -> Result<(), Refusal>
    ensures { result_err result ≡ room_of_set m.now place.row (list_number place.list) (length entry.now.key.now) (length entry.now.value.now) }
{
    match place.row {
        None => check_row(m, place.list, entry.key.len() + entry.value.len()),
        Some(_) => check_room(m, entry.value.len()),
    }
}

/// Where an attribute of a list goes, or why its key, its value or its place is refused.
fn check_content(m: &[u8], list: List, entry: &Entry<'_>) -> Result<Place, Refusal>
    ensures fault { result_err result ≡ content_refusal m.now (list_number list) entry.now.key.now entry.now.kind entry.now.value.now }
    ensures list { IfOk result (λ p. p.list ≡ list) }
    ensures row { IfOk result (λ p. p.row ≡ place_from (list_number list) entry.now.key.now 0 (row_facts m.now)) }
{
    check_key(entry.key)?;
    check(entry.kind, entry.value)?;
    let row = find(m, list, entry.key);
    let place = Place { list, row };
    check_place(m, place, entry)?;
    Ok(place)
}

/// Where an attribute goes, or why it is refused: the number of its list is the one that was sent.
pub(crate) fn check_set(m: &[u8], list: u8, entry: &Entry<'_>) -> Result<Place, Refusal>
    ensures fault { result_err result ≡ set_chain m.now list entry.now.key.now entry.now.kind entry.now.value.now }
    ensures list { IfOk result (λ p. list_number p.list ≡ list) }
    ensures row { IfOk result (λ p. p.row ≡ place_from list entry.now.key.now 0 (row_facts m.now)) }
{
    let list = check_list(list)?;
    check_owner(m, list)?;
    check_content(m, list, entry)
}

/// Why an event is refused.
pub(crate) fn check_event(m: &[u8], title: &[u8]) -> Result<(), Refusal>
    ensures { result_err result ≡ event_refusal m.now title.now }
{
    check_text(title, 255)?;
    check_row(m, List::Event, title.len())
}

/// Why a link is refused.
pub(crate) fn check_link(m: &[u8], trace_state: &[u8], value: &[u8]) -> Result<(), Refusal>
    ensures { result_err result ≡ link_refusal m.now trace_state.now value.now }
{
    check_text(trace_state, 512)?;
    if value.len() != LINK_BYTES as usize {
        return Err(Refusal::Value(ValueFault::Form));
    }
    check_row(m, List::Link, trace_state.len() + value.len())
}

/// Why a text of the header is refused, of at most so many bytes.
pub(crate) fn check_head(m: &[u8], most: usize, text: &[u8]) -> Result<(), Refusal>
    ensures { result_err result ≡ head_refusal m.now most text.now }
{
    check_text(text, most)?;
    check_room(m, text.len())
}
