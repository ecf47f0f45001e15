//! How a draft starts, and why it does not.
ghost use Rattle.std.specs.Prelude.{◌≡◌, IfOk, OnOk};
ghost use Rattle.std.specs.Result.{result_err};
ghost use Rattle.drafts.specs.Calls.{opening_of};
ghost use Rattle.drafts.specs.Code.{ShortTexts};
ghost use Rattle.drafts.specs.Memory.{start_texts, start_memory, start_fault};

use crate::checks::check_text;
use crate::opening::Checked;
use crate::refusal::StartFault;
use blocks::faults::TextFault;
use blocks::limits::{LEAST, MOST};

/// What is said of a span when its draft starts: how many rows there is room for, the number of its kind as
/// it was sent, its ids, its start in nanoseconds since 1970, and its texts.
#[derive(Clone, Copy)]
pub struct Start<'t> {
    pub rows: u16,
    pub kind: u8,
    pub trace_id_high: u64,
    pub trace_id_low: u64,
    pub span_id: u64,
    pub parent_id: u64,
    pub start_time: i64,
    pub name: &'t [u8],
    pub trace_state: &'t [u8],
    pub scope_name: &'t [u8],
    pub scope_version: &'t [u8],
}

/// The texts, one after the other.
fn check_texts<'s, 't>(start: &'s Start<'t>) -> Result<Checked<'s, 't>, TextFault>
    ensures fault { result_err result ≡ start_texts (opening_of start.now) }
    ensures same { IfOk result (λ c. c.start.now ≡ start.now) }
{
    check_text(start.name, 255)?;
    check_text(start.trace_state, 512)?;
    check_text(start.scope_name, 255)?;
    check_text(start.scope_version, 255)?;
    Ok(Checked { start })
}

/// Whether memory of so many bytes can hold so many rows.
fn is_memory(memory_len: usize, rows: u16) -> bool
    ensures { result ≡ start_memory memory_len rows }
{
    memory_len >= LEAST
        && memory_len <= MOST
        && rows <= 1024
        && 120 + 24 * rows as usize <= memory_len
}

/// A start that memory of so many bytes can take, or why it cannot.
pub(crate) fn check_start<'s, 't>(
    memory_len: usize,
    start: &'s Start<'t>,
) -> Result<Checked<'s, 't>, StartFault>
    ensures fault { result_err result ≡ start_fault memory_len (opening_of start.now) }
    ensures same { IfOk result (λ c. c.start.now ≡ start.now) }
{
    if start.kind < 1 || start.kind > 5 {
        return Err(StartFault::Kind);
    }
    if !is_memory(memory_len, start.rows) {
        return Err(StartFault::Memory);
    }
    let checked = check_texts(start)?;
    if 120 + 24 * start.rows as usize + checked.texts_len() > memory_len {
        return Err(StartFault::NoRoom);
    }
    Ok(checked)
}

/// Why a draft does not start in memory of so many bytes.
pub fn start_fault(memory_len: usize, start: &Start<'_>) -> Result<(), StartFault>
    ensures fault { result_err result ≡ start_fault memory_len (opening_of start.now) }
    ensures short { OnOk result (ShortTexts (opening_of start.now)) }
{
    check_start(memory_len, start)?;
    Ok(())
}
