//! A start that was checked, and what it writes.
ghost use Rattle.std.specs.Prelude.{◌≡◌, ◌^◌, ◌<◌, ◌≤◌, length};
ghost use Rattle.lent_bytes.specs.Memory.{written};
ghost use Rattle.drafts.specs.Calls.{opening_of};
ghost use Rattle.drafts.specs.Code.{ShortTexts, numbered, identified, placed};
ghost use Rattle.drafts.specs.Writes.{head_bytes, opening_texts, started};

use crate::start::Start;
use crate::write::{clear, low, put_place, put_texts};
use lent_bytes::fields::Number;
use lent_bytes::memory::write;

/// The header's numbers but ids and times: version 1, the text offset, the capacity, the kind and the text
/// used.
fn put_numbers(head: &mut [u8], start: &Start<'_>, used: usize)
    ensures { head.new ≡ numbered head.old (opening_of start.now) used }
{
    write(head, 0, &[1]);
    let offset = low::<4>(120 + 24 * start.rows as usize);
    write(head, 4, &offset);
    start.rows.put(head, 8);
    write(head, 10, &[start.kind]);
    let used = low::<4>(used);
    write(head, 12, &used);
}

/// The ids, highest byte first, and the start.
fn put_ids(head: &mut [u8], start: &Start<'_>)
    ensures { head.new ≡ identified head.old (opening_of start.now) }
{
    let high = start.trace_id_high.to_be_bytes();
    write(head, 16, &high);
    let low = start.trace_id_low.to_be_bytes();
    write(head, 24, &low);
    let span = start.span_id.to_be_bytes();
    write(head, 32, &span);
    let parent = start.parent_id.to_be_bytes();
    write(head, 40, &parent);
    start.start_time.put(head, 48);
}

/// A start whose texts were checked: none is too long.
#[derive(Clone, Copy)]
pub(crate) struct Checked<'s, 't> {
    pub start: &'s Start<'t>,
    ghost short: { ShortTexts (opening_of start.now) },
}

impl<'s, 't> Checked<'s, 't> {
    /// The bytes of all texts.
    pub(crate) fn texts_len(&self) -> usize
        ensures sum { result ≡ length (opening_texts (opening_of self.now.start.now)) }
        ensures small { result ≤ 1277 }
    {
        let start = self.start;
        start.name.len()
            + (start.trace_state.len() + (start.scope_name.len() + start.scope_version.len()))
    }

    /// Writes the places of the texts, one after another.
    fn put_places(&self, head: &mut [u8])
        ensures { head.new ≡ placed head.old (opening_of self.now.start.now) }
    {
        let a = self.start.name.len();
        let b = self.start.trace_state.len();
        let c = self.start.scope_name.len();
        let d = self.start.scope_version.len();
        put_place(head, 80, 0, a);
        put_place(head, 88, a, b);
        put_place(head, 96, a + b, c);
        put_place(head, 104, a + (b + c), d);
    }

    /// The header of a draft that starts.
    fn header(&self) -> [u8; 120]
        ensures { result ≡ head_bytes (opening_of self.now.start.now) }
    {
        let mut head = [0; 120];
        put_numbers(&mut head, self.start, self.texts_len());
        put_ids(&mut head, self.start);
        self.put_places(&mut head);
        head
    }

    /// Writes the texts, one behind another.
    fn put_opening(&self, m: &mut [u8], at: usize)
        requires { at < 2 ^ 32 }
        ensures { m.new ≡ written m.old at (opening_texts (opening_of self.now.start.now)) }
    {
        let start = self.start;
        put_texts(m, at, start.name, start.trace_state);
        let behind = at + (start.name.len() + start.trace_state.len());
        put_texts(m, behind, start.scope_name, start.scope_version);
    }

    /// Starts a draft in memory, whatever it holds.
    pub(crate) fn start_in(&self, m: &mut [u8])
        ensures { m.new ≡ started (length m.old) (opening_of self.now.start.now) }
    {
        clear(m);
        let head = self.header();
        write(m, 0, &head);
        self.put_opening(m, 120 + 24 * self.start.rows as usize);
    }
}
