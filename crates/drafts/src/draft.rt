//! A span that is being recorded, in lent memory.
ghost use Rattle.std.specs.Prelude.{◌≡◌, true, length, Some, None, MatchResult};
ghost use Rattle.drafts.specs.Calls.{opening_of, Set, Event, Link, Status, Rename};
ghost use Rattle.drafts.specs.Code.{zeros};
ghost use Rattle.drafts.specs.Writes.{started, ended};
ghost use Rattle.drafts.specs.Memory.{start_fault};
ghost use Rattle.drafts.specs.Said.{Made};

use crate::calls::{
    append, counting, counting_attribute, held_status, put_attribute, put_error, put_ok,
};
use crate::checks::{check_event, check_head, check_link, check_set};
use crate::refusal::{Applied, Refusal, StartFault};
use crate::start::{Start, check_start};
use crate::write::{Entry, clear, put_head};
use blocks::lists::List;
use blocks::sdk_span::SdkSpan;
use blocks::span_kind::StatusCode;
use lent_bytes::fields::Number;
use lent_bytes::memory::write;

/// What a draft holds until it is ended or discarded: it can be let go only once it is spent. The flag lets
/// the check ask for a proof of that; a token with no drop would be refused by the language, spent or not.
pub struct Token {
    spent: bool,
}

impl Drop for Token {
    fn drop(self)
        requires { self.spent ≡ true }
    {
        let Token { spent: _ } = self;
    }
}

fn spend(token: Token) {
    let mut token = token;
    token.spent = true;
}

/// A span that is being recorded. It has to be ended or discarded: one that is forgotten is refused.
#[derive(Drop)]
pub struct Draft<'a> {
    mem: &'a mut [u8],
    token: Token,
}

/// A start that was refused, with the memory as it was.
#[derive(Drop)]
pub struct StartRefused<'a> {
    pub fault: StartFault,
    pub memory: &'a mut [u8],
}

/// Writes the end time and the state of an ended span.
fn end_in(m: &mut [u8], end_time: i64)
    ensures { m.new ≡ ended m.old end_time }
{
    end_time.put(m, 56);
    write(m, 76, &[1]);
}

// A call borrows the memory once, as `m`: after each borrow of its own through `self` a proof would know no
// more of it.
impl<'a> Draft<'a> {
    /// Starts a draft, or hands the memory back as it was.
    pub fn start(memory: &'a mut [u8], start: &Start<'_>) -> Result<Draft<'a>, StartRefused<'a>>
        ensures { MatchResult result (λ d. (start_fault (length memory.old) (opening_of start.now) ≡ None) × (d.mem.now ≡ started (length memory.old) (opening_of start.now)) × (d.mem.ghost_name ≡ memory.entry.ghost_name)) (λ e. (start_fault (length memory.old) (opening_of start.now) ≡ Some e.fault) × (e.memory.now ≡ memory.old) × (e.memory.ghost_name ≡ memory.entry.ghost_name)) }
    {
        match check_start(memory.len(), start) {
            Err(fault) => Err(StartRefused { fault, memory }),
            Ok(checked) => {
                checked.start_in(memory);
                Ok(Draft {
                    mem: memory,
                    token: Token { spent: false },
                })
            }
        }
    }

    /// Sets an attribute of the span, the resource or the scope (lists 0, 1 and 2), of the newest event (4)
    /// or of the newest link (6): the value of the row that has its key, or a new row. List and kind are the
    /// numbers that were sent: a list that no attribute goes to is refused under 20, and a kind that names
    /// nothing under 8, as any value of a broken form.
    pub fn set(&mut self, list: u8, key: &[u8], kind: u8, value: &[u8]) -> Result<Applied, Refusal>
        ensures { Made self.old self.new (Set list key.now kind value.now) result }
    {
        let entry = Entry {
            key,
            kind,
            value,
            time: 0,
        };
        let m = &mut *self.mem;
        let place = counting_attribute(check_set(m, list, &entry), m, list)?;
        put_attribute(m, place, &entry);
        Ok(Applied::Changed)
    }

    /// Adds an event, by its name and its time in nanoseconds since 1970.
    pub fn event(&mut self, title: &[u8], time: i64) -> Result<Applied, Refusal>
        ensures { Made self.old self.new (Event title.now time) result }
    {
        let m = &mut *self.mem;
        counting(check_event(m, title), m, 68)?;
        let entry = Entry {
            key: title,
            kind: 0,
            value: b"",
            time,
        };
        append(m, List::Event, &entry);
        Ok(Applied::Changed)
    }

    /// Adds a link, by its trace state and its value: trace id, span id and flags, 25 bytes.
    pub fn link(&mut self, trace_state: &[u8], value: &[u8]) -> Result<Applied, Refusal>
        ensures { Made self.old self.new (Link trace_state.now value.now) result }
    {
        let m = &mut *self.mem;
        counting(check_link(m, trace_state, value), m, 72)?;
        let entry = Entry {
            key: trace_state,
            kind: 0,
            value,
            time: 0,
        };
        append(m, List::Link, &entry);
        Ok(Applied::Changed)
    }

    /// Sets the status, 0 to 2 for Unset, Ok and Error. Ok is final, Unset replaces nothing, and only Error
    /// has a description. The code is the number that was sent, since one above 2 is refused.
    pub fn status(&mut self, code: u8, description: &[u8]) -> Result<Applied, Refusal>
        ensures { Made self.old self.new (Status code description.now) result }
    {
        if code > 2 {
            return Err(Refusal::Status);
        }
        let m = &mut *self.mem;
        match (held_status(m), StatusCode::from(code)) {
            (StatusCode::Ok, _) => Ok(Applied::Unchanged),
            (_, StatusCode::Unset) => Ok(Applied::Unchanged),
            (_, StatusCode::Ok) => {
                put_ok(m);
                Ok(Applied::Changed)
            }
            (_, StatusCode::Error) => put_error(m, description),
        }
    }

    /// Gives the span another name.
    pub fn rename(&mut self, title: &[u8]) -> Result<Applied, Refusal>
        ensures { Made self.old self.new (Rename title.now) result }
    {
        let m = &mut *self.mem;
        check_head(m, 255, title)?;
        put_head(m, 80, title);
        Ok(Applied::Changed)
    }

    /// Ends the draft: nothing can be set any more.
    pub fn end(self, end_time: i64) -> SdkSpan<'a>
        ensures { result.block.now ≡ ended self.entry.mem.now end_time }
    {
        let Draft { mem, token } = self;
        end_in(mem, end_time);
        spend(token);
        SdkSpan::of_ended(mem)
    }

    /// Lets the draft go, and fills the memory with zeros.
    pub fn discard(self)
        ensures { self.exit.0.now ≡ zeros (length self.entry.mem.now) }
    {
        let Draft { mem, token } = self;
        clear(mem);
        spend(token);
    }
}
