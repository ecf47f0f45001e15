//! Calls as values, so that a list of them can be replayed.
ghost use Rattle.drafts.specs.Said.{Made, call_of};

use crate::draft::Draft;
use crate::refusal::{Applied, Refusal};

/// A call, with what it is given. Lists, kinds and statuses are the numbers that were sent, named or not.
#[derive(Clone, Copy)]
pub enum Call<'t> {
    Set {
        list: u8,
        key: &'t [u8],
        kind: u8,
        value: &'t [u8],
    },
    Event {
        title: &'t [u8],
        time: i64,
    },
    Link {
        trace_state: &'t [u8],
        value: &'t [u8],
    },
    Status {
        code: u8,
        description: &'t [u8],
    },
    Rename {
        title: &'t [u8],
    },
}

impl<'a> Draft<'a> {
    /// Makes a call.
    pub fn apply(&mut self, call: Call<'_>) -> Result<Applied, Refusal>
        ensures { Made self.old self.new (call_of call.entry) result }
    {
        match call {
            Call::Set {
                list,
                key,
                kind,
                value,
            } => self.set(list, key, kind, value),
            Call::Event { title, time } => self.event(title, time),
            Call::Link { trace_state, value } => self.link(trace_state, value),
            Call::Status { code, description } => self.status(code, description),
            Call::Rename { title } => self.rename(title),
        }
    }
}
