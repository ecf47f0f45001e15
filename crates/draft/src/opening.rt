//! A line that starts a draft.
ghost use Rattle.std.specs.Prelude.{◌≡◌};
ghost use Rattle.drafts.specs.Calls.{opening_of};
ghost use Rattle.draft.specs.Lines.{opening_said};

use crate::fault::CallFault;
use crate::fields::{Fields, coded};
use crate::words::span_kind_named;
use drafts::start::Start;

/// The most bytes that are lent: more than a draft takes, so that it can be shown what it says of too many.
const LENT_BYTES: usize = 1_048_576;

/// How many bytes are lent, and what is said of the span at its start.
#[derive(Drop)]
pub struct Opening {
    pub memory: usize,
    rows: u16,
    kind: u8,
    trace_id_high: u64,
    trace_id_low: u64,
    span_id: u64,
    parent_id: u64,
    start_time: i64,
    name: Vec<u8>,
    trace_state: Vec<u8>,
    scope_name: Vec<u8>,
    scope_version: Vec<u8>,
}

fn memory_in(fields: &mut Fields<'_>) -> Result<usize, CallFault> {
    let memory = fields.number(CallFault::NotMemory)?;
    if memory > LENT_BYTES {
        return Err(CallFault::NotMemory);
    }
    Ok(memory)
}

/// The number of a kind of span: by its word, or as it is.
fn kind_in(fields: &mut Fields<'_>) -> Result<u8, CallFault> {
    let word = fields.word()?;
    let named = span_kind_named(word).map(u8::from);
    coded(named, word, CallFault::NotSpanKind)
}

impl Opening {
    /// The start that a line writes behind its first word.
    pub fn parse(fields: Fields<'_>) -> Result<Opening, CallFault> {
        let mut fields = fields;
        let memory = memory_in(&mut fields)?;
        let rows = fields.number(CallFault::NotRows)?;
        let kind = kind_in(&mut fields)?;
        let (trace_id_high, trace_id_low) = fields.trace_id()?;
        let opening = Opening {
            memory,
            rows,
            kind,
            trace_id_high,
            trace_id_low,
            span_id: fields.span_id()?,
            parent_id: fields.span_id()?,
            start_time: fields.time()?,
            name: fields.text()?,
            trace_state: fields.text()?,
            scope_name: fields.text()?,
            scope_version: fields.text()?,
        };
        fields.finish()?;
        Ok(opening)
    }

    /// What a draft is told at its start.
    pub fn start(&self) -> Start<'_>
        ensures { opening_of result ≡ opening_said self.now }
    {
        Start {
            rows: self.rows,
            kind: self.kind,
            trace_id_high: self.trace_id_high,
            trace_id_low: self.trace_id_low,
            span_id: self.span_id,
            parent_id: self.parent_id,
            start_time: self.start_time,
            name: self.name.as_slice(),
            trace_state: self.trace_state.as_slice(),
            scope_name: self.scope_name.as_slice(),
            scope_version: self.scope_version.as_slice(),
        }
    }
}
