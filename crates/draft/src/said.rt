//! A line that is a call of an open draft.
ghost use Rattle.std.specs.Prelude.{◌≡◌, IfOk, codes};
ghost use Rattle.drafts.specs.Said.{call_of};
ghost use Rattle.draft.specs.Lines.{call_said, word_of_call};

use crate::fault::CallFault;
use crate::fields::{Fields, coded};
use crate::words::{list_named, status_named};
use drafts::call::Call;

/// A call with its own texts.
#[derive(Drop)]
pub enum Said {
    Set {
        list: u8,
        key: Vec<u8>,
        kind: u8,
        value: Vec<u8>,
    },
    Event {
        title: Vec<u8>,
        time: i64,
    },
    Link {
        trace_state: Vec<u8>,
        value: Vec<u8>,
    },
    Status {
        code: u8,
        description: Vec<u8>,
    },
    Rename {
        title: Vec<u8>,
    },
}

impl Said {
    /// `LIST KEY KIND VALUE`
    pub fn set(fields: Fields<'_>) -> Result<Said, CallFault>
        ensures { IfOk result (λ s. word_of_call s ≡ codes "set") }
    {
        let mut fields = fields;
        let word = fields.word()?;
        let named = list_named(word).map(u8::from);
        let list = coded(named, word, CallFault::NotList)?;
        let key = fields.key()?;
        let written = fields.value()?;
        Ok(Said::Set {
            list,
            key,
            kind: written.kind,
            value: written.bytes,
        })
    }

    /// `"name" TIME`
    pub fn event(fields: Fields<'_>) -> Result<Said, CallFault>
        ensures { IfOk result (λ s. word_of_call s ≡ codes "event") }
    {
        let mut fields = fields;
        let title = fields.text()?;
        let time = fields.time()?;
        fields.finish()?;
        Ok(Said::Event { title, time })
    }

    /// `"trace state" BYTES`
    pub fn link(fields: Fields<'_>) -> Result<Said, CallFault>
        ensures { IfOk result (λ s. word_of_call s ≡ codes "link") }
    {
        let mut fields = fields;
        let trace_state = fields.text()?;
        let value = fields.bytes()?;
        fields.finish()?;
        Ok(Said::Link { trace_state, value })
    }

    /// `CODE "description"`
    pub fn status(fields: Fields<'_>) -> Result<Said, CallFault>
        ensures { IfOk result (λ s. word_of_call s ≡ codes "status") }
    {
        let mut fields = fields;
        let word = fields.word()?;
        let named = status_named(word).map(u8::from);
        let code = coded(named, word, CallFault::NotStatus)?;
        let description = fields.text()?;
        fields.finish()?;
        Ok(Said::Status { code, description })
    }

    /// `"name"`
    pub fn rename(fields: Fields<'_>) -> Result<Said, CallFault>
        ensures { IfOk result (λ s. word_of_call s ≡ codes "rename") }
    {
        let mut fields = fields;
        let title = fields.text()?;
        fields.finish()?;
        Ok(Said::Rename { title })
    }

    /// The call as a draft takes it.
    pub fn call(&self) -> Call<'_>
        ensures { call_of result ≡ call_said self.now }
    {
        match self {
            Said::Set {
                list,
                key,
                kind,
                value,
            } => Call::Set {
                list: *list,
                key: key.as_slice(),
                kind: *kind,
                value: value.as_slice(),
            },
            Said::Event { title, time } => Call::Event {
                title: title.as_slice(),
                time: *time,
            },
            Said::Link { trace_state, value } => Call::Link {
                trace_state: trace_state.as_slice(),
                value: value.as_slice(),
            },
            Said::Status { code, description } => Call::Status {
                code: *code,
                description: description.as_slice(),
            },
            Said::Rename { title } => Call::Rename {
                title: title.as_slice(),
            },
        }
    }
}
