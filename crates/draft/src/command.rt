//! A line as what it asks for.
use crate::fault::CallFault;
use crate::fields::Fields;
use crate::opening::Opening;
use crate::said::Said;
use notation::cut::word;
use std::alloc::Global;

#[derive(Drop)]
pub enum Command {
    Start(Opening),
    /// A call of the draft that is open.
    Call(Said),
    End { time: i64 },
    Discard,
}

/// `TIME`
fn end(fields: Fields<'_>) -> Result<Command, CallFault> {
    let mut fields = fields;
    let time = fields.time()?;
    fields.finish()?;
    Ok(Command::End { time })
}

fn discard(fields: Fields<'_>) -> Result<Command, CallFault> {
    fields.finish()?;
    Ok(Command::Discard)
}

impl Command {
    /// What a line asks for.
    pub fn parse(heap: Global, line: &[u8]) -> Result<Command, CallFault> {
        let (name, rest) = word(line);
        let fields = Fields::new(heap, rest);
        match name {
            b"start" => Ok(Command::Start(Opening::parse(fields)?)),
            b"set" => Ok(Command::Call(Said::set(fields)?)),
            b"event" => Ok(Command::Call(Said::event(fields)?)),
            b"link" => Ok(Command::Call(Said::link(fields)?)),
            b"status" => Ok(Command::Call(Said::status(fields)?)),
            b"rename" => Ok(Command::Call(Said::rename(fields)?)),
            b"end" => end(fields),
            b"discard" => discard(fields),
            _ => Err(CallFault::Unknown),
        }
    }
}
