//! Exceptions among the events of a block, and what they say.
ghost use Rattle.std.specs.Prelude.{◌≡◌, ◌<◌, ◌+◌};
ghost use Rattle.std.specs.Option.{option_map};
ghost use Rattle.blocks.specs.Facts.{row_fact, fact_at};
ghost use Rattle.blocks.specs.Layout.{raw_of};
ghost use Rattle.blocks.specs.Projections.{up_to};
ghost use Rattle.span_args.specs.ReadingOf.{datum_at, last_row_of};
ghost use Rattle.conversion.specs.Spans.{found};
ghost use Rattle.conversion.specs.Constants.{constant_text};
ghost use Rattle.conversion.specs.Events.{exception_row, rows_from, entries_from, event_at, all_events, exception_turn};
ghost use Rattle.conversion.specs.Steps.{each, any_exception, has_exception, put_found, exception, exception_texts};
ghost use Rattle.conversion.specs.View.{Does};

use crate::arena::ArenaFull;
use crate::attributes::is_word;
use crate::constants::Constant;
use crate::forms::shown_form;
use crate::pieces::{Form, Given};
use crate::unfinished::UnfinishedSpan;
use blocks::layout::{RawRow, is_in, raw_row};
use blocks::lists::List;
use lent_bytes::fields::Number;

/// Whether the row `i` is an event named exception.
fn is_exception(block: &[u8], i: u16) -> bool
    ensures { result ≡ exception_row (row_fact block.now i) }
{
    is_in(block, List::Event, i) && is_word(raw_row(block, i).key(block), b"exception")
}

/// Whether one of the events is named exception.
fn any_exception(block: &[u8]) -> bool
    ensures { result ≡ any_exception (all_events block.now) }
{
    for i in 0..u16::read(block, 2) {
        if is_exception(block, i) {
            return true;
        }
    }
    false
}

/// The last attribute with a key from a row on, above the next event.
fn last_from(block: &[u8], from: u16, key: &[u8]) -> Option<RawRow>
    ensures { option_map (λ r. fact_at block.now (raw_of r)) result ≡ last_row_of 4 key.now (up_to 3 (rows_from block.now from)) }
{
    let mut last = None;
    for i in from..u16::read(block, 2) {
        if is_in(block, List::Event, i) {
            return last;
        }
        let row = raw_row(block, i);
        if is_in(block, List::EventAttribute, i) && row.key(block) == key {
            last = Some(row);
        }
    }
    last
}

impl<'b, 'm, 'a> UnfinishedSpan<'b, 'm, 'a> {
    /// Whether there is an exception.
    pub(crate) fn has_exception(&mut self) -> Result<(), ArenaFull>
        ensures { Does result self.old self.new (λ n _. has_exception n) }
    {
        if any_exception(self.block) {
            return self.put_meta(
                Given::Quoted(Constant::HasException),
                Form::Ready(Given::Quoted(Constant::Flag(true))),
            );
        }
        Ok(())
    }

    /// The value of a row, if there is one.
    fn put_found(&mut self, name: Constant, row: Option<RawRow>) -> Result<(), ArenaFull>
        ensures { Does result self.old self.new (λ n b. put_found n (constant_text name) (option_map (λ r. datum_at (fact_at b (raw_of r))) row)) }
    {
        match row {
            Some(row) => {
                let value = shown_form(self.block, row, false);
                self.put_meta(Given::Quoted(name), value)
            }
            None => Ok(()),
        }
    }

    /// The value of the last attribute with a key from a row on, above the next event.
    fn exception_text(&mut self, from: u16, key: &[u8], name: Constant) -> Result<(), ArenaFull>
        ensures { Does result self.old self.new (λ n b. put_found n (constant_text name) (found key.now (entries_from b from))) }
    {
        let row = last_from(self.block, from, key);
        self.put_found(name, row)
    }

    /// What the event of the row `i` says of an exception.
    fn exception_texts(&mut self, i: u16) -> Result<(), ArenaFull>
        requires { i < 65535 }
        ensures { Does result self.old self.new (λ n b. exception_texts n (event_at b i)) }
    {
        let from = i + 1;
        self.exception_text(from, b"exception.message", Constant::ErrorMessage)?;
        self.exception_text(from, b"exception.type", Constant::ErrorType)?;
        self.exception_text(from, b"exception.stacktrace", Constant::ErrorStack)
    }

    /// What the row `i` says, if it is an exception.
    fn exception_at(&mut self, i: u16) -> Result<(), ArenaFull>
        requires { i < 65535 }
        ensures { Does result self.old self.new (λ n b. exception_turn n b i) }
    {
        if is_exception(self.block, i) {
            return self.exception_texts(i);
        }
        Ok(())
    }

    /// What all exceptions say.
    pub(crate) fn exceptions(&mut self) -> Result<(), ArenaFull>
        ensures { Does result self.old self.new (λ n b. each (exception n) (all_events b)) }
    {
        for i in 0..u16::read(self.block, 2) {
            self.exception_at(i)?;
        }
        Ok(())
    }
}
