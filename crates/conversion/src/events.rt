//! Questions on the events of a span. Events and their attributes are counted from 0.
ghost use Rattle.std.specs.Prelude.{◌≡◌, length};
ghost use Rattle.std.specs.Result.{result_ok};
ghost use Rattle.conversion.specs.View.{shown};
ghost use Rattle.conversion.specs.Questions.{event_answer, event_attribute_answer, nth_event, nth_event_count, nth_event_value};

use crate::by_key::{count_by_key, row_by_key};
use crate::convert::since_1970;
use crate::dd_span::DdSpan;
use crate::forms::value_of;
use blocks::lists::{List, Owner};
use blocks::questions::{QuestionFault, list_count, owner_row};
use values::value::Value;

/// An event: its time in nanoseconds since 1970, and its name.
#[derive(Clone, Copy)]
pub struct EventItem<'s> {
    pub time: i64,
    pub name: &'s [u8],
}

/// The value of an event's attribute by its key. There is none where the number of its kind names no kind, which no row
/// of a lawful block has.
#[derive(Clone, Copy)]
pub struct EventAttribute<'s> {
    pub key: &'s [u8],
    pub value: Option<Value<'s>>,
}

impl<'b, 'm, 'a> DdSpan<'b, 'm, 'a> {
    /// How many events there are.
    pub fn event_count(&self) -> u16
        ensures { result ≡ length (shown self.now).events }
    {
        list_count(self.made.block, List::Event)
    }

    /// The n-th event.
    pub fn event(&self, n: u16) -> Result<EventItem<'_>, QuestionFault>
        ensures { event_answer result ≡ nth_event (shown self.now).events n }
    {
        let row = owner_row(self.made.block, Owner::Event, n)?;
        Ok(EventItem {
            time: since_1970(row.time),
            name: row.key,
        })
    }

    /// How many attributes the n-th event has, by key.
    pub fn event_attribute_count(&self, n: u16) -> Result<u16, QuestionFault>
        ensures { result_ok result ≡ nth_event_count (shown self.now).events n }
    {
        count_by_key(self.made.block, Owner::Event, n).ok_or(QuestionFault::NoSuchItem)
    }

    /// The i-th attribute of the n-th event, by key.
    pub fn event_attribute(&self, n: u16, i: u16) -> Result<EventAttribute<'_>, QuestionFault>
        ensures { event_attribute_answer result ≡ nth_event_value (shown self.now).events n i }
    {
        let block = self.made.block;
        let row = row_by_key(block, Owner::Event, n, i).ok_or(QuestionFault::NoSuchItem)?;
        Ok(EventAttribute {
            key: row.key(block),
            value: value_of(block, row),
        })
    }
}
