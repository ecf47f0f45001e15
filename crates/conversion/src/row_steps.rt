//! The rows of a block's lists, one after another.
ghost use Rattle.std.specs.Prelude.{◌≡◌};
ghost use Rattle.blocks.specs.Facts.{fact_at, row_facts};
ghost use Rattle.blocks.specs.Layout.{raw_of};
ghost use Rattle.blocks.specs.Lists.{plain_number};
ghost use Rattle.blocks.specs.Projections.{of_list};
ghost use Rattle.readers.specs.DatadogKeys.{begins};
ghost use Rattle.conversion.specs.Spans.{placed};
ghost use Rattle.conversion.specs.RowSteps.{row_step, row_turn};
ghost use Rattle.conversion.specs.Forms.{header_key};
ghost use Rattle.conversion.specs.Steps.{each, put_text, put_number, row_key, resource_row, span_row, scope_row};
ghost use Rattle.conversion.specs.View.{form_in, Does};

use crate::arena::ArenaFull;
use crate::forms::{header_key, key_form, metric_of, shown_form, string_form};
use crate::pieces::{Form, Given, Key};
use crate::unfinished::UnfinishedSpan;
use blocks::layout::{RawRow, is_in, raw_row};
use blocks::lists::{List, PlainList};
use lent_bytes::fields::Number;
use values::show::TEXT_BYTES;

/// Whether a text begins with a prefix.
pub(crate) fn starts(text: &[u8], prefix: &[u8]) -> bool
    ensures { result ≡ begins prefix.now text.now }
{
    text.starts_with(prefix)
}

impl<'b, 'm, 'a> UnfinishedSpan<'b, 'm, 'a> {
    /// A header of a request, by its name, as a text.
    #[inline(never)]
    fn put_header_text(&mut self, name: &[u8], value: Form<'_>) -> Result<(), ArenaFull>
        ensures { Does result self.old self.new (λ n _. put_text n (placed (header_key name.now)) (form_in self.old value.entry)) }
    {
        let mut out = [0u8; TEXT_BYTES];
        let key = Given::Placed(header_key(name, &mut out));
        self.put_text(key, value)
    }

    /// A header of a request, by its name, as a number.
    #[inline(never)]
    fn put_header_number(&mut self, name: &[u8], pattern: u64) -> Result<(), ArenaFull>
        ensures { Does result self.old self.new (λ _ _. put_number (placed (header_key name.now)) pattern) }
    {
        let mut out = [0u8; TEXT_BYTES];
        let key = Given::Placed(header_key(name, &mut out));
        self.put_number(key, pattern)
    }

    /// An attribute of the resource.
    fn resource_row(&mut self, row: RawRow) -> Result<(), ArenaFull>
        ensures { Does result self.old self.new (λ n b. resource_row n (fact_at b (raw_of row))) }
    {
        let block = self.block;
        let value = string_form(block, row);
        match key_form(block, row) {
            Key::Ready(key) => self.put_text(key, value),
            Key::Header(name) => self.put_header_text(name, value),
        }
    }

    /// An attribute of the span as a number.
    fn number_row(&mut self, row: RawRow, pattern: u64) -> Result<(), ArenaFull>
        ensures { Does result self.old self.new (λ _ b. put_number (row_key (fact_at b (raw_of row))) pattern) }
    {
        match key_form(self.block, row) {
            Key::Ready(key) => self.put_number(key, pattern),
            Key::Header(name) => self.put_header_number(name, pattern),
        }
    }

    /// An attribute of the span: a number, or a text.
    fn span_row(&mut self, row: RawRow) -> Result<(), ArenaFull>
        ensures { Does result self.old self.new (λ n b. span_row n (fact_at b (raw_of row))) }
    {
        let block = self.block;
        if starts(row.key(block), b"datadog.") {
            return Ok(());
        }
        match metric_of(block, row) {
            Some(pattern) => self.number_row(row, pattern),
            None => self.resource_row(row),
        }
    }

    /// An attribute of the scope.
    fn scope_row(&mut self, row: RawRow) -> Result<(), ArenaFull>
        ensures { Does result self.old self.new (λ n b. scope_row n (fact_at b (raw_of row))) }
    {
        let value = shown_form(self.block, row, true);
        let key = Given::Lent {
            place: row.key_place,
            len: row.key_length as u32,
        };
        self.put_meta(key, value)
    }

    /// A row of a list.
    fn put_row(&mut self, list: PlainList, row: RawRow) -> Result<(), ArenaFull>
        ensures { Does result self.old self.new (λ n b. row_step n list (fact_at b (raw_of row))) }
    {
        match list {
            PlainList::Span => self.span_row(row),
            PlainList::Resource => self.resource_row(row),
            PlainList::Scope => self.scope_row(row),
        }
    }

    /// The row with a number, if it is one of a list.
    fn put_row_at(&mut self, list: PlainList, i: u16) -> Result<(), ArenaFull>
        ensures { Does result self.old self.new (λ n b. row_turn n list b i) }
    {
        let block = self.block;
        if is_in(block, List::from(list), i) {
            return self.put_row(list, raw_row(block, i));
        }
        Ok(())
    }

    /// The rows of a list.
    pub(crate) fn put_rows(&mut self, list: PlainList) -> Result<(), ArenaFull>
        ensures { Does result self.old self.new (λ n b. each (row_step n list) (of_list (plain_number list) (row_facts b))) }
    {
        for i in 0..u16::read(self.block, 2) {
            self.put_row_at(list, i)?;
        }
        Ok(())
    }
}
