//! Questions on what a span holds under keys. Items are counted from 0.
ghost use Rattle.std.specs.Prelude.{◌≡◌, length};
ghost use Rattle.std.specs.List.{slice_get};
ghost use Rattle.std.specs.Option.{option_map};
ghost use Rattle.std.specs.Result.{result_ok};
ghost use Rattle.conversion.specs.Spans.{bytes_of, found, texts_under, numbers_under};
ghost use Rattle.conversion.specs.View.{shown};
ghost use Rattle.conversion.specs.Questions.{meta_answer, metric_answer};

use crate::dd_span::DdSpan;
use crate::pieces::piece_bytes;
use crate::rows::{first_number, row_at};
use blocks::questions::QuestionFault;

/// A text by its key.
#[derive(Clone, Copy)]
pub struct MetaItem<'s> {
    pub key: &'s [u8],
    pub value: &'s [u8],
}

/// The pattern of a double by its key.
#[derive(Clone, Copy)]
pub struct MetricItem<'s> {
    pub key: &'s [u8],
    pub pattern: u64,
}

impl<'b, 'm, 'a> DdSpan<'b, 'm, 'a> {
    /// How many texts there are.
    pub fn meta_count(&self) -> usize
        ensures { result ≡ length (shown self.now).meta }
    {
        self.made.meta_len
    }

    /// The text with a number, and its key.
    pub fn meta(&self, i: usize) -> Result<MetaItem<'_>, QuestionFault>
        ensures { meta_answer result ≡ slice_get (texts_under (shown self.now).meta) i }
    {
        match row_at(&self.made.meta[..self.made.meta_len], i) {
            Some(row) => Ok(MetaItem {
                key: piece_bytes(self.made.block, self.made.arena, row.key),
                value: piece_bytes(self.made.block, self.made.arena, row.value),
            }),
            None => Err(QuestionFault::NoSuchItem),
        }
    }

    /// How many numbers there are.
    pub fn metrics_count(&self) -> usize
        ensures { result ≡ length (shown self.now).metrics }
    {
        self.made.metrics_len
    }

    /// The number with a number, and its key.
    pub fn metric(&self, i: usize) -> Result<MetricItem<'_>, QuestionFault>
        ensures { metric_answer result ≡ slice_get (numbers_under (shown self.now).metrics) i }
    {
        match row_at(&self.made.metrics[..self.made.metrics_len], i) {
            Some(row) => Ok(MetricItem {
                key: piece_bytes(self.made.block, self.made.arena, row.key),
                pattern: row.pattern,
            }),
            None => Err(QuestionFault::NoSuchItem),
        }
    }

    /// The text under a key.
    pub fn meta_under(&self, key: &[u8]) -> Result<&[u8], QuestionFault>
        ensures { option_map (λ t. t.now) (result_ok result) ≡ option_map bytes_of (found key.now (shown self.now).meta) }
    {
        match self.made.found_meta(key) {
            Some(piece) => Ok(piece_bytes(self.made.block, self.made.arena, piece)),
            None => Err(QuestionFault::NoSuchItem),
        }
    }

    /// The pattern of the number under a key.
    pub fn metric_under(&self, key: &[u8]) -> Result<u64, QuestionFault>
        ensures { result_ok result ≡ found key.now (shown self.now).metrics }
    {
        let rows = &self.made.metrics[..self.made.metrics_len];
        match first_number(self.made.block, self.made.arena, rows, key) {
            Some(row) => Ok(row.pattern),
            None => Err(QuestionFault::NoSuchItem),
        }
    }
}
