//! What a span is without its attributes' texts: whether it is an error, its kind, its status code.
ghost use Rattle.std.specs.Prelude.{◌≡◌, ◌||◌, length, codes, decimal};
ghost use Rattle.blocks.specs.Facts.{facts};
ghost use Rattle.lent_bytes.specs.Memory.{portion};
ghost use Rattle.conversion.specs.Forms.{own, number_in, int32};
ghost use Rattle.conversion.specs.Steps.{error_by, first_error, kind_form, span_kind, status_code, calls_out, says_one, measured};
ghost use Rattle.conversion.specs.Pieces.{form_text};
ghost use Rattle.conversion.specs.View.{view, Made, Does};

use crate::arena::ArenaFull;
use crate::constants::Constant;
use crate::forms::{last_row, number_of, string_form, value_of};
use crate::pieces::{Form, Given};
use crate::unfinished::{ONE, UnfinishedSpan};
use blocks::header;
use blocks::lists::List;
use blocks::span_kind::{SpanKind, StatusCode};
use derived::fields::datadog_status_code;
use lent_bytes::memory::part;
use lent_bytes::texts::TextWriter;
use readers::otel_util::OtelSpan;

/// The number of the last attribute of the span with a key.
fn own_number(block: &[u8], key: &[u8]) -> Option<i64>
    ensures { result ≡ number_in (own (facts block.now) key.now) }
{
    number_of(block, last_row(block, List::Span, key)?)
}

/// A number as 32 bits with a sign; none where it does not fit them.
fn narrow(number: Option<i64>) -> Option<i32>
    ensures { result ≡ int32 number }
{
    i32::try_from(number?).ok()
}

/// Whether a span is an error: as it says itself, or by its status.
fn error_by(said: Option<i32>, status: StatusCode) -> i32
    ensures { result ≡ error_by said status }
{
    match (said, status) {
        (Some(error), _) => error,
        (None, StatusCode::Error) => 1,
        (None, _) => 0,
    }
}

/// A kind of span that calls another.
fn calls_out(kind: SpanKind) -> bool
    ensures { result ≡ calls_out kind }
{
    matches!(kind, SpanKind::Client | SpanKind::Producer)
}

fn says_one(number: Option<i64>) -> bool
    ensures { result ≡ says_one number }
{
    number == Some(1)
}

/// Whether a span is measured: as it says itself, or by its kind.
fn is_measured(block: &[u8]) -> bool
    ensures { result ≡ (says_one (number_in (own (facts block.now) (codes "_dd.measured"))) || calls_out (facts block.now).kind) }
{
    says_one(own_number(block, b"_dd.measured")) || calls_out(header::kind(block))
}

/// The text of a span's kind: as it says itself, or by its kind.
fn kind_form<'t>(block: &'t [u8]) -> Form<'t>
    ensures { form_text block.now result ≡ kind_form (own (facts block.now) (codes "datadog.span.kind")) (facts block.now).kind }
{
    match last_row(block, List::Span, b"datadog.span.kind") {
        Some(row) if value_of(block, row).is_some() => string_form(block, row),
        _ => Form::Ready(Given::Quoted(Constant::Kind(header::kind(block)))),
    }
}

/// The shortest decimal of a number, and its length.
fn write_decimal(number: u32, out: &mut [u8; 16]) -> usize
    ensures { portion out.new 0 result ≡ decimal number }
{
    let mut text = TextWriter::new(out);
    text.push_decimal(number as u64);
    text.len()
}

impl<'b, 'm, 'a> UnfinishedSpan<'b, 'm, 'a> {
    /// Whether it is an error.
    pub(crate) fn first_error(&mut self)
        ensures { Made self.old self.new (first_error (facts self.old.block.now) (view self.old)) }
    {
        let said = narrow(own_number(self.block, b"datadog.error"));
        self.head.error = error_by(said, header::status(self.block));
    }

    /// The kind.
    pub(crate) fn span_kind(&mut self) -> Result<(), ArenaFull>
        ensures { Does result self.old self.new (λ n b. span_kind n (facts b)) }
    {
        let kind = kind_form(self.block);
        self.put_meta(Given::Quoted(Constant::SpanKind), kind)
    }

    /// The status code of HTTP, unless it is 0.
    pub(crate) fn status_code<R: OtelSpan>(&mut self, reader: &R) -> Result<(), ArenaFull>
        ensures { Does result self.old self.new (λ n _. status_code n (R.OtelSpan.reading reader.now)) }
    {
        let code = datadog_status_code(reader);
        if code == 0 {
            return Ok(());
        }
        let mut out = [0u8; 16];
        let n = write_decimal(code, &mut out);
        self.put_meta(
            Given::Quoted(Constant::HttpStatusCode),
            Form::Ready(Given::Placed(part(&out, 0, n))),
        )
    }

    /// Whether it is measured.
    pub(crate) fn measured(&mut self) -> Result<(), ArenaFull>
        ensures { Does result self.old self.new (λ _ b. measured (facts b)) }
    {
        if is_measured(self.block) {
            return self.put_metric(Given::Quoted(Constant::Measured), ONE);
        }
        Ok(())
    }
}
