//! The six fields, by name.
ghost use Rattle.std.specs.Prelude.{◌≡◌, Some};
ghost use Rattle.reading_report.specs.Names.{field_word, field_in, NamesReadBack, said, field_said};

use crate::token::Token;
use derived::fields::{
    datadog_env, datadog_name, datadog_resource, datadog_service, datadog_status_code, datadog_type,
};
use lent_bytes::memory::part;
use readers::otel_util::OtelSpan;
use std::fmt;
use std::fmt::Display;

/// A field of a Datadog span that is derived from a reading.
#[derive(Clone, Copy, PartialEq, Eq)]
pub enum Field {
    Name,
    Resource,
    SpanType,
    Service,
    Environment,
    StatusCode,
}

/// The fields in the order in which they are printed.
pub const FIELDS: [Field; 6] = [
    Field::Name,
    Field::Resource,
    Field::SpanType,
    Field::Service,
    Field::Environment,
    Field::StatusCode,
];

impl Field {
    pub fn name(self) -> &'static str
        ensures { result.now ≡ field_word self }
    {
        match self {
            Field::Name => "name",
            Field::Resource => "resource",
            Field::SpanType => "type",
            Field::Service => "service",
            Field::Environment => "environment",
            Field::StatusCode => "status_code",
        }
    }

    /// The field that a word names; the name of each is read as that field.
    pub fn named(word: &[u8]) -> Option<Field>
        ensures value { result ≡ field_in word.now }
        ensures back { NamesReadBack }
    {
        FIELDS
            .iter()
            .find(|field| field.name().as_bytes() == word)
            .copied()
    }
}

impl fmt::Display for Field {
    ghost output = { λ f. Some (field_word f) };

    fn fmt<W: fmt::Write>(&self, f: &mut fmt::Formatter<W>) -> fmt::Result {
        f.pad(self.name())
    }
}

/// Memory for the text of a field.
#[derive(Drop)]
pub struct FieldTexts {
    composed: [u8; 8200],
    text: [u8; 4096],
}

impl FieldTexts {
    pub fn new() -> FieldTexts {
        FieldTexts {
            composed: [0; 8200],
            text: [0; 4096],
        }
    }
}

/// What a reader gives for a field.
#[derive(Clone, Copy)]
pub enum FieldValue<'t> {
    Text(&'t [u8]),
    /// A status code, 0 for none.
    Code(u32),
}

impl fmt::Display for FieldValue<'_> {
    fn fmt<W: fmt::Write>(&self, f: &mut fmt::Formatter<W>) -> fmt::Result {
        match self {
            FieldValue::Text(text) => Token(text).fmt(f),
            FieldValue::Code(code) => code.fmt(f),
        }
    }
}

impl Field {
    /// What a reader gives for the field; a text is put into `texts`.
    pub fn read<'t, S: OtelSpan>(self, span: &S, texts: &'t mut FieldTexts) -> FieldValue<'t>
        ensures { said result ≡ field_said self (S.OtelSpan.reading span.now) }
    {
        let FieldTexts { composed, text } = texts;
        match self {
            Field::Name => {
                let len = datadog_name(span, composed);
                FieldValue::Text(part(composed, 0, len))
            }
            Field::Resource => {
                let len = datadog_resource(span, composed);
                FieldValue::Text(part(composed, 0, len))
            }
            Field::SpanType => {
                let len = datadog_type(span, text);
                FieldValue::Text(part(text, 0, len))
            }
            Field::Service => {
                let len = datadog_service(span, text);
                FieldValue::Text(part(text, 0, len))
            }
            Field::Environment => {
                let len = datadog_env(span, text);
                FieldValue::Text(part(text, 0, len))
            }
            Field::StatusCode => FieldValue::Code(datadog_status_code(span)),
        }
    }
}
