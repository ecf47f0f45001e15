//! What another program may answer of a span.
use names::attribute_keys::{AttributeKey, attribute_keys, get_attribute_idx};
use notation::cut::word;
use readers::otel_util::OtelSpan;
use reading_report::field::{Field, FieldTexts};
use reading_report::key_line::{KeyLine, KeyTexts};
use std::fmt;

/// What an answer is about.
#[derive(Clone, Copy)]
pub enum Answer {
    /// How many known keys are present.
    Keys,
    /// What is said under a known key.
    Key(AttributeKey),
    /// A field.
    Field(Field),
}

impl Answer {
    /// What a line is about, by its first words.
    pub fn named(line: &[u8]) -> Option<Answer> {
        let (first, rest) = word(line);
        match first {
            b"keys" => Some(Answer::Keys),
            b"key" => {
                let (key, _) = word(rest);
                get_attribute_idx(key).map(Answer::Key)
            }
            _ => Field::named(first).map(Answer::Field),
        }
    }
}

/// The answer of a reader.
#[derive(Drop)]
pub struct Shown<'s, S> {
    pub span: &'s S,
    pub answer: Answer,
}

fn present_keys<S: OtelSpan>(span: &S) -> usize {
    let mut texts = KeyTexts::new();
    let mut count = 0usize;
    for key in attribute_keys() {
        if KeyLine::read(span, key, &mut texts).is_present() {
            count = count.saturating_add(1);
        }
    }
    count
}

impl<S: OtelSpan> fmt::Display for Shown<'_, S> {
    fn fmt<W: fmt::Write>(&self, f: &mut fmt::Formatter<W>) -> fmt::Result {
        let span = self.span;
        match self.answer {
            Answer::Keys => write!(f, "keys {}", present_keys(span)),
            Answer::Key(key) => {
                let mut texts = KeyTexts::new();
                write!(f, "{}", KeyLine::read(span, key, &mut texts))
            }
            Answer::Field(field) => {
                let mut texts = FieldTexts::new();
                write!(f, "{field} {}", field.read(span, &mut texts))
            }
        }
    }
}
