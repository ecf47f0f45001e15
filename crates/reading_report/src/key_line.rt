//! What is said under a known key, on the span and on its resource.
ghost use Rattle.std.specs.Prelude.{◌≡◌, ◌||◌, is_some};
ghost use Rattle.std.specs.Option.{option_map};
ghost use Rattle.lent_bytes.specs.Memory.{portion};
ghost use Rattle.readers.specs.Reading.{text_of, number_of};

use crate::token::Token;
use lent_bytes::memory::part;
use names::attribute_keys::AttributeKey;
use readers::otel_util::OtelSpan;
use std::fmt;

/// Memory for the texts of a key.
#[derive(Drop)]
pub struct KeyTexts {
    span: [u8; 4096],
    resource: [u8; 4096],
}

impl KeyTexts {
    pub fn new() -> KeyTexts {
        KeyTexts {
            span: [0; 4096],
            resource: [0; 4096],
        }
    }
}

/// The text of so many bytes at the front of memory, if there is one.
fn front(memory: &[u8; 4096], len: Option<usize>) -> Option<&[u8]>
    ensures { option_map (λ t. t.now) result ≡ option_map (portion memory.now 0) len }
{
    len.map(|n| part(memory, 0, n))
}

/// What a reader says under a key.
#[derive(Clone, Copy)]
pub struct KeyLine<'t> {
    key: AttributeKey,
    span: Option<&'t [u8]>,
    number: Option<i64>,
    resource: Option<&'t [u8]>,
}

impl<'t> KeyLine<'t> {
    /// Reads what is said under a key; the texts are put into `texts`.
    pub fn read<S: OtelSpan>(span: &S, key: AttributeKey, texts: &'t mut KeyTexts) -> KeyLine<'t>
        ensures key { result.key ≡ key }
        ensures span { option_map (λ t. t.now) result.span ≡ text_of ((S.OtelSpan.reading span.now).span key.idx) }
        ensures number { result.number ≡ number_of ((S.OtelSpan.reading span.now).span key.idx) }
        ensures resource { option_map (λ t. t.now) result.resource ≡ (S.OtelSpan.reading span.now).resource key.idx }
    {
        let KeyTexts {
            span: on_span,
            resource: on_resource,
        } = texts;
        let on_span_len = span.get_attr_str_opt(key, on_span);
        let on_resource_len = span.get_res_attribute_opt(key, on_resource);
        let number = span.get_attr_num(key);
        let span = front(on_span, on_span_len);
        let resource = front(on_resource, on_resource_len);
        KeyLine {
            key,
            span,
            number,
            resource,
        }
    }

    /// Whether anything is said under the key.
    pub fn is_present(self) -> bool
        ensures { result ≡ (is_some self.entry.span || is_some self.entry.resource) }
    {
        self.span.is_some() || self.resource.is_some()
    }
}

/// One side of a key, by its name.
#[derive(Clone, Copy)]
struct Side<'t> {
    name: &'static str,
    text: Option<&'t [u8]>,
}

impl fmt::Display for Side<'_> {
    fn fmt<W: fmt::Write>(&self, f: &mut fmt::Formatter<W>) -> fmt::Result {
        let name = self.name;
        match self.text {
            Some(text) => write!(f, "{name}={}", Token(text)),
            None => write!(f, "{name}-absent"),
        }
    }
}

impl fmt::Display for KeyLine<'_> {
    fn fmt<W: fmt::Write>(&self, f: &mut fmt::Formatter<W>) -> fmt::Result {
        let span = Side {
            name: "span",
            text: self.span,
        };
        let resource = Side {
            name: "resource",
            text: self.resource,
        };
        write!(f, "key {} {span} ", Token(self.key.key()))?;
        match self.number {
            Some(number) => write!(f, "number={number} {resource}"),
            None => write!(f, "number-absent {resource}"),
        }
    }
}
