//! Blocks made for the tests, and what a reader is found to say.
use blocks::lists::List;
use blocks::span_kind::SpanKind;
use derived::fields::{
    datadog_env, datadog_name, datadog_resource, datadog_service, datadog_status_code, datadog_type,
};
use lent_bytes::fields::Number;
use lent_bytes::memory::{part, write};
use names::attribute_keys::AttributeKey;
use readers::otel_util::OtelSpan;

/// A row: its list, its key, and its value with the number of its kind.
#[derive(Clone, Copy)]
pub struct Said {
    pub list: List,
    pub key: &'static [u8],
    pub kind: u8,
    pub value: &'static [u8],
}

/// A string of the span.
pub fn on_span(key: &'static [u8], value: &'static [u8]) -> Said {
    Said {
        list: List::Span,
        key,
        kind: 3,
        value,
    }
}

/// A string of the resource.
pub fn on_resource(key: &'static [u8], value: &'static [u8]) -> Said {
    Said {
        list: List::Resource,
        key,
        kind: 3,
        value,
    }
}

// Writes a text behind the texts so far, and answers where it ends.
fn put_text(m: &mut [u8], offset: u32, place: u32, text: &[u8]) -> u32 {
    write(m, offset.saturating_add(place) as usize, text);
    place.saturating_add(u32::try_from(text.len()).unwrap_or(0))
}

fn put_row(m: &mut [u8], i: u16, offset: u32, place: u32, said: Said) -> u32 {
    let value = put_text(m, offset, place, said.key);
    let end = put_text(m, offset, value, said.value);
    let at = 120 + 24 * i as usize;
    write(m, at, &[u8::from(said.list), said.kind]);
    u16::try_from(said.key.len()).unwrap_or(0).put(m, at + 2);
    place.put(m, at + 4);
    end.saturating_sub(value).put(m, at + 8);
    value.put(m, at + 12);
    end
}

/// A block of a span with a name and these rows, at most 100.
pub fn put_span(m: &mut [u8], kind: SpanKind, name: &[u8], rows: &[Said]) {
    m.fill(0);
    let count = u16::try_from(rows.len().min(100)).unwrap_or(0);
    let offset = 120 + 24 * count as u32;
    1u16.put(m, 0);
    count.put(m, 2);
    offset.put(m, 4);
    count.put(m, 8);
    write(m, 10, &[u8::from(kind)]);
    write(m, 76, &[1]);
    let mut end = put_text(m, offset, 0, name);
    end.put(m, 84);
    for i in 0..count {
        if let Some(said) = rows.get(i as usize) {
            end = put_row(m, i, offset, end, *said);
        }
    }
    end.put(m, 12);
}

// Whether memory holds the text with zeros behind, or all zeros where there is none.
fn holds(out: &[u8; 4096], n: Option<usize>, want: Option<&[u8]>) -> bool {
    let len = n.unwrap_or(0);
    let clear = part(out, len, 4096).iter().all(|b| *b == 0);
    match want {
        Some(text) => n.is_some() && part(out, 0, len) == text && clear,
        None => n.is_none() && clear,
    }
}

/// Whether the span says just this under a key; memory is written before with other bytes.
pub fn span_says<S: OtelSpan>(span: &S, key: AttributeKey, want: Option<&[u8]>) -> bool {
    let mut out = [7u8; 4096];
    let n = span.get_attr_str_opt(key, &mut out);
    span.has_attr(key) == want.is_some() && holds(&out, n, want)
}

/// Whether the resource says just this under a key.
pub fn resource_says<S: OtelSpan>(span: &S, key: AttributeKey, want: Option<&[u8]>) -> bool {
    let mut out = [7u8; 4096];
    let n = span.get_res_attribute_opt(key, &mut out);
    holds(&out, n, want)
}

/// The six fields that are wanted.
#[derive(Clone, Copy)]
pub struct Six {
    pub name: &'static [u8],
    pub resource: &'static [u8],
    pub span_type: &'static [u8],
    pub service: &'static [u8],
    pub env: &'static [u8],
    pub code: u32,
}

/// Which of the fields are others than wanted.
pub fn others<S: OtelSpan>(span: &S, want: Six) -> [bool; 6] {
    let mut long = [7u8; 8200];
    let n = datadog_name(span, &mut long);
    let name = part(&long, 0, n) == want.name;
    let n = datadog_resource(span, &mut long);
    let resource = part(&long, 0, n) == want.resource;
    let mut short = [7u8; 4096];
    let n = datadog_type(span, &mut short);
    let span_type = holds(&short, Some(n), Some(want.span_type));
    let n = datadog_service(span, &mut short);
    let service = holds(&short, Some(n), Some(want.service));
    let n = datadog_env(span, &mut short);
    let env = holds(&short, Some(n), Some(want.env));
    [
        !name,
        !resource,
        !span_type,
        !service,
        !env,
        datadog_status_code(span) != want.code,
    ]
}
