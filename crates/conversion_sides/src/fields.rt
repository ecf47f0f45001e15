//! The single fields of two spans beside each other.
ghost use Rattle.std.specs.Prelude.{◌≡◌};
ghost use Rattle.conversion.specs.View.{shown};
ghost use Rattle.conversion_sides.specs.Fields.{value_seen, field_in, same_field, field_standing, fields_apart};

use crate::standing::Standing;
use conversion::dd_span::DdSpan;

/// A single field of a span.
#[derive(Clone, Copy, PartialEq, Eq, Debug)]
pub enum Field {
    Service,
    Name,
    Resource,
    SpanType,
    TraceId,
    SpanId,
    ParentId,
    Start,
    Duration,
    Error,
}

/// What a field holds.
#[derive(Clone, Copy)]
pub enum FieldValue<'s> {
    Text(&'s [u8]),
    Id(u64),
    Number(i64),
}

impl FieldValue<'_> {
    /// Whether two fields hold the same.
    fn is_same(self, other: FieldValue<'_>) -> bool
        ensures { result ≡ same_field (value_seen self.entry) (value_seen other.entry) }
    {
        match (self, other) {
            (FieldValue::Text(x), FieldValue::Text(y)) => x == y,
            (FieldValue::Id(x), FieldValue::Id(y)) => x == y,
            (FieldValue::Number(x), FieldValue::Number(y)) => x == y,
            _ => false,
        }
    }
}

impl Field {
    /// The ten fields.
    pub const ALL: [Field; 10] = [
        Field::Service,
        Field::Name,
        Field::Resource,
        Field::SpanType,
        Field::TraceId,
        Field::SpanId,
        Field::ParentId,
        Field::Start,
        Field::Duration,
        Field::Error,
    ];

    /// What a span holds in this field.
    pub fn value<'s>(self, span: &'s DdSpan<'_, '_, '_>) -> FieldValue<'s>
        ensures { value_seen result ≡ field_in self (shown span.now) }
    {
        match self {
            Field::Service => FieldValue::Text(span.service()),
            Field::Name => FieldValue::Text(span.name()),
            Field::Resource => FieldValue::Text(span.resource()),
            Field::SpanType => FieldValue::Text(span.span_type()),
            Field::TraceId => FieldValue::Id(span.trace_id()),
            Field::SpanId => FieldValue::Id(span.span_id()),
            Field::ParentId => FieldValue::Id(span.parent_id()),
            Field::Start => FieldValue::Number(span.start()),
            Field::Duration => FieldValue::Number(span.duration()),
            Field::Error => FieldValue::Number(span.error() as i64),
        }
    }

    /// How this field of one span stands beside that of the other.
    pub fn standing(self, a: &DdSpan<'_, '_, '_>, b: &DdSpan<'_, '_, '_>) -> Standing
        ensures { result ≡ field_standing self (shown a.now) (shown b.now) }
    {
        Standing::of_both(self.value(a).is_same(self.value(b)))
    }
}

/// How many fields differ.
pub fn fields_apart(a: &DdSpan<'_, '_, '_>, b: &DdSpan<'_, '_, '_>) -> usize
    ensures { result ≡ fields_apart (shown a.now) (shown b.now) }
{
    Field::ALL
        .iter()
        .filter(|field| field.standing(a, b).is(Standing::Differs))
        .count()
}
