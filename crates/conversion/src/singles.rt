//! The four texts that a span has outside its tables.
ghost use Rattle.std.specs.Prelude.{◌≡◌};
ghost use Rattle.conversion.specs.Spans.{bytes_of};
ghost use Rattle.conversion.specs.Singles.{own_key, derived_text, single_of, with_single};
ghost use Rattle.conversion.specs.declared.singles.Single.TheVariants.{Service, Name, Resource, SpanType};
ghost use Rattle.conversion.specs.Steps.{own_single, own_texts, derived_single, derived_texts, is_empty};
ghost use Rattle.conversion.specs.View.{view, Does};

use crate::arena::ArenaFull;
use crate::pieces::piece_bytes;
use crate::unfinished::UnfinishedSpan;
use derived::operation_name::write_operation_name;
use derived::resource_name::write_resource_name;
use derived::span_fields::{service_text, span_type_text};
use lent_bytes::memory::part;
use names::attribute_keys::*;
use readers::otel_util::{OtelSpan, get_attr_str};
use values::show::TEXT_BYTES;

/// The most bytes that a name or a resource takes.
const NAME_BYTES: usize = 8200;

/// One of the four.
#[derive(Clone, Copy)]
pub enum Single {
    Service,
    Name,
    Resource,
    SpanType,
}

/// The attribute of Datadog's own for a text.
fn own_key(which: Single) -> AttributeKey
    ensures { result.idx ≡ own_key which }
{
    match which {
        Single::Service => DATADOG_SERVICE,
        Single::Name => DATADOG_NAME,
        Single::Resource => DATADOG_RESOURCE,
        Single::SpanType => DATADOG_TYPE,
    }
}

impl<'b, 'm, 'a> UnfinishedSpan<'b, 'm, 'a> {
    /// Whether one of the texts is empty.
    fn lacks(&self, which: Single) -> bool
        ensures { result ≡ is_empty (bytes_of (single_of which (view self.now))) }
    {
        let piece = match which {
            Single::Service => self.head.service,
            Single::Name => self.head.name,
            Single::Resource => self.head.resource,
            Single::SpanType => self.head.span_type,
        };
        piece_bytes(self.block, self.arena, piece).is_empty()
    }

    /// Places one of the texts.
    fn set_single(&mut self, which: Single, text: &[u8]) -> Result<(), ArenaFull>
        ensures { Does result self.old self.new (λ _ _. with_single which text.now) }
    {
        let piece = self.place(text)?;
        match which {
            Single::Service => self.head.service = piece,
            Single::Name => self.head.name = piece,
            Single::Resource => self.head.resource = piece,
            Single::SpanType => self.head.span_type = piece,
        }
        Ok(())
    }

    /// One of the texts as an attribute of Datadog's own says it, if there is one.
    fn held_text<R: OtelSpan>(&mut self, reader: &R, which: Single) -> Result<(), ArenaFull>
        ensures { Does result self.old self.new (λ _ _. own_single which (R.OtelSpan.reading reader.now)) }
    {
        let mut memory = [0u8; TEXT_BYTES];
        let n = get_attr_str(reader, own_key(which), &mut memory);
        self.set_single(which, part(&memory, 0, n))
    }

    /// One of the texts as an attribute of Datadog's own says it. No memory is made where there is none.
    fn own_text<R: OtelSpan>(&mut self, reader: &R, which: Single) -> Result<(), ArenaFull>
        ensures { Does result self.old self.new (λ _ _. own_single which (R.OtelSpan.reading reader.now)) }
    {
        if !reader.has_attr(own_key(which)) {
            return self.set_single(which, b"");
        }
        self.held_text(reader, which)
    }

    /// The four texts of Datadog's own.
    pub(crate) fn own_texts<R: OtelSpan>(&mut self, reader: &R) -> Result<(), ArenaFull>
        ensures { Does result self.old self.new (λ _ _. own_texts (R.OtelSpan.reading reader.now)) }
    {
        self.own_text(reader, Single::Service)?;
        self.own_text(reader, Single::Name)?;
        self.own_text(reader, Single::Resource)?;
        self.own_text(reader, Single::SpanType)
    }

    /// The service as it is derived.
    fn derived_service<R: OtelSpan>(
        &mut self,
        reader: &R,
        memory: &mut [u8; TEXT_BYTES],
    ) -> Result<(), ArenaFull>
        ensures { Does result self.old self.new (λ _ _. with_single Service (derived_text Service (R.OtelSpan.reading reader.now))) }
    {
        self.set_single(Single::Service, service_text(reader, memory).bytes)
    }

    /// The type of the span as it is derived.
    fn derived_type<R: OtelSpan>(
        &mut self,
        reader: &R,
        memory: &mut [u8; TEXT_BYTES],
    ) -> Result<(), ArenaFull>
        ensures { Does result self.old self.new (λ _ _. with_single SpanType (derived_text SpanType (R.OtelSpan.reading reader.now))) }
    {
        self.set_single(Single::SpanType, span_type_text(reader, memory).bytes)
    }

    /// The name of the operation as it is derived.
    fn derived_name<R: OtelSpan>(
        &mut self,
        reader: &R,
        memory: &mut [u8; NAME_BYTES],
    ) -> Result<(), ArenaFull>
        ensures { Does result self.old self.new (λ _ _. with_single Name (derived_text Name (R.OtelSpan.reading reader.now))) }
    {
        let n = write_operation_name(reader, memory);
        self.set_single(Single::Name, part(memory, 0, n))
    }

    /// The resource as it is derived.
    fn derived_resource<R: OtelSpan>(
        &mut self,
        reader: &R,
        memory: &mut [u8; NAME_BYTES],
    ) -> Result<(), ArenaFull>
        ensures { Does result self.old self.new (λ _ _. with_single Resource (derived_text Resource (R.OtelSpan.reading reader.now))) }
    {
        let n = write_resource_name(reader, memory);
        self.set_single(Single::Resource, part(memory, 0, n))
    }

    /// One of the texts as it is derived, if it is empty. The memory is for texts on the way, whatever it holds.
    fn derived_text<R: OtelSpan>(
        &mut self,
        reader: &R,
        which: Single,
        memory: &mut [u8; TEXT_BYTES],
        names: &mut [u8; NAME_BYTES],
    ) -> Result<(), ArenaFull>
        ensures { Does result self.old self.new (λ _ _. derived_single which (R.OtelSpan.reading reader.now)) }
    {
        if !self.lacks(which) {
            return Ok(());
        }
        match which {
            Single::Service => self.derived_service(reader, memory),
            Single::Name => self.derived_name(reader, names),
            Single::Resource => self.derived_resource(reader, names),
            Single::SpanType => self.derived_type(reader, memory),
        }
    }

    /// What is derived where the four texts are empty.
    pub(crate) fn derived_texts<R: OtelSpan>(&mut self, reader: &R) -> Result<(), ArenaFull>
        ensures { Does result self.old self.new (λ _ _. derived_texts (R.OtelSpan.reading reader.now)) }
    {
        let mut memory = [0u8; TEXT_BYTES];
        let mut names = [0u8; NAME_BYTES];
        self.derived_text(reader, Single::Service, &mut memory, &mut names)?;
        self.derived_text(reader, Single::Name, &mut memory, &mut names)?;
        self.derived_text(reader, Single::Resource, &mut memory, &mut names)?;
        self.derived_text(reader, Single::SpanType, &mut memory, &mut names)
    }
}
