//! Texts that a span has from single attributes and from the header.
ghost use Rattle.std.specs.Prelude.{◌≡◌, ◌++◌, codes};
ghost use Rattle.std.specs.List.{flat_map};
ghost use Rattle.lent_bytes.specs.Digits.{hex_pair};
ghost use Rattle.lent_bytes.specs.Memory.{portion};
ghost use Rattle.blocks.specs.Facts.{facts, row_fact, row_facts};
ghost use Rattle.conversion.specs.RowSteps.{is_own, any_own};
ghost use Rattle.conversion.specs.Constants.{constant_text};
ghost use Rattle.conversion.specs.Steps.{put_given, own_meta, six_own, id_digits, trace_id, version, env, trace_state, scope, status};
ghost use Rattle.conversion.specs.Spans.{quoted, placed};
ghost use Rattle.derived.specs.Fields.{environment};
ghost use Rattle.conversion.specs.View.{Does};

use crate::arena::ArenaFull;
use crate::constants::Constant;
use crate::forms::{description_form, header_form, last_display, last_string, status_form};
use crate::pieces::{Form, Given};
use crate::row_steps::starts;
use crate::unfinished::UnfinishedSpan;
use blocks::header;
use blocks::layout::{is_in, raw_row};
use blocks::lists::List;
use derived::span_fields::environment_text;
use lent_bytes::fields::Number;
use lent_bytes::memory::part;
use lent_bytes::texts::TextWriter;
use readers::otel_util::OtelSpan;
use values::show::TEXT_BYTES;

/// The bytes of an id, highest first.
fn id_bytes(id: u64) -> [u8; 8]
    ensures { flat_map hex_pair result ≡ id_digits id }
{
    [
        (id / 72057594037927936 % 256) as u8,
        (id / 281474976710656 % 256) as u8,
        (id / 1099511627776 % 256) as u8,
        (id / 4294967296 % 256) as u8,
        (id / 16777216 % 256) as u8,
        (id / 65536 % 256) as u8,
        (id / 256 % 256) as u8,
        (id % 256) as u8,
    ]
}

/// The hex digits of the whole trace id, and how many they are.
fn write_trace_id(block: &[u8], out: &mut [u8; 32]) -> usize
    ensures { portion out.new 0 result ≡ id_digits (facts block.now).trace_high ++ id_digits (facts block.now).trace_low }
{
    let mut text = TextWriter::new(out);
    text.push_hex(&id_bytes(header::trace_id_high(block)));
    text.push_hex(&id_bytes(header::trace_id_low(block)));
    text.len()
}

/// Whether the row `i` is an attribute of the span that is Datadog's own.
fn is_own(block: &[u8], i: u16) -> bool
    ensures { result ≡ is_own (row_fact block.now i) }
{
    is_in(block, List::Span, i) && starts(raw_row(block, i).key(block), b"datadog.")
}

/// Whether the span has an attribute of Datadog's own.
fn has_own(block: &[u8]) -> bool
    ensures { result ≡ any_own (row_facts block.now) }
{
    for i in 0..u16::read(block, 2) {
        if is_own(block, i) {
            return true;
        }
    }
    false
}

impl<'b, 'm, 'a> UnfinishedSpan<'b, 'm, 'a> {
    /// An attribute of Datadog's own under its name, unless it is empty.
    fn own_meta(&mut self, key: &[u8], name: Constant) -> Result<(), ArenaFull>
        ensures { Does result self.old self.new (λ n b. own_meta n (facts b) key.now (constant_text name)) }
    {
        let value = last_string(self.block, List::Span, key);
        self.put_given(Given::Quoted(name), value)
    }

    /// Six attributes of Datadog's own, one by one.
    fn six_found(&mut self) -> Result<(), ArenaFull>
        ensures { Does result self.old self.new (λ n b. six_own n (facts b)) }
    {
        self.own_meta(b"datadog.env", Constant::Env)?;
        self.own_meta(b"datadog.version", Constant::Version)?;
        self.own_meta(b"datadog.http_status_code", Constant::HttpStatusCode)?;
        self.own_meta(b"datadog.error.msg", Constant::ErrorMessage)?;
        self.own_meta(b"datadog.error.type", Constant::ErrorType)?;
        self.own_meta(b"datadog.error.stack", Constant::ErrorStack)
    }

    /// Six attributes of Datadog's own. None is looked for in a span that has no attribute of Datadog's own.
    pub(crate) fn six_own(&mut self) -> Result<(), ArenaFull>
        ensures { Does result self.old self.new (λ n b. six_own n (facts b)) }
    {
        if has_own(self.block) {
            return self.six_found();
        }
        Ok(())
    }

    /// The whole trace id.
    pub(crate) fn trace_id_text(&mut self) -> Result<(), ArenaFull>
        ensures { Does result self.old self.new (λ n b. trace_id n (facts b)) }
    {
        let mut out = [0u8; 32];
        let n = write_trace_id(self.block, &mut out);
        self.put_meta(
            Given::Quoted(Constant::TraceId),
            Form::Ready(Given::Placed(part(&out, 0, n))),
        )
    }

    /// The version of the service, unless there is one.
    pub(crate) fn version(&mut self) -> Result<(), ArenaFull>
        ensures { Does result self.old self.new (λ n b. version n (facts b)) }
    {
        if self.has_meta(b"version") {
            return Ok(());
        }
        let value = last_display(self.block, List::Resource, b"service.version");
        self.put_given(Given::Quoted(Constant::Version), value)
    }

    /// The environment as it is derived, unless it is empty.
    fn derived_env<R: OtelSpan>(&mut self, reader: &R) -> Result<(), ArenaFull>
        ensures { Does result self.old self.new (λ n _. put_given n (quoted (codes "env")) (placed (environment (R.OtelSpan.reading reader.now)))) }
    {
        let mut memory = [0u8; TEXT_BYTES];
        let text = environment_text(reader, &mut memory);
        self.put_given(
            Given::Quoted(Constant::Env),
            Form::Ready(Given::Placed(text.bytes)),
        )
    }

    /// The environment, unless there is one.
    pub(crate) fn env<R: OtelSpan>(&mut self, reader: &R) -> Result<(), ArenaFull>
        ensures { Does result self.old self.new (λ n _. env n (R.OtelSpan.reading reader.now)) }
    {
        if self.has_meta(b"env") {
            return Ok(());
        }
        self.derived_env(reader)
    }

    /// The trace state.
    pub(crate) fn trace_state(&mut self) -> Result<(), ArenaFull>
        ensures { Does result self.old self.new (λ n b. trace_state n (facts b)) }
    {
        let value = header_form(self.block, 88);
        self.put_given(Given::Quoted(Constant::TraceState), Form::Ready(value))
    }

    /// The scope's name and version.
    pub(crate) fn scope(&mut self) -> Result<(), ArenaFull>
        ensures { Does result self.old self.new (λ n b. scope n (facts b)) }
    {
        let name = header_form(self.block, 96);
        self.put_given(Given::Quoted(Constant::ScopeName), Form::Ready(name))?;
        let version = header_form(self.block, 104);
        self.put_given(Given::Quoted(Constant::ScopeVersion), Form::Ready(version))
    }

    /// The status and what it says.
    pub(crate) fn status(&mut self) -> Result<(), ArenaFull>
        ensures { Does result self.old self.new (λ n b. status n (facts b)) }
    {
        let word = status_form(self.block);
        self.put_meta(Given::Quoted(Constant::StatusKey), Form::Ready(word))?;
        let said = description_form(self.block);
        self.put_given(
            Given::Quoted(Constant::StatusDescription),
            Form::Ready(said),
        )
    }
}
