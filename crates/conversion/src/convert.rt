//! The conversion of an ended span.
ghost use Rattle.std.specs.Prelude.{◌≡◌, ◌-◌, false, length, pos, IfOk};
ghost use Rattle.std.specs.Result.{MatchResult};
ghost use Rattle.blocks.specs.Facts.{facts, row_facts};
ghost use Rattle.conversion.specs.Forms.{since_1970};
ghost use Rattle.conversion.specs.LinkTexts.{Lies, link_texts};
ghost use Rattle.conversion.specs.Steps.{begun, minimal_from, of_resource_and_scope, of_span, end_texts, at_the_end, steps_from};
ghost use Rattle.conversion.specs.View.{view, Made, Does};
ghost use Rattle.conversion.specs.Answers.{Tidy, Zeroed, GivenBack};
ghost use Rattle.conversion.specs.Converts.{Converts};

use crate::arena::ArenaFull;
use crate::clearing::clear_behind;
use crate::constants::Constant;
use crate::dd_span::DdSpan;
use crate::faults::ConvertFault;
use crate::pieces::{MetaRow, Metric, Piece};
use crate::unfinished::{Head, METRICS, UnfinishedSpan};
use blocks::lists::PlainList;
use blocks::sdk_span::SdkSpan;
use lent_bytes::memory::clear_from;
use readers::otel_util::OtelSpan;

/// The fewest rows that a table of texts has.
pub const META_ROWS: usize = 398;

/// The most bytes that an arena has.
pub const ARENA_BYTES: usize = 65536;

/// A conversion that is refused: why, and the span and the memory, which is all zeros.
#[derive(Drop)]
pub struct ConvertRefused<'b, 'm, 'a> {
    pub fault: ConvertFault,
    pub span: SdkSpan<'b>,
    pub meta: &'m mut [MetaRow],
    pub arena: &'a mut [u8],
}

const NO_PIECE: Piece = Piece::Constant(Constant::Empty);

const NO_METRIC: Metric = Metric {
    key: NO_PIECE,
    pattern: 0,
};

/// Empty rows in all of a table but its first `n`.
fn clear_rows(rows: &mut [MetaRow], n: usize)
    ensures { Zeroed n rows.old rows.new }
{
    let at = n.min(rows.len());
    rows[at..].fill(MetaRow::EMPTY);
}

fn refused<'b, 'm, 'a>(
    fault: ConvertFault,
    span: SdkSpan<'b>,
    meta: &'m mut [MetaRow],
    arena: &'a mut [u8],
) -> ConvertRefused<'b, 'm, 'a>
    ensures fault { result.fault ≡ fault }
    ensures back { GivenBack span.entry.block.now (length meta.old) (length arena.old) result }
    ensures meta { result.meta.ghost_name ≡ meta.entry.ghost_name }
    ensures arena { result.arena.ghost_name ≡ arena.entry.ghost_name }
{
    clear_rows(meta, 0);
    clear_from(arena, 0);
    ConvertRefused {
        fault,
        span,
        meta,
        arena,
    }
}

/// A time before 1970 counts as 1970.
pub(crate) fn since_1970(time: i64) -> i64
    ensures { result ≡ pos (since_1970 time) }
{
    time.max(0)
}

/// How long it took.
fn duration(start: i64, finish: i64) -> i64
    ensures { result ≡ pos (since_1970 finish - since_1970 start) }
{
    (since_1970(finish) - since_1970(start)).max(0)
}

/// A span with its ids and times.
fn begun<'b, 'm, 'a>(
    span: &SdkSpan<'b>,
    meta: &'m mut [MetaRow],
    arena: &'a mut [u8],
) -> UnfinishedSpan<'b, 'm, 'a>
    ensures view { view result ≡ begun (facts span.now.block.now) }
    ensures block { result.block.now ≡ span.now.block.now }
    ensures meta { result.meta.now ≡ meta.old }
    ensures arena { result.arena.now ≡ arena.old }
    ensures meta_name { result.meta.ghost_name ≡ meta.entry.ghost_name }
    ensures arena_name { result.arena.ghost_name ≡ arena.entry.ghost_name }
{
    UnfinishedSpan {
        block: span.block(),
        meta,
        meta_len: 0,
        arena,
        used: 0,
        metrics: [NO_METRIC; METRICS],
        metrics_len: 0,
        head: Head {
            service: NO_PIECE,
            name: NO_PIECE,
            resource: NO_PIECE,
            span_type: NO_PIECE,
            trace_id: span.trace_id_low(),
            span_id: span.span_id(),
            parent_id: span.parent_id(),
            start: since_1970(span.start_time()),
            duration: duration(span.start_time(), span.end_time()),
            error: 0,
        },
    }
}

impl<'b, 'm, 'a> UnfinishedSpan<'b, 'm, 'a> {
    /// The span without its attributes' texts.
    fn minimal<R: OtelSpan>(&mut self, reader: &R) -> Result<(), ArenaFull>
        ensures { Does result self.old self.new (λ n b. minimal_from n (facts b) (R.OtelSpan.reading reader.now)) }
    {
        self.own_texts(reader)?;
        self.first_error();
        self.span_kind()?;
        self.derived_texts(reader)?;
        self.status_code(reader)?;
        self.measured()
    }

    /// What the resource and the scope say.
    fn of_resource_and_scope(&mut self) -> Result<(), ArenaFull>
        ensures { Does result self.old self.new (λ n b. of_resource_and_scope n (facts b)) }
    {
        self.six_own()?;
        self.put_rows(PlainList::Resource)?;
        self.put_rows(PlainList::Scope)?;
        self.trace_id_text()?;
        self.version()
    }

    /// What the span's attributes and its links' say, and where the texts of the links begin.
    fn of_span<R: OtelSpan>(&mut self, reader: &R) -> Result<usize, ArenaFull>
        ensures step { Does result self.old self.new (λ n b. of_span n (facts b) (R.OtelSpan.reading reader.now)) }
        ensures at { IfOk result (λ at. Lies (view self.new).arena at (link_texts false (row_facts self.new.block.now))) }
    {
        self.put_rows(PlainList::Span)?;
        self.env(reader)?;
        let at = self.used;
        self.links()?;
        Ok(at)
    }

    /// What the header says.
    fn end_texts(&mut self) -> Result<(), ArenaFull>
        ensures { Does result self.old self.new (λ n b. end_texts n (facts b)) }
    {
        self.trace_state()?;
        self.scope()?;
        self.status()
    }

    /// What events, the header and the status say.
    fn at_the_end(&mut self) -> Result<(), ArenaFull>
        ensures { Does result self.old self.new (λ n b. at_the_end n (facts b)) }
    {
        self.has_exception()?;
        self.end_texts()?;
        self.last_error()
    }

    /// All steps. The texts of the links begin at the place that is answered.
    fn fill<R: OtelSpan>(&mut self, reader: &R) -> Result<usize, ArenaFull>
        ensures step { Does result self.old self.new (λ n b. steps_from n (facts b) (R.OtelSpan.reading reader.now)) }
        ensures at { IfOk result (λ at. Lies (view self.new).arena at (link_texts false (row_facts self.new.block.now))) }
    {
        self.minimal(reader)?;
        self.of_resource_and_scope()?;
        let at = self.of_span(reader)?;
        self.at_the_end()?;
        Ok(at)
    }

    /// Zeros in all memory that the span does not use.
    fn clear_rest(&mut self)
        ensures made { Made self.old self.new (view self.old) }
        ensures tidy { Tidy self.new }
    {
        let n = self.meta_len;
        clear_rows(self.meta, n);
        let n = self.used;
        clear_behind(self.arena, n);
    }
}

/// Converts an ended span in lent memory. The span and the memory are taken only where it is accepted: a refusal hands
/// them back, the memory all zeros.
pub fn otel_span_to_dd_span<'b, 'm, 'a, R: OtelSpan>(
    span: SdkSpan<'b>,
    reader: &R,
    meta: &'m mut [MetaRow],
    arena: &'a mut [u8],
) -> Result<DdSpan<'b, 'm, 'a>, ConvertRefused<'b, 'm, 'a>>
    ensures converts { Converts span.entry.block.now (R.OtelSpan.reading reader.now) (length meta.old) (length arena.old) result }
    ensures meta { MatchResult result (λ d. d.made.meta.ghost_name ≡ meta.entry.ghost_name) (λ e. e.meta.ghost_name ≡ meta.entry.ghost_name) }
    ensures arena { MatchResult result (λ d. d.made.arena.ghost_name ≡ arena.entry.ghost_name) (λ e. e.arena.ghost_name ≡ arena.entry.ghost_name) }
{
    if meta.len() < META_ROWS {
        return Err(refused(ConvertFault::TableTooSmall, span, meta, arena));
    }
    if arena.len() > ARENA_BYTES {
        return Err(refused(ConvertFault::ArenaTooLarge, span, meta, arena));
    }
    let mut made = begun(&span, meta, arena);
    match made.fill(reader) {
        Ok(links_at) => {
            made.clear_rest();
            Ok(DdSpan { made, links_at })
        }
        Err(ArenaFull) => {
            let UnfinishedSpan { meta, arena, .. } = made;
            Err(refused(ConvertFault::ArenaTooSmall, span, meta, arena))
        }
    }
}
