//! An ended span over its block.
ghost use Rattle.std.specs.Prelude.{◌≡◌, IfOk, MatchResult};
ghost use Rattle.std.specs.Result.{result_err};
ghost use Rattle.lent_bytes.specs.Fields.{u32_in};
ghost use Rattle.blocks.specs.Faults.{block_fault};
ghost use Rattle.blocks.specs.Lawful.{Lawful};
ghost use Rattle.blocks.specs.Layout.{rows_in};
ghost use Rattle.blocks.specs.Facts.{facts};

use crate::faults::BlockFault;
use crate::frame::{check_frame, check_texts};
use crate::header;
use crate::rows::check_rows;
use crate::span_kind::{SpanKind, StatusCode};
use lent_bytes::fields::{Number, id_at};

/// An ended span, over the block that holds it. It is moved and not copied, so that what takes a span has it
/// alone.
#[derive(Drop)]
pub struct SdkSpan<'a> {
    pub(crate) block: &'a [u8],
}

/// The ended span in a block, or the first fault: of the block as a whole, of its header texts, of its
/// rows.
fn checked(block: &[u8]) -> Result<SdkSpan<'_>, BlockFault>
    ensures fault { result_err result ≡ block_fault block.now }
    ensures span { IfOk result (λ s. s.block.now ≡ block.now) }
{
    check_frame(block)?;
    check_texts(block)?;
    check_rows(block)?;
    Ok(SdkSpan { block })
}

/// Opens a block: the ended span in it, or the first fault in the order of the checks. Accepted are just
/// the lawful blocks.
pub fn open(block: &[u8]) -> Result<SdkSpan<'_>, BlockFault>
    ensures fault { result_err result ≡ block_fault block.now }
    ensures span { IfOk result (λ s. s.block.now ≡ block.now) }
    ensures lawful { MatchResult result (λ _. Lawful block.now) (λ _. (Lawful block.now → ⊥)) }
{
    checked(block)
}

// Each number and text of the header has a function of its own name, which says what it means: they are
// no twins, though their bodies differ in a place alone.
impl<'a> SdkSpan<'a> {
    /// The span in ended memory, with none of open's checks: its questions have their answers on any
    /// bytes.
    pub fn of_ended(block: &'a [u8]) -> SdkSpan<'a>
        ensures { result.block.now ≡ block.now }
    {
        SdkSpan { block }
    }

    /// The block that holds the span.
    pub fn block(&self) -> &'a [u8]
        ensures { result.now ≡ self.now.block.now }
    {
        self.block
    }

    /// The upper half of the trace id.
    pub fn trace_id_high(&self) -> u64
        ensures { result ≡ (facts self.now.block.now).trace_high }
    {
        header::trace_id_high(self.block)
    }

    /// The lower half of the trace id.
    pub fn trace_id_low(&self) -> u64
        ensures { result ≡ (facts self.now.block.now).trace_low }
    {
        header::trace_id_low(self.block)
    }

    /// The span's id.
    pub fn span_id(&self) -> u64
        ensures { result ≡ (facts self.now.block.now).span_id }
    {
        id_at(self.block, 32)
    }

    /// The id of the span above.
    pub fn parent_id(&self) -> u64
        ensures { result ≡ (facts self.now.block.now).parent_id }
    {
        id_at(self.block, 40)
    }

    /// When the span began, in nanoseconds since 1970.
    pub fn start_time(&self) -> i64
        ensures { result ≡ (facts self.now.block.now).start }
    {
        i64::read(self.block, 48)
    }

    /// When the span ended, in nanoseconds since 1970.
    pub fn end_time(&self) -> i64
        ensures { result ≡ (facts self.now.block.now).finish }
    {
        i64::read(self.block, 56)
    }

    /// What the span stands for.
    pub fn kind(&self) -> SpanKind
        ensures { result ≡ (facts self.now.block.now).kind }
    {
        header::kind(self.block)
    }

    /// How the span ended.
    pub fn status(&self) -> StatusCode
        ensures { result ≡ (facts self.now.block.now).status }
    {
        header::status(self.block)
    }

    /// The span's name.
    pub fn name(&self) -> &'a [u8]
        ensures { result.now ≡ (facts self.now.block.now).name }
    {
        header::name(self.block)
    }

    /// The span's trace state.
    pub fn trace_state(&self) -> &'a [u8]
        ensures { result.now ≡ (facts self.now.block.now).trace_state }
    {
        header::text_at(self.block, 88)
    }

    /// The name of the instrumentation scope.
    pub fn scope_name(&self) -> &'a [u8]
        ensures { result.now ≡ (facts self.now.block.now).scope_name }
    {
        header::text_at(self.block, 96)
    }

    /// The version of the instrumentation scope.
    pub fn scope_version(&self) -> &'a [u8]
        ensures { result.now ≡ (facts self.now.block.now).scope_version }
    {
        header::text_at(self.block, 104)
    }

    /// What the status says.
    pub fn description(&self) -> &'a [u8]
        ensures { result.now ≡ (facts self.now.block.now).description }
    {
        header::text_at(self.block, 112)
    }

    /// How many attributes were dropped.
    pub fn dropped_attributes(&self) -> u32
        ensures { result ≡ u32_in self.now.block.now 64 }
    {
        u32::read(self.block, 64)
    }

    /// How many events were dropped.
    pub fn dropped_events(&self) -> u32
        ensures { result ≡ u32_in self.now.block.now 68 }
    {
        u32::read(self.block, 68)
    }

    /// How many links were dropped.
    pub fn dropped_links(&self) -> u32
        ensures { result ≡ u32_in self.now.block.now 72 }
    {
        u32::read(self.block, 72)
    }

    /// How many rows there are.
    pub fn row_count(&self) -> u16
        ensures { result ≡ rows_in self.now.block.now }
    {
        header::row_count(self.block)
    }
}
