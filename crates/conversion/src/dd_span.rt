//! A Datadog span over the memory that was lent for it.
ghost use Rattle.std.specs.Prelude.{false};
ghost use Rattle.blocks.specs.Facts.{row_facts};
ghost use Rattle.conversion.specs.LinkTexts.{Lies, link_texts};

use crate::unfinished::UnfinishedSpan;

/// A Datadog span, over the block that it was made of, its table of texts and its arena. The texts of its links' attributes
/// lie in the arena one behind another, from the place `links_at` on. It is moved and not copied.
#[derive(Drop)]
pub struct DdSpan<'b, 'm, 'a> {
    pub(crate) made: UnfinishedSpan<'b, 'm, 'a>,
    pub(crate) links_at: usize,
    pub ghost links_held: { Lies made.arena.now links_at (link_texts false (row_facts made.block.now)) },
}
