//! A Datadog span in lent memory, as far as the steps have made it.
ghost use Rattle.std.specs.Prelude.{◌≡◌, ◌≤◌, length, map, take};
ghost use Rattle.conversion.specs.Pieces.{meta_pair, piece_end, meta_end, metrics_end};
ghost use Rattle.conversion.specs.Digests.{Digested};

use crate::pieces::{MetaRow, Metric, Piece};

/// How many numbers a span holds.
pub const METRICS: usize = 130;

/// The pattern of the double one.
pub(crate) const ONE: u64 = 0x3ff0_0000_0000_0000;

/// The single fields of a span.
#[derive(Clone, Copy)]
pub struct Head {
    pub(crate) service: Piece,
    pub(crate) name: Piece,
    pub(crate) resource: Piece,
    pub(crate) span_type: Piece,
    pub(crate) trace_id: u64,
    pub(crate) span_id: u64,
    pub(crate) parent_id: u64,
    pub(crate) start: i64,
    pub(crate) duration: i64,
    pub(crate) error: i32,
}

/// A span that is being made: its texts are quoted, are parts of the block, or lie in the arena, of which the first `used`
/// bytes are placed.
#[derive(Drop)]
pub struct UnfinishedSpan<'b, 'm, 'a> {
    pub(crate) block: &'b [u8],
    pub(crate) meta: &'m mut [MetaRow],
    pub(crate) meta_len: usize,
    pub(crate) arena: &'a mut [u8],
    pub(crate) used: usize,
    pub(crate) metrics: [Metric; METRICS],
    pub(crate) metrics_len: usize,
    pub(crate) head: Head,
    pub ghost room: { used ≤ length arena.now },
    pub ghost rows: { meta_len ≤ length meta.now },
    pub ghost counts: { metrics_len ≤ 130 },
    pub ghost table: { length metrics ≡ 130 },
    pub ghost meta_held: { meta_end (take meta_len meta.now) ≤ used },
    pub ghost meta_digests: { Digested (take meta_len meta.now) (map (meta_pair block.now arena.now) (take meta_len meta.now)) },
    pub ghost metrics_held: { metrics_end (take metrics_len metrics) ≤ used },
    pub ghost service_held: { piece_end head.service ≤ used },
    pub ghost name_held: { piece_end head.name ≤ used },
    pub ghost resource_held: { piece_end head.resource ≤ used },
    pub ghost type_held: { piece_end head.span_type ≤ used },
}
