//! What a link's value says.
ghost use Rattle.std.specs.Prelude.{◌≡◌};
ghost use Rattle.blocks.specs.Projections.{link_ids_in};

use crate::row::{LinkIds, Row};
use lent_bytes::fields::id_at;
use lent_bytes::memory::byte;

impl Row<'_> {
    /// The ids and the flags of a link, which are its value. Bytes that the value lacks are 0.
    pub fn link_ids(&self) -> LinkIds
        ensures { result ≡ link_ids_in self.now.value.now }
    {
        LinkIds {
            trace_id_high: id_at(self.value, 0),
            trace_id_low: id_at(self.value, 8),
            span_id: id_at(self.value, 16),
            flags: byte(self.value, 24),
        }
    }
}
