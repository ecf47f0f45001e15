//! What holds of the definitions of blocks.
ghost use Rattle.block_laws.specs.Covered.{OwnedExactly};

/// In a lawful block each attribute of an event or a link stands under exactly one, in order, and the events and
/// links are the rows of their lists.
pub fn owned_exactly()
    ensures { OwnedExactly }
{}
