//! The limits of a block.

/// The bytes of the shortest block: its header.
pub const LEAST: usize = 120;

/// The bytes of the longest block.
pub const MOST: usize = 65536;

/// The most rows of a list, under one owner for the attributes of events and links.
pub const LIST_ROWS: u32 = 128;

/// The bytes of a link's value: trace id, span id and flags.
pub const LINK_BYTES: u32 = 25;
