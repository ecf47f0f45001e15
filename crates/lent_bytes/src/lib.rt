//! Lent memory: parts of it, numbers and texts in it, and tables of texts. Everything here is total:
//! reading is clamped to the memory, a missing byte is 0, and writing is clipped.
#![tactic(auto)]

pub mod digits;
pub mod fields;
pub mod memory;
pub mod tables;
pub mod texts;
