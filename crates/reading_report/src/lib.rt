//! What programs print of a reader: a line for what is said under a known key, and the six fields.
#![tactic(auto)]

pub mod field;
pub mod key_line;
pub mod token;
