//! The reader of a span in a block.
#![tactic(auto)]

pub mod span_extract_args;
