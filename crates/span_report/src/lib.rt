//! What is printed of a span, wherever it comes from.
#![tactic(auto)]

pub mod columns;
pub mod facts;
mod header;
pub mod origin;
pub mod refusal;
mod rows;
