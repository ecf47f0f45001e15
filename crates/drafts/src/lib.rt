//! Drafts: spans that are built in lent memory, call by call.
#![tactic(auto)]

pub mod call;
mod calls;
mod checks;
pub mod draft;
mod meaning;
mod opening;
pub mod refusal;
mod rows;
pub mod start;
pub mod typed;
mod write;
