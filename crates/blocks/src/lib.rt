//! Blocks: the binary form in which dashboards hand over a span, opened or refused.
#![tactic(auto)]

mod counts;
pub mod faults;
mod frame;
pub mod header;
pub mod layout;
pub mod limits;
mod link_ids;
pub mod lists;
pub mod questions;
pub mod row;
mod rows;
pub mod sdk_span;
pub mod search;
pub mod span_kind;
