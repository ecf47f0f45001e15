//! Two blocks compared: their Datadog spans, printed beside each other, value by value.
#![tactic(auto)]

mod cells;
mod entries;
mod fields;
mod input;
mod mark;
pub mod outcome;
mod owners;
mod request;
mod row;
pub mod run;
mod sides;
mod spans;
mod summary;
