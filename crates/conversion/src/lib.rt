//! The conversion of an OpenTelemetry span to a Datadog span, the Datadog span in lent memory, and the questions on it.
#![tactic(auto)]

mod arena;
mod attributes;
mod by_key;
mod clearing;
pub mod constants;
pub mod convert;
pub mod dd_span;
mod digests;
pub mod events;
mod exceptions;
pub mod faults;
pub mod fields;
mod forms;
mod last_error;
mod link_places;
pub mod link_questions;
mod links;
mod minimal;
mod own;
pub mod pieces;
mod puts;
pub mod questions;
mod row_steps;
mod rows;
pub mod singles;
pub mod unfinished;
