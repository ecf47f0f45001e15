//! What is printed of a Datadog span.
#![tactic(auto)]

mod entries;
mod events;
mod head;
mod links;
pub mod shown;
