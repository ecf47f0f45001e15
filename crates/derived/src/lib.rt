//! What is derived from a reading: names, types, and the six fields of a Datadog span.
#![tactic(auto)]

mod composed_names;
pub mod db_types;
pub mod fields;
pub mod operation_name;
pub mod resource_name;
pub mod span_fields;
mod texts;
