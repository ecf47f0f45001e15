//! Two Datadog spans laid beside each other, value by value, and what they differ in, counted.
#![tactic(auto)]

pub mod compared;
pub mod entries;
pub mod fields;
pub mod left_out;
pub mod owners;
pub mod same_values;
pub mod standing;
