//! Readers of spans: what a reader answers, and its texts by several keys.
#![tactic(auto)]

pub mod dd_keys;
pub mod first_texts;
pub mod otel_util;
pub mod tables;
pub mod texts;
